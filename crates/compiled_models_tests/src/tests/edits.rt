//! Edits that are assumed, and those that others lose.

use super::answers::answer;
use std::alloc::Global;
use std::test::Fail;
use test_rows::{joined, same_of};

/// The first line of what is answered.
fn first_line(told: &str) -> &str {
    match told.split_once('\n') {
        Some((first, _)) => first,
        None => told,
    }
}

/// What is answered begins with this line.
fn is_first(alloc: Global, resources: &str, assumed: &str, want: &str) -> Result<(), Fail> {
    let told = answer(alloc, resources, assumed)?;
    same_of(
        alloc,
        &[resources, " ", assumed],
        first_line(told.as_str()),
        want,
    )
}

/// The parameters of `File[/h]`, and its program beside two resources that edit `/h`.
const LOST: &[(&str, &str)] = &[
    (
        r#""content":"x","replace":false"#,
        "if none?(\"/h\") then [creat(\"/h\",\"x\"); if file?(\"/.rehearsal/edit/%2Fh/File_line[a]\") then rm(\"/.rehearsal/edit/%2Fh/File_line[a]\") else id; if file?(\"/.rehearsal/edit/%2Fh/Exec[b]\") then rm(\"/.rehearsal/edit/%2Fh/Exec[b]\") else id] else id",
    ),
    (
        r#""ensure":"directory""#,
        "if dir?(\"/h\") then id else mkdir(\"/h\")",
    ),
    (r#""content":"x","noop":true"#, "id"),
];

/// What is assumed of the two.
const EDITED_BY_TWO: &str =
    r#""File_line":{"edits":["/h"]},"Exec":{"edits":["/h"],"creates":"/c"}"#;

/// A file beside two resources.
fn beside_two(alloc: Global, parameters: &str) -> Result<String, Fail> {
    Ok(joined(
        alloc,
        &[
            r#"{"type":"File","title":"/h","kind":"compilable_type","parameters":{"#,
            parameters,
            r#"}},{"type":"File_line","title":"a","kind":"compilable_type"},{"type":"Exec","title":"b","kind":"compilable_type"}"#,
        ],
    )?)
}

/// A file of these parameters, beside those two, has this program.
fn is_lost(alloc: Global, parameters: &str, want: &str) -> Result<(), Fail> {
    let resources = beside_two(alloc, parameters)?;
    is_first(alloc, resources.as_str(), EDITED_BY_TWO, want)
}

/// A file of each row's parameters, beside those two, has the program that stands there.
fn are_lost(alloc: Global, rows: &[(&str, &str)]) -> Result<(), Fail> {
    for (parameters, want) in rows {
        is_lost(alloc, *parameters, *want)?;
    }
    Ok(())
}

#[test]
fn edits_are_lost(rt: HostRuntime) -> Result<(), Fail> {
    are_lost(rt.alloc(), LOST)
}

/// What is assumed of a resource that edits `/s`.
const EDITED: &str = r#""File_line":{"edits":["/s"]}"#;

/// The parameters of `File[/a]`, what is assumed, and what is answered of the file.
const COPIED: &[(&str, &str, &str)] = &[
    (r#""source":"/s""#, EDITED, "51 at 0: File[/a] source"),
    (r#""source":"//s/""#, EDITED, "51 at 0: File[/a] source"),
    (
        r#""source":"/s","target":"/t""#,
        EDITED,
        "51 at 0: File[/a] source",
    ),
    (
        r#""source":"/s","recurse":true"#,
        EDITED,
        "51 at 0: File[/a] recurse",
    ),
    (
        r#""source":"/t""#,
        EDITED,
        "if file?(\"/a\") then [rm(\"/a\"); cp(\"/t\",\"/a\")] else cp(\"/t\",\"/a\")",
    ),
    (
        r#""source":"/s","ensure":"absent""#,
        EDITED,
        "if (file?(\"/a\") or link?(\"/a\")) then rm(\"/a\") else id",
    ),
    (
        r#""source":"/s""#,
        r#""File_line":{"edits":["/s"]},"File[/a]":{"edits":["/s"]}"#,
        "* [if file?(\"/s\") then id else err; if dir?(\"/.rehearsal\") then id else mkdir(\"/.rehearsal\"); if dir?(\"/.rehearsal/edit\") then id else mkdir(\"/.rehearsal/edit\"); if dir?(\"/.rehearsal/edit/%2Fs\") then id else mkdir(\"/.rehearsal/edit/%2Fs\"); if file?(\"/.rehearsal/edit/%2Fs/File[%2Fa]\") then [rm(\"/.rehearsal/edit/%2Fs/File[%2Fa]\"); creat(\"/.rehearsal/edit/%2Fs/File[%2Fa]\",\"{\\\"source\\\":\\\"/s\\\"}\")] else creat(\"/.rehearsal/edit/%2Fs/File[%2Fa]\",\"{\\\"source\\\":\\\"/s\\\"}\")]",
    ),
];

/// A file beside one resource.
fn beside_one(alloc: Global, parameters: &str) -> Result<String, Fail> {
    Ok(joined(
        alloc,
        &[
            r#"{"type":"File","title":"/a","kind":"compilable_type","parameters":{"#,
            parameters,
            r#"}},{"type":"File_line","title":"l","kind":"compilable_type"}"#,
        ],
    )?)
}

/// This is answered of a file of these parameters, beside that one.
fn is_copied(alloc: Global, parameters: &str, assumed: &str, want: &str) -> Result<(), Fail> {
    let resources = beside_one(alloc, parameters)?;
    is_first(alloc, resources.as_str(), assumed, want)
}

/// Of a file of each row's parameters, beside that one, is answered what stands there.
fn are_copied(alloc: Global, rows: &[(&str, &str, &str)]) -> Result<(), Fail> {
    for (parameters, assumed, want) in rows {
        is_copied(alloc, *parameters, *assumed, *want)?;
    }
    Ok(())
}

#[test]
fn edited_files_are_no_sources(rt: HostRuntime) -> Result<(), Fail> {
    are_copied(rt.alloc(), COPIED)
}
