//! Programs read through the links that every host has.

use super::answers::answer_linked;
use std::alloc::Global;
use std::test::Fail;
use test_rows::same;

/// Resources, members of assumptions, and what is answered where `/lib` is a link to `/usr/lib`.
const READ: &[(&str, &str, &str)] = &[
    (
        r#"{"type":"File","title":"/lib/a","kind":"compilable_type","parameters":{"ensure":"directory"}}"#,
        "",
        "if dir?(\"/usr/lib/a\") then id else mkdir(\"/usr/lib/a\")\n",
    ),
    (
        r#"{"type":"File","title":"/libs","kind":"compilable_type","parameters":{"ensure":"directory"}}"#,
        "",
        "if dir?(\"/libs\") then id else mkdir(\"/libs\")\n",
    ),
    // one path by two names isn't one name twice
    (
        r#"{"type":"File","title":"/lib/a","kind":"compilable_type"},{"type":"File","title":"/usr/lib/a","kind":"compilable_type"}"#,
        "",
        "id\nid\n",
    ),
    // the path of the link itself
    (
        r#"{"type":"File","title":"/lib","kind":"compilable_type"}"#,
        "",
        "53 at 0: File[/lib]",
    ),
    (
        r#"{"type":"File","title":"/lib","kind":"compilable_type","parameters":{"noop":true}}"#,
        "",
        "id\n",
    ),
    (
        r#"{"type":"File","title":"/lib","kind":"compilable_type"}"#,
        r#""file":{"needs":["/lib"]}"#,
        "* if file?(\"/usr/lib\") then id else err\n",
    ),
    // edits and sources are compared as they are read
    (
        r#"{"type":"File","title":"/usr/lib/h","kind":"compilable_type","parameters":{"content":"x","replace":false}},{"type":"File_line","title":"a","kind":"compilable_type","parameters":{"noop":true}}"#,
        r#""File_line[a]":{"edits":["/lib/h"],"creates":"/c"},"File_line":"none""#,
        concat!(
            "if none?(\"/usr/lib/h\") then [creat(\"/usr/lib/h\",\"x\"); if file?(\"/.rehearsal/edit/%2Flib%2Fh/File_line[a]\") then rm(\"/.rehearsal/edit/%2Flib%2Fh/File_line[a]\") else id] else id\n",
            "* if none?(\"/c\") then [if file?(\"/usr/lib/h\") then id else err; if dir?(\"/.rehearsal\") then id else mkdir(\"/.rehearsal\"); if dir?(\"/.rehearsal/edit\") then id else mkdir(\"/.rehearsal/edit\"); if dir?(\"/.rehearsal/edit/%2Flib%2Fh\") then id else mkdir(\"/.rehearsal/edit/%2Flib%2Fh\"); if file?(\"/.rehearsal/edit/%2Flib%2Fh/File_line[a]\") then [rm(\"/.rehearsal/edit/%2Flib%2Fh/File_line[a]\"); creat(\"/.rehearsal/edit/%2Flib%2Fh/File_line[a]\",\"{}\")] else creat(\"/.rehearsal/edit/%2Flib%2Fh/File_line[a]\",\"{}\")] else id\n",
        ),
    ),
    (
        r#"{"type":"File","title":"/a","kind":"compilable_type","parameters":{"source":"/lib/h"}},{"type":"File_line","title":"a","kind":"compilable_type"}"#,
        r#""File_line":{"edits":["/usr/lib/h"]}"#,
        "51 at 0: File[/a] source",
    ),
];

/// Through the link this is answered.
fn is_read(alloc: Global, resources: &str, assumed: &str, want: &str) -> Result<(), Fail> {
    let told = answer_linked(alloc, resources, assumed)?;
    same(alloc, resources, told.as_str(), want)
}

/// Through the link each row's resources and assumptions are answered with what stands beside them.
fn are_read(alloc: Global, rows: &[(&str, &str, &str)]) -> Result<(), Fail> {
    for (resources, assumed, want) in rows {
        is_read(alloc, *resources, *assumed, *want)?;
    }
    Ok(())
}

#[test]
fn programs_are_read(rt: HostRuntime) -> Result<(), Fail> {
    are_read(rt.alloc(), READ)
}
