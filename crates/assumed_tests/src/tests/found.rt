//! Assumptions that are read, and those of types.

use super::answers::{add_assumed, answer_of, text_of};
use assumed_text::{Assumed, Assumptions, assumptions_from_json};
use std::alloc::Global;
use std::test::Fail;
use test_rows::same;

/// Members, and what they say.
const READ: &[(&str, &str)] = &[
    ("", ""),
    (r#""Exec":"none""#, "exec[..] nothing\n"),
    (
        r#""Exec[apt-get update]":"refused""#,
        "Exec[apt-get update] refused\n",
    ),
    (
        r#""file_line":{"edits":["/etc/hosts"]}"#,
        "file_line[..] edits /etc/hosts\n",
    ),
    (
        r#""A::B[x]":{"removes":["/r"],"edits":["/e"],"makes":["/m","/k"],"folders":["/f/g"],"needs":["/n"],"creates":"/c"}"#,
        "A::B[x] needs /n folders /f/g makes /m makes /k edits /e removes /r creates /c\n",
    ),
    (r#""exec":{"needs":[]}"#, "exec[..]\n"),
    (
        r#""exec":{"makes":[],"creates":"/c/"}"#,
        "exec[..] creates /c\n",
    ),
    // `creates` may be a path that stands already
    (
        r#""exec":{"makes":["/m"],"creates":"/m"}"#,
        "exec[..] makes /m creates /m\n",
    ),
    // one path of two assumptions
    (
        r#""a":{"makes":["/m"]},"b":{"makes":["/m"]}"#,
        "a[..] makes /m\nb[..] makes /m\n",
    ),
    // titles with brackets and blanks
    (r#""Exec[a[b]c]":"none""#, "Exec[a[b]c] nothing\n"),
    (r#""Exec[ ]":"none""#, "Exec[ ] nothing\n"),
    // a class is named without a leading `::`, in lower case
    (r#""Class[::Ntp]":"none""#, "Class[ntp] nothing\n"),
    // keys in the order of bytes
    (
        r#""exec":"none","File[/b]":"none","Exec":"refused","File[/a]":"refused","file[/a]":"none""#,
        "exec[..] refused\nFile[/a] refused\nFile[/b] nothing\nexec[..] nothing\nFile[/a] nothing\n",
    ),
    // the last of equal keys counts
    (r#""exec":null,"exec":"none""#, "exec[..] nothing\n"),
    (
        r#""exec":{"needs":["/a"],"needs":["/b"]}"#,
        "exec[..] needs /b\n",
    ),
];

/// These members say this.
fn is_read(alloc: Global, members: &str, want: &str) -> Result<(), Fail> {
    let told = answer_of(alloc, members)?;
    same(alloc, members, told.as_str(), want)
}

/// The members of each row say what stands beside them.
fn are_read(alloc: Global, rows: &[(&str, &str)]) -> Result<(), Fail> {
    for (members, want) in rows {
        is_read(alloc, *members, *want)?;
    }
    Ok(())
}

#[test]
fn assumptions_are_read(rt: HostRuntime) -> Result<(), Fail> {
    are_read(rt.alloc(), READ)
}

/// Assumptions of these members.
fn assumptions_of(alloc: Global, members: &str) -> Result<Assumptions, Fail> {
    let text = text_of(alloc, members)?;
    Ok(assumptions_from_json(alloc, text.as_bytes())?)
}

/// Adds what is assumed, or a dash.
fn add_found(alloc: Global, found: Option<&Assumed>, line: &mut String) -> Result<(), Fail> {
    match found {
        Some(assumed) => add_assumed(alloc, assumed, line),
        None => Ok(line.push_str("-")?),
    }
}

fn shown_of(alloc: Global, assumptions: &Assumptions, kind: &str) -> Result<String, Fail> {
    let mut line = String::new(alloc);
    add_found(alloc, assumptions.of_type(kind), &mut line)?;
    Ok(line)
}

/// Types, and what is assumed of them.
const TYPES: &[(&str, &str)] = &[
    ("exec", " refused"),
    ("file_line", " edits /e"),
    ("a::b", " nothing"),
    ("file", "-"),
    ("Exec", "-"),
    ("", "-"),
];

/// Of this type this is assumed.
fn is_found(alloc: Global, assumptions: &Assumptions, kind: &str, want: &str) -> Result<(), Fail> {
    let told = shown_of(alloc, assumptions, kind)?;
    same(alloc, kind, told.as_str(), want)
}

/// Of the type of each row is assumed what stands beside it.
fn are_found(alloc: Global, assumptions: &Assumptions, rows: &[(&str, &str)]) -> Result<(), Fail> {
    for (kind, want) in rows {
        is_found(alloc, assumptions, *kind, *want)?;
    }
    Ok(())
}

#[test]
fn types_are_found(rt: HostRuntime) -> Result<(), Fail> {
    let assumptions = assumptions_of(
        rt.alloc(),
        r#""exec":"none","EXEC":"refused","Exec":"none","File[/a]":"none","File_line":{"edits":["/e"]},"A::b":"none""#,
    )?;
    are_found(rt.alloc(), &assumptions, TYPES)
}
