//! Trees from texts, and as they are written.

use fs_lang::Tree;
use std::alloc::Global;
use std::test::Fail;
use test_rows::{joined, refused, same};
use tree_text::{tree_from_json, tree_to_json};

fn written(alloc: Global, tree: &Tree) -> Result<String, Fail> {
    let mut bytes = Vec::new(alloc);
    tree_to_json(alloc, tree, &mut bytes)?;
    Ok(String::from_utf8(bytes)?)
}

/// The tree of a text as it is written, or the refusal.
fn answer(alloc: Global, text: &[u8]) -> Result<String, Fail> {
    match tree_from_json(alloc, text) {
        Ok(tree) => written(alloc, &tree),
        Err(fault) => Ok(refused(alloc, &fault)?),
    }
}

/// This is answered to the text that a row has.
fn is_answered(alloc: Global, row: &str, text: &[u8], want: &str) -> Result<(), Fail> {
    let found = answer(alloc, text)?;
    same(alloc, row, found.as_str(), want)
}

/// The tree of each text is written so.
fn are_answered(alloc: Global, rows: &[(&str, &str)]) -> Result<(), Fail> {
    for (text, want) in rows {
        is_answered(alloc, *text, text.as_bytes(), *want)?;
    }
    Ok(())
}

#[test]
fn trees_that_are_read(rt: HostRuntime) -> Result<(), Fail> {
    are_answered(
        rt.alloc(),
        &[
            ("{}", "{}"),
            (" { } ", "{}"),
            (r#"{"/a":null}"#, r#"{"/a":null}"#),
            (r#"{"/a":"x"}"#, r#"{"/a":"x"}"#),
            (r#"{"/a":""}"#, r#"{"/a":""}"#),
            (r#"{"/a": {"link": "/b"}}"#, r#"{"/a":{"link":"/b"}}"#),
            (r#"{"/a/b":null,"/a":null}"#, r#"{"/a":null,"/a/b":null}"#),
            (
                r#"{"/a/b":null,"/a.b":null,"/a":null,"/a-":null}"#,
                r#"{"/a":null,"/a-":null,"/a.b":null,"/a/b":null}"#,
            ),
            (r#"{"/a":null,"/a":"x"}"#, r#"{"/a":"x"}"#),
            (
                r#"{"/ü":"\u00fc\n\u0001\"\\/"}"#,
                r#"{"/ü":"ü\n\u0001\"\\/"}"#,
            ),
            (r#"{"/a\u000a":null}"#, r#"{"/a\n":null}"#),
            (
                r#"{"/.rehearsal":null,"/.rehearsal/package":null,"/.rehearsal/package/p":"","/opt":null,"/opt/p":null,"/opt/p/z":"q"}"#,
                r#"{"/.rehearsal":null,"/.rehearsal/package":null,"/.rehearsal/package/p":"","/opt":null,"/opt/p":null,"/opt/p/z":"q"}"#,
            ),
        ],
    )
}

fn is_refused(alloc: Global, text: &[u8], row: &str) -> Result<(), Fail> {
    is_answered(alloc, row, text, "62 at 0: tree")
}

fn are_refused(alloc: Global, texts: &[&str]) -> Result<(), Fail> {
    for text in texts {
        is_refused(alloc, text.as_bytes(), *text)?;
    }
    Ok(())
}

#[test]
fn texts_of_another_shape(rt: HostRuntime) -> Result<(), Fail> {
    are_refused(
        rt.alloc(),
        &[
            "",
            "x",
            "{",
            "{}x",
            "null",
            "1",
            "true",
            r#""/a""#,
            "[]",
            r#"["/a"]"#,
            r#"{"/a"}"#,
            r#"{"/a":1}"#,
            r#"{"/a":true}"#,
            r#"{"/a":[]}"#,
            r#"{"/a":{}}"#,
            r#"{"/a":{"link":null}}"#,
            r#"{"/a":{"link":1}}"#,
            r#"{"/a":{"target":"/b"}}"#,
            r#"{"/a":{"link":"/b","more":null}}"#,
            r#"{"/a":{"link":{"link":"/b"}}}"#,
        ],
    )
}

#[test]
fn bytes_that_are_no_text(rt: HostRuntime) -> Result<(), Fail> {
    is_refused(rt.alloc(), b"{\"/\xff\":null}", "no text")
}

#[test]
fn paths_that_are_refused(rt: HostRuntime) -> Result<(), Fail> {
    are_refused(
        rt.alloc(),
        &[
            r#"{"/":null}"#,
            r#"{"":null}"#,
            r#"{"a":null}"#,
            r#"{"/a/":null}"#,
            r#"{"//a":null}"#,
            r#"{"/a":null,"/a//b":null}"#,
            r#"{"/.":null}"#,
            r#"{"/a":null,"/a/..":null}"#,
            r#"{"/a\u0000":null}"#,
            r#"{"/a/b":null}"#,
            r#"{"/a":"x","/a/b":null}"#,
            r#"{"/a":{"link":"/"},"/a/b":null}"#,
            r#"{"/a":null,"/a/b/c":"x"}"#,
        ],
    )
}

/// The text of a tree of one file, whose path has this many bytes.
fn long_path(alloc: Global, bytes: usize) -> Result<String, Fail> {
    let path = "s".repeat(alloc, bytes.saturating_sub(1))?;
    Ok(joined(alloc, &["{\"/", path.as_str(), "\":\"x\"}"])?)
}

/// The text is that of a tree, as it is written.
fn is_written(alloc: Global, text: &str) -> Result<(), Fail> {
    is_answered(alloc, text, text.as_bytes(), text)
}

#[test]
fn the_longest_path(rt: HostRuntime) -> Result<(), Fail> {
    let longest = long_path(rt.alloc(), 1024)?;
    is_written(rt.alloc(), longest.as_str())
}

#[test]
fn longer_paths(rt: HostRuntime) -> Result<(), Fail> {
    let longer = long_path(rt.alloc(), 1025)?;
    is_refused(rt.alloc(), longer.as_bytes(), "a longer path")
}

/// A folder so deep, behind a comma.
fn folder(alloc: Global, depth: usize) -> Result<String, Fail> {
    let path = "/s".repeat(alloc, depth)?;
    Ok(joined(alloc, &[",\"", path.as_str(), "\":null"])?)
}

/// Adds a folder so deep.
fn add_folder(alloc: Global, text: &mut String, depth: usize) -> Result<(), Fail> {
    let entry = folder(alloc, depth)?;
    Ok(text.push_str(entry.as_str())?)
}

/// The text of a tree of nested folders, as many as are asked for.
fn nested(alloc: Global, depth: usize) -> Result<String, Fail> {
    let mut text = String::from_str(alloc, "{\"/s\":null")?;
    for i in 2..=depth {
        add_folder(alloc, &mut text, i)?;
    }
    text.push('}')?;
    Ok(text)
}

#[test]
fn the_deepest_tree(rt: HostRuntime) -> Result<(), Fail> {
    let deepest = nested(rt.alloc(), 32)?;
    is_written(rt.alloc(), deepest.as_str())
}

#[test]
fn deeper_trees(rt: HostRuntime) -> Result<(), Fail> {
    let deeper = nested(rt.alloc(), 33)?;
    is_refused(rt.alloc(), deeper.as_bytes(), "a deeper path")
}
