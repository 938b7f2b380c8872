//! Paths at which trees differ, each row two trees and the lines.

use explained_text::push_differences;
use fs_lang::Tree;
use rh_base::{NoMemory, Text};
use std::alloc::Global;
use std::test::Fail;
use test_rows::{joined, same};
use tree_differences::{Difference, differences};
use tree_text::tree_from_json;

pub fn tree(alloc: Global, text: &str) -> Result<Tree, Fail> {
    match tree_from_json(alloc, text.as_bytes()) {
        Ok(tree) => Ok(tree),
        Err(_) => Err("no tree".into()),
    }
}

fn text_of(alloc: Global, list: &[Difference]) -> Result<Text, Fail> {
    let mut text = Text::new(alloc);
    push_differences(alloc, list, &mut text)?;
    Ok(text)
}

/// The lines of what differs between two trees.
fn lines_of(alloc: Global, left: &Tree, right: &Tree) -> Result<Text, Fail> {
    let list = differences(alloc, left, right)?;
    text_of(alloc, &list)
}

fn lines_beside(alloc: Global, left: &Tree, second: &str) -> Result<Text, Fail> {
    let right = tree(alloc, second)?;
    lines_of(alloc, left, &right)
}

fn lines(alloc: Global, first: &str, second: &str) -> Result<Text, Fail> {
    let left = tree(alloc, first)?;
    lines_beside(alloc, &left, second)
}

fn is_told(alloc: Global, first: &str, second: &str, want: &str) -> Result<(), Fail> {
    let found = lines(alloc, first, second)?;
    same(alloc, first, found.as_str(), want)
}

/// Each two trees differ as these lines say.
fn are_told(alloc: Global, rows: &[(&str, &str, &str)]) -> Result<(), Fail> {
    for (first, second, want) in rows {
        is_told(alloc, *first, *second, *want)?;
    }
    Ok(())
}

#[test]
fn trees_that_differ(rt: HostRuntime) -> Result<(), Fail> {
    are_told(
        rt.alloc(),
        &[
            ("{}", "{}", ""),
            (r#"{"/a":null,"/a/b":"x"}"#, r#"{"/a":null,"/a/b":"x"}"#, ""),
            (r#"{"/a":null}"#, "{}", "at \"/a\": folder | nothing\n"),
            (
                "{}",
                r#"{"/a":{"link":"/b"}}"#,
                "at \"/a\": nothing | link \"/b\"\n",
            ),
            (
                r#"{"/a":"x"}"#,
                r#"{"/a":{"link":"x"}}"#,
                "at \"/a\": file \"x\" | link \"x\"\n",
            ),
            (
                r#"{"/x":"digest:1","/y":"z"}"#,
                r#"{"/x":"digest:2","/y":"z"}"#,
                "at \"/x\": file \"digest:1\" | file \"digest:2\"\n",
            ),
            (
                r#"{"/a":null,"/a/c":null}"#,
                r#"{"/a-b":null}"#,
                "at \"/a\": folder | nothing\nat \"/a-b\": nothing | folder\nat \"/a/c\": folder | nothing\n",
            ),
        ],
    )
}

/// The tree of a file of this content alone.
fn of_content(alloc: Global, content: &str) -> Result<String, NoMemory> {
    joined(alloc, &["{\"/a\":\"", content, "\"}"])
}

/// The line of a file of this content where nothing else is.
fn cut(alloc: Global, content: &str) -> Result<Text, Fail> {
    let tree = of_content(alloc, content)?;
    lines(alloc, tree.as_str(), "{}")
}

fn is_line(alloc: Global, content: &str, line: &str) -> Result<(), Fail> {
    let found = cut(alloc, content)?;
    same(alloc, content, found.as_str(), line)
}

fn is_cut(alloc: Global, content: &str, want: &str) -> Result<(), Fail> {
    let line = joined(alloc, &["at \"/a\": file ", want, " | nothing\n"])?;
    is_line(alloc, content, line.as_str())
}

/// Each content is written so.
fn are_cut(alloc: Global, rows: &[(&str, &str)]) -> Result<(), Fail> {
    for (content, want) in rows {
        is_cut(alloc, *content, *want)?;
    }
    Ok(())
}

#[test]
fn long_contents_are_cut(rt: HostRuntime) -> Result<(), Fail> {
    are_cut(
        rt.alloc(),
        &[
            (
                "123456789012345678901234567890123456789012345678901234567890",
                "\"123456789012345678901234567890123456789012345678901234567890\"",
            ),
            (
                "1234567890123456789012345678901234567890123456789012345678901",
                "\"123456789012345678901234567890123456789012345678901234567890\"..",
            ),
            (
                "12345678901234567890123456789012345678901234567890123456789ü",
                "\"12345678901234567890123456789012345678901234567890123456789\"..",
            ),
        ],
    )
}
