//! Smaller trees that show the same, each row programs in words, orders, a tree and what is left of it.

use super::differences::tree;
use fs_lang::{Path, Program, Tree};
use fs_replay::are_below;
use smaller_witness::{smaller_again, smaller_apart};
use std::alloc::Global;
use std::test::Fail;
use test_programs::programs;
use test_rows::same;
use tree_text::tree_to_json;

fn path(alloc: Global, text: &str) -> Result<Path, Fail> {
    match Path::read(alloc, text) {
        Ok(path) => Ok(path),
        Err(_) => Err("no path".into()),
    }
}

/// The folders that words name.
fn folders(alloc: Global, words: &str) -> Result<Vec<Path>, Fail> {
    let mut all = Vec::new(alloc);
    for text in words.split(' ') {
        if !text.is_empty() {
            all.push(path(alloc, text)?)?;
        }
    }
    Ok(all)
}

/// A smaller tree from which programs end apart in the two orders; or in a second run in the first one, where there is no other.
fn smaller(
    alloc: Global,
    programs: &[Program],
    orders: (&[u32], &[u32]),
    from: &Tree,
    given: &[Path],
) -> Result<Tree, Fail> {
    let (first, second) = orders;
    if !are_below(first, programs.len()) || !are_below(second, programs.len()) {
        return Err("numbers that are of no program".into());
    }
    if second.is_empty() {
        Ok(smaller_again(alloc, programs, first, from, given)?)
    } else {
        Ok(smaller_apart(alloc, programs, first, second, from, given)?)
    }
}

/// Programs in words, a tree, the given folders, and what is left of the tree.
type Row = (&'static str, &'static str, &'static str, &'static str);

/// The text of a tree is a row's last.
fn is_text(alloc: Global, row: &Row, tree: &Tree) -> Result<(), Fail> {
    let mut bytes = Vec::new(alloc);
    tree_to_json(alloc, tree, &mut bytes)?;
    let text = str::from_utf8(&bytes).unwrap_or("no text");
    same(alloc, row.0, text, row.3)
}

fn programs_leave(
    alloc: Global,
    row: &Row,
    orders: (&[u32], &[u32]),
    programs: &[Program],
    from: &Tree,
    given: &[Path],
) -> Result<(), Fail> {
    let left = smaller(alloc, programs, orders, from, given)?;
    is_text(alloc, row, &left)
}

fn words_leave(
    alloc: Global,
    row: &Row,
    orders: (&[u32], &[u32]),
    from: &Tree,
    given: &[Path],
) -> Result<(), Fail> {
    match programs(alloc, row.0) {
        Ok(all) => programs_leave(alloc, row, orders, all.as_slice(), from, given),
        Err(_) => Err("no programs".into()),
    }
}

fn tree_leaves(
    alloc: Global,
    row: &Row,
    orders: (&[u32], &[u32]),
    given: &[Path],
) -> Result<(), Fail> {
    let from = tree(alloc, row.1)?;
    words_leave(alloc, row, orders, &from, given)
}

fn is_left(alloc: Global, orders: (&[u32], &[u32]), row: &Row) -> Result<(), Fail> {
    let given = folders(alloc, row.2)?;
    tree_leaves(alloc, row, orders, &given)
}

/// In these orders each row's tree is left so. The given folders stay.
fn are_left(alloc: Global, orders: (&[u32], &[u32]), rows: &[Row]) -> Result<(), Fail> {
    for row in rows {
        is_left(alloc, orders, row)?;
    }
    Ok(())
}

#[test]
fn trees_that_show_the_same(rt: HostRuntime) -> Result<(), Fail> {
    are_left(
        rt.alloc(),
        (&[0, 1], &[1, 0]),
        &[
            (
                "mkdir /a | if dir? /a: rm /a, id",
                r#"{"/x":null,"/x/y":"z"}"#,
                "",
                "{}",
            ),
            ("creat /a/b x | dir /a", r#"{"/c":"d"}"#, "", "{}"),
            (
                "creat /a/b x | dir /a",
                r#"{"/c":null,"/c/d":null,"/c/e":null,"/f":null}"#,
                "/c/d",
                r#"{"/c":null,"/c/d":null}"#,
            ),
            (
                "creat /a/b x | rm /a/b",
                r#"{"/a":null,"/a/c":"d","/e":null}"#,
                "",
                r#"{"/a":null}"#,
            ),
            ("mkdir /a | mkdir /b", r#"{"/c":"d"}"#, "", r#"{"/c":"d"}"#),
        ],
    )
}

#[test]
fn trees_that_show_the_same_of_a_second_run(rt: HostRuntime) -> Result<(), Fail> {
    are_left(
        rt.alloc(),
        (&[0], &[]),
        &[
            (
                "cp /s /d; rm /s",
                r#"{"/s":"x","/z":null}"#,
                "",
                r#"{"/s":"x"}"#,
            ),
            (
                "cp /s /d; rm /s",
                r#"{"/s":"x","/y":null,"/z":null}"#,
                "/ /z",
                r#"{"/s":"x","/z":null}"#,
            ),
        ],
    )
}
