//! Where programs fail, each row programs in words, a tree, and what is told of a run of them in turn.

use super::differences::tree;
use explained_text::push_failure;
use failure_search::{Failed, find_failure};
use fs_lang::{Program, Tree};
use fs_replay::are_below;
use rh_base::Text;
use std::alloc::Global;
use std::test::Fail;
use test_programs::programs;
use test_rows::same;

/// The numbers below this one, in turn.
fn numbers(alloc: Global, n: usize) -> Result<Vec<u32>, Fail> {
    let mut order = Vec::new(alloc);
    for i in 0..n {
        order.push(u32::try_from(i).ok().ok_or("a number")?)?;
    }
    Ok(order)
}

fn push_failed(alloc: Global, failed: &Failed, text: &mut Text) -> Result<(), Fail> {
    let name = format!(in alloc; "{}", failed.resource)?;
    push_failure(alloc, name.as_str(), &failed.failure, text)?;
    Ok(())
}

fn shown(alloc: Global, found: &Option<Failed>) -> Result<Text, Fail> {
    let mut text = Text::new(alloc);
    match found {
        None => text.push("ends")?,
        Some(failed) => push_failed(alloc, failed, &mut text)?,
    }
    Ok(text)
}

/// What is told of a run of programs in this order.
fn told_in(alloc: Global, programs: &[Program], order: &[u32], from: &Tree) -> Result<Text, Fail> {
    if !are_below(order, programs.len()) {
        return Err("numbers that are of no program".into());
    }
    let found = find_failure(alloc, programs, order, from)?;
    shown(alloc, &found)
}

/// What is told of a run of programs in turn.
fn told_of(alloc: Global, programs: &[Program], from: &Tree) -> Result<Text, Fail> {
    let order = numbers(alloc, programs.len())?;
    told_in(alloc, programs, &order, from)
}

fn told_from(alloc: Global, words: &str, from: &Tree) -> Result<Text, Fail> {
    match programs(alloc, words) {
        Ok(programs) => told_of(alloc, programs.as_slice(), from),
        Err(_) => Err("no programs".into()),
    }
}

fn told(alloc: Global, words: &str, text: &str) -> Result<Text, Fail> {
    let from = tree(alloc, text)?;
    told_from(alloc, words, &from)
}

fn is_failing(alloc: Global, words: &str, tree: &str, want: &str) -> Result<(), Fail> {
    let found = told(alloc, words, tree)?;
    let step = found.as_str().strip_prefix("fails at 0: ");
    same(alloc, words, step.unwrap_or("it ends"), want)
}

/// Each construct, run on the tree beside it, fails so.
fn are_failing(alloc: Global, rows: &[(&str, &str, &str)]) -> Result<(), Fail> {
    for (words, tree, want) in rows {
        is_failing(alloc, *words, *tree, *want)?;
    }
    Ok(())
}

#[test]
fn creations_that_fail(rt: HostRuntime) -> Result<(), Fail> {
    are_failing(
        rt.alloc(),
        &[
            ("mkdir /a", r#"{"/a":null}"#, r#"mkdir "/a": exists"#),
            ("mkdir /", "{}", r#"mkdir "/": exists"#),
            ("mkdir /a/b", "{}", r#"mkdir "/a/b": no folder "/a""#),
            (
                "mkdir /a/b",
                r#"{"/a":"x"}"#,
                r#"mkdir "/a/b": no folder "/a""#,
            ),
            ("creat /a x", r#"{"/a":"x"}"#, r#"creat "/a": exists"#),
            ("creat /a/b x", "{}", r#"creat "/a/b": no folder "/a""#),
            ("link /a /b", r#"{"/a":"x"}"#, r#"link "/a": exists"#),
            ("link /a/b /c", "{}", r#"link "/a/b": no folder "/a""#),
        ],
    )
}

#[test]
fn copies_that_fail(rt: HostRuntime) -> Result<(), Fail> {
    are_failing(
        rt.alloc(),
        &[
            ("cp /a /b", "{}", r#"cp "/a" "/b": no file "/a""#),
            (
                "cp /a /b",
                r#"{"/a":null}"#,
                r#"cp "/a" "/b": no file "/a""#,
            ),
            (
                "cp /a /b",
                r#"{"/a":"x","/b":null}"#,
                r#"cp "/a" "/b": exists "/b""#,
            ),
            (
                "cp /a /b/c",
                r#"{"/a":"x"}"#,
                r#"cp "/a" "/b/c": no folder "/b""#,
            ),
        ],
    )
}

#[test]
fn removals_that_fail(rt: HostRuntime) -> Result<(), Fail> {
    are_failing(
        rt.alloc(),
        &[
            ("rm /a", "{}", r#"rm "/a": nothing there"#),
            (
                "rm /a",
                r#"{"/a":null,"/a/b":"x"}"#,
                r#"rm "/a": not empty"#,
            ),
            ("rm /", r#"{"/a":null}"#, r#"rm "/": not empty"#),
            ("rm /", "{}", r#"rm "/": the root"#),
        ],
    )
}

#[test]
fn conditions_and_sequences_that_fail(rt: HostRuntime) -> Result<(), Fail> {
    are_failing(
        rt.alloc(),
        &[
            ("err", "{}", "err"),
            ("if file? /a: id, err", "{}", r#"needs file?("/a")"#),
            (
                "if file? /a: err, id",
                r#"{"/a":"x"}"#,
                r#"needs not file?("/a")"#,
            ),
            (
                "if file? /a: id, if dir? /b: id, err",
                "{}",
                r#"needs dir?("/b")"#,
            ),
            (
                "mkdir /a; mkdir /a; mkdir /b/c",
                "{}",
                r#"mkdir "/a": exists"#,
            ),
        ],
    )
}

fn is_told(alloc: Global, words: &str, tree: &str, want: &str) -> Result<(), Fail> {
    let found = told(alloc, words, tree)?;
    same(alloc, words, found.as_str(), want)
}

/// This is told of programs that are run in turn on the tree beside them.
fn are_told(alloc: Global, rows: &[(&str, &str, &str)]) -> Result<(), Fail> {
    for (words, tree, want) in rows {
        is_told(alloc, *words, *tree, *want)?;
    }
    Ok(())
}

#[test]
fn resources_that_fail(rt: HostRuntime) -> Result<(), Fail> {
    are_told(
        rt.alloc(),
        &[
            ("", "{}", "ends"),
            ("mkdir /a | mkdir /a/b", "{}", "ends"),
            (
                "mkdir /a | mkdir /b | mkdir /a/c | rm /a | err",
                "{}",
                r#"fails at 3: rm "/a": not empty"#,
            ),
            (
                "mkdir /a/b | mkdir /a",
                "{}",
                r#"fails at 0: mkdir "/a/b": no folder "/a""#,
            ),
            (
                "dir /a | put /a/b x | put /a/b/c y",
                "{}",
                r#"fails at 2: creat "/a/b/c": no folder "/a/b""#,
            ),
        ],
    )
}
