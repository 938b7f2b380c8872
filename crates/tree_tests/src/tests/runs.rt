//! Runs of programs on trees, each row a program in words, a tree and how the run ends.

use super::answers::is_answered;
use fs_lang::{Outcome, Program, Tree};
use fs_replay::{are_below, replay, run};
use rh_base::NoMemory;
use std::alloc::Global;
use std::test::Fail;
use test_programs::programs;
use test_rows::{joined, same};
use tree_text::{tree_from_json, tree_to_json};

fn push_outcome(alloc: Global, outcome: &Outcome, bytes: &mut Vec<u8>) -> Result<(), NoMemory> {
    match outcome {
        Outcome::Ended(tree) => tree_to_json(alloc, tree, bytes),
        Outcome::Error => Ok(bytes.extend_from_slice(b"error")?),
    }
}

/// How a run ends: the text of a tree, or `error`.
fn shown(alloc: Global, outcome: &Outcome) -> Result<Vec<u8>, Fail> {
    let mut bytes = Vec::new(alloc);
    push_outcome(alloc, outcome, &mut bytes)?;
    Ok(bytes)
}

fn ran(alloc: Global, program: &Program, from: &Tree) -> Result<Vec<u8>, Fail> {
    let outcome = run(alloc, program, from)?;
    shown(alloc, &outcome)
}

fn ran_one(alloc: Global, programs: &[Program], from: &Tree) -> Result<Vec<u8>, Fail> {
    match programs {
        [program] => ran(alloc, program, from),
        _ => Err("one program".into()),
    }
}

/// How the run of a program in words ends, which is kept in a list, since that takes the prover less.
fn ended_on(alloc: Global, words: &str, from: &Tree) -> Result<Vec<u8>, Fail> {
    let one = programs(alloc, words)?;
    ran_one(alloc, one.as_slice(), from)
}

/// How the run of a program in words ends on a tree.
fn ended(alloc: Global, words: &str, tree: &str) -> Result<Vec<u8>, Fail> {
    let from = tree_from_json(alloc, tree.as_bytes())?;
    ended_on(alloc, words, &from)
}

fn text_of(bytes: &[u8]) -> &str {
    str::from_utf8(bytes).unwrap_or("no text")
}

fn is_ended(alloc: Global, words: &str, tree: &str, want: &str) -> Result<(), Fail> {
    let found = ended(alloc, words, tree)?;
    let row = joined(alloc, &[words, " on ", tree])?;
    same(alloc, row.as_str(), text_of(found.as_slice()), want)
}

/// Each row: a program, a tree, and how the program's run on it ends.
fn are_ended(alloc: Global, rows: &[(&str, &str, &str)]) -> Result<(), Fail> {
    for (words, tree, want) in rows {
        is_ended(alloc, *words, *tree, *want)?;
    }
    Ok(())
}

#[test]
fn folders(rt: HostRuntime) -> Result<(), Fail> {
    are_ended(
        rt.alloc(),
        &[
            ("id", "{}", "{}"),
            ("id", r#"{"/a":null}"#, r#"{"/a":null}"#),
            ("err", "{}", "error"),
            ("mkdir /a", "{}", r#"{"/a":null}"#),
            ("mkdir /a/b", r#"{"/a":null}"#, r#"{"/a":null,"/a/b":null}"#),
            ("mkdir /", "{}", "error"),
            ("mkdir /a", r#"{"/a":null}"#, "error"),
            ("mkdir /a", r#"{"/a":"x"}"#, "error"),
            ("mkdir /a", r#"{"/a":{"link":"/b"}}"#, "error"),
            ("mkdir /a/b", "{}", "error"),
            ("mkdir /a/b", r#"{"/a":"x"}"#, "error"),
            ("mkdir /a/b", r#"{"/a":{"link":"/c"},"/c":null}"#, "error"),
        ],
    )
}

#[test]
fn files_and_links(rt: HostRuntime) -> Result<(), Fail> {
    are_ended(
        rt.alloc(),
        &[
            ("creat /a x", "{}", r#"{"/a":"x"}"#),
            (
                "creat /a/b x",
                r#"{"/a":null}"#,
                r#"{"/a":null,"/a/b":"x"}"#,
            ),
            ("creat / x", "{}", "error"),
            ("creat /a x", r#"{"/a":null}"#, "error"),
            ("creat /a x", r#"{"/a":"x"}"#, "error"),
            ("creat /a x", r#"{"/a":{"link":"x"}}"#, "error"),
            ("creat /a/b x", "{}", "error"),
            ("link /a /b", "{}", r#"{"/a":{"link":"/b"}}"#),
            ("link / /b", "{}", "error"),
            ("link /a /b", r#"{"/a":{"link":"/b"}}"#, "error"),
            ("link /a /b", r#"{"/a":null}"#, "error"),
            ("link /a/b /c", "{}", "error"),
        ],
    )
}

#[test]
fn removals(rt: HostRuntime) -> Result<(), Fail> {
    are_ended(
        rt.alloc(),
        &[
            ("rm /a", r#"{"/a":"x"}"#, "{}"),
            ("rm /a", r#"{"/a":null}"#, "{}"),
            (
                "rm /a",
                r#"{"/a":{"link":"/b"},"/b":null}"#,
                r#"{"/b":null}"#,
            ),
            ("rm /a", r#"{"/a":null,"/a.b":"x"}"#, r#"{"/a.b":"x"}"#),
            ("rm /a", r#"{"/a":null,"/a/b":"x"}"#, "error"),
            ("rm /a", "{}", "error"),
            ("rm /", "{}", "error"),
        ],
    )
}

#[test]
fn copies(rt: HostRuntime) -> Result<(), Fail> {
    are_ended(
        rt.alloc(),
        &[
            ("cp /a /b", r#"{"/a":"x"}"#, r#"{"/a":"x","/b":"x"}"#),
            ("cp /a /b", "{}", "error"),
            ("cp /a /b", r#"{"/a":null}"#, "error"),
            ("cp /a /b", r#"{"/a":{"link":"/c"},"/c":"x"}"#, "error"),
            ("cp /a /b", r#"{"/a":"x","/b":"y"}"#, "error"),
            ("cp /a /a", r#"{"/a":"x"}"#, "error"),
            ("cp /a /b/c", r#"{"/a":"x"}"#, "error"),
            ("cp / /b", "{}", "error"),
            ("cp /a /", r#"{"/a":"x"}"#, "error"),
        ],
    )
}

fn is_held(alloc: Global, asked: &str, tree: &str, want: bool) -> Result<(), Fail> {
    let ends = ended(alloc, asked, tree)?;
    let got = text_of(ends.as_slice()) != "error";
    is_answered(alloc, &[asked, " on ", tree], got, want)
}

fn are_held(alloc: Global, asked: &str, trees: &[(&str, bool)]) -> Result<(), Fail> {
    for (tree, want) in trees {
        is_held(alloc, asked, *tree, *want)?;
    }
    Ok(())
}

/// A question, and whether it holds where nothing, a folder, a file or a link is at /a.
type Question = (&'static str, bool, bool, bool, bool);

fn is_asked(alloc: Global, row: &Question) -> Result<(), Fail> {
    let (words, none, folder, file, link) = *row;
    let asked = joined(alloc, &["if ", words, ": id, err"])?;
    are_held(
        alloc,
        asked.as_str(),
        &[
            ("{}", none),
            (r#"{"/a":null}"#, folder),
            (r#"{"/a":"x"}"#, file),
            (r#"{"/a":{"link":"/a"}}"#, link),
        ],
    )
}

/// Each row: a question and its answers.
fn are_asked(alloc: Global, rows: &[Question]) -> Result<(), Fail> {
    for row in rows {
        is_asked(alloc, row)?;
    }
    Ok(())
}

#[test]
fn questions_at_a_path(rt: HostRuntime) -> Result<(), Fail> {
    are_asked(
        rt.alloc(),
        &[
            ("file? /a", false, false, true, false),
            ("link? /a", false, false, false, true),
            ("dir? /a", false, true, false, false),
            ("emptydir? /a", false, true, false, false),
            ("none? /a", true, false, false, false),
            ("not file? /a", true, true, false, true),
            ("file? /a and none? /b", false, false, true, false),
            ("file? /a and none? /a", false, false, false, false),
            ("file? /a or none? /a", true, false, true, false),
            ("true", true, true, true, true),
            ("false", false, false, false, false),
        ],
    )
}

#[test]
fn questions_at_the_root(rt: HostRuntime) -> Result<(), Fail> {
    are_asked(
        rt.alloc(),
        &[
            ("emptydir? /", true, false, false, false),
            ("dir? /", true, true, true, true),
            ("none? /", false, false, false, false),
            ("file? /", false, false, false, false),
            ("link? /", false, false, false, false),
        ],
    )
}

#[test]
fn sequences(rt: HostRuntime) -> Result<(), Fail> {
    are_ended(
        rt.alloc(),
        &[
            ("mkdir /a; creat /a/b x", "{}", r#"{"/a":null,"/a/b":"x"}"#),
            ("mkdir /a; rm /a", "{}", "{}"),
            ("creat /a x; creat /b y", "{}", r#"{"/a":"x","/b":"y"}"#),
            ("creat /a x; cp /a /b", "{}", r#"{"/a":"x","/b":"x"}"#),
            ("link /a x; cp /a /b", "{}", "error"),
            ("rm /a; creat /a y", r#"{"/a":"x"}"#, r#"{"/a":"y"}"#),
            ("creat /a x; mkdir /b/c", "{}", "error"),
            ("err; mkdir /a", "{}", "error"),
            ("mkdir /a; err", "{}", "error"),
            ("creat /a/b x; rm /a", r#"{"/a":null}"#, "error"),
        ],
    )
}

#[test]
fn choices(rt: HostRuntime) -> Result<(), Fail> {
    are_ended(
        rt.alloc(),
        &[
            ("if none? /a: mkdir /a, mkdir /b", "{}", r#"{"/a":null}"#),
            ("if file? /a: mkdir /c, mkdir /b", "{}", r#"{"/b":null}"#),
            ("if file? /a: rm /a, creat /a y", "{}", r#"{"/a":"y"}"#),
            ("if file? /a: rm /a, creat /a y", r#"{"/a":"x"}"#, "{}"),
            ("if none? /a: creat /a x, creat /a y", "{}", r#"{"/a":"x"}"#),
            ("if false: creat /a x, creat /a y", "{}", r#"{"/a":"y"}"#),
            ("if true: id, err", "{}", "{}"),
            ("if true: err, id", "{}", "error"),
        ],
    )
}

fn replayed_from(
    alloc: Global,
    programs: &[Program],
    order: &[u32],
    from: &Tree,
) -> Result<Vec<u8>, Fail> {
    if !are_below(order, programs.len()) {
        return Ok(Vec::new(alloc));
    }
    let outcome = replay(alloc, programs, order, from)?;
    shown(alloc, &outcome)
}

fn replayed(
    alloc: Global,
    programs: &[Program],
    order: &[u32],
    tree: &str,
) -> Result<Vec<u8>, Fail> {
    let from = tree_from_json(alloc, tree.as_bytes())?;
    replayed_from(alloc, programs, order, &from)
}

fn is_replayed(
    alloc: Global,
    programs: &[Program],
    order: &[u32],
    tree: &str,
    want: &str,
) -> Result<(), Fail> {
    let found = replayed(alloc, programs, order, tree)?;
    same(alloc, tree, text_of(found.as_slice()), want)
}

/// Each row: an order of the programs, the tree that they begin in, and how they end, or nothing where it has other numbers.
fn are_replayed(
    alloc: Global,
    programs: &[Program],
    rows: &[(&[u32], &str, &str)],
) -> Result<(), Fail> {
    for (order, tree, want) in rows {
        is_replayed(alloc, programs, *order, *tree, *want)?;
    }
    Ok(())
}

#[test]
fn orders_of_programs(rt: HostRuntime) -> Result<(), Fail> {
    let programs = programs(rt.alloc(), "mkdir /a | creat /a/b x | cp /a/b /c")?;
    are_replayed(
        rt.alloc(),
        programs.as_slice(),
        &[
            (&[0, 1, 2], "{}", r#"{"/a":null,"/a/b":"x","/c":"x"}"#),
            (&[0, 2, 1], "{}", "error"),
            (&[1, 0, 2], "{}", "error"),
            (&[0, 0, 1], "{}", "error"),
            (&[0, 1, 3], "{}", ""),
            (&[], r#"{"/z":"q"}"#, r#"{"/z":"q"}"#),
        ],
    )
}
