//! Programs that write at one path: whether any two commute, and whether those that don't ever meet.

use super::judging::{told, told_of};
use fs_lang::{PathFault, Program};
use rh_base::Seq;
use std::alloc::Global;
use std::test::Fail;
use test_programs::program;
use test_rows::{joined, same, same_of};

/// Makes a file at /d0 with this content, unless something is there.
fn put(alloc: Global, letter: &str) -> Result<Program, PathFault> {
    let words = joined(alloc, &["if none? /d0: creat /d0 ", letter, ", id"])?;
    program(alloc, words.as_str())
}

fn push_put(alloc: Global, letter: &str, into: &mut Seq<Program>) -> Result<(), PathFault> {
    into.push(put(alloc, letter)?)?;
    Ok(())
}

/// One such program for each content.
fn all_put(alloc: Global, letters: &[&str]) -> Result<Seq<Program>, PathFault> {
    let mut all = Seq::new(alloc);
    for letter in letters {
        push_put(alloc, *letter, &mut all)?;
    }
    Ok(all)
}

fn told_of_put(alloc: Global, letters: &[&str]) -> Result<String, Fail> {
    let all = all_put(alloc, letters)?;
    told(alloc, all.as_slice())
}

fn is_put(alloc: Global, letters: &[&str], want: &str) -> Result<(), Fail> {
    let answer = told_of_put(alloc, letters)?;
    same_of(alloc, letters, answer.as_str(), want)
}

/// Each row: the contents of files at /d0, and what is answered of their programs.
fn are_put(alloc: Global, rows: &[(&[&str], &str)]) -> Result<(), Fail> {
    for (letters, want) in rows {
        is_put(alloc, *letters, *want)?;
    }
    Ok(())
}

#[test]
fn files_that_are_put_once(rt: HostRuntime) -> Result<(), Fail> {
    are_put(
        rt.alloc(),
        &[
            (&["a", "a"], "proved, 0 pruned"),
            (&["a", "b"], "differs, 0 pruned"),
            (&["a", "a", "a", "a"], "proved, 0 pruned"),
            (&["a", "a", "a", "b"], "differs, 0 pruned"),
        ],
    )
}

/// One removes /d1, and two put different files at /d0 where something is at /d1.
const THREE: &str = "rm /d1 \
    | if none? /d1: id, if none? /d0: creat /d0 a, id \
    | if none? /d1: id, if none? /d0: creat /d0 b, id";

/// What is answered of these three in the order that edges make.
fn is_told_of_three(
    alloc: Global,
    row: &str,
    edges: &[(u32, u32)],
    want: &str,
) -> Result<(), Fail> {
    let answer = told_of(alloc, THREE, edges)?;
    same(alloc, row, answer.as_str(), want)
}

/// Each row: how the three are ordered, edges between them, and what is answered.
fn are_told_of_three(alloc: Global, rows: &[(&str, &[(u32, u32)], &str)]) -> Result<(), Fail> {
    for (row, edges, want) in rows {
        is_told_of_three(alloc, *row, *edges, *want)?;
    }
    Ok(())
}

#[test]
fn files_that_are_put_in_some_orders(rt: HostRuntime) -> Result<(), Fail> {
    are_told_of_three(
        rt.alloc(),
        &[
            ("no arrow", &[], "differs, 0 pruned"),
            ("one put behind", &[(0, 1)], "differs, 0 pruned"),
            ("both put ahead", &[(1, 0), (2, 0)], "differs, 1 pruned"),
        ],
    )
}

#[test]
fn files_that_are_never_put(rt: HostRuntime) -> Result<(), Fail> {
    is_told_of_three(
        rt.alloc(),
        "both put behind",
        &[(0, 1), (0, 2)],
        "proved, 1 pruned",
    )
}
