//! Two graphs each, with whether they do the same.

use super::asked::everywhere;
use super::judging::refused;
use super::programs::{ordered, plan_of};
use determinism::First;
use equal_graphs::Compared;
use fs_lang::Program;
use given_equal::compare_from;
use orders::Order;
use rh_base::{Boxed, Fault, NoMemory};
use std::alloc::Global;
use std::test::Fail;
use test_programs::programs;
use test_rows::{joined, same_of};

fn unsure(first: &First, left: bool) -> &'static str {
    match (left, first) {
        (true, First::Differs { .. }) => "left not deterministic",
        (true, First::Spent { .. }) => "left spent",
        (false, First::Differs { .. }) => "right not deterministic",
        (false, First::Spent { .. }) => "right spent",
        (_, First::Sure { .. }) => "sure",
    }
}

fn answered(compared: &Compared) -> &'static str {
    match compared {
        Compared::Left(first) => unsure(first, true),
        Compared::Right { right, .. } => unsure(right, false),
        Compared::Equal { .. } => "equal",
        Compared::Differ { .. } => "not equal",
        Compared::Spent { .. } => "spent equal",
    }
}

fn shown(alloc: Global, compared: &Result<Compared, Fault>) -> Result<String, NoMemory> {
    match compared {
        Ok(compared) => joined(alloc, &[answered(compared)]),
        Err(fault) => refused(alloc, fault),
    }
}

/// What is answered of these graphs.
fn told(
    alloc: Global,
    left: &[Program],
    order: &Order,
    right: &[Program],
    other: &Order,
) -> Result<String, Fail> {
    let one = plan_of(left, order)?;
    let second = plan_of(right, other)?;
    let terms = everywhere(alloc, u64::MAX);
    let answer = Boxed::new(alloc, compare_from(alloc, &one, &second, &terms))?;
    Ok(shown(alloc, answer.get())?)
}

/// The same, where edges order the programs of the right one.
fn told_right(
    alloc: Global,
    left: &[Program],
    order: &Order,
    right: &[Program],
    edges: &[(u32, u32)],
) -> Result<String, Fail> {
    let other = ordered(alloc, right, edges)?;
    told(alloc, left, order, right, &other)
}

/// The same, with the programs of the right one in words.
fn told_beside(
    alloc: Global,
    left: &[Program],
    order: &Order,
    others: &str,
    edges: &[(u32, u32)],
) -> Result<String, Fail> {
    let right = programs(alloc, others)?;
    told_right(alloc, left, order, right.as_slice(), edges)
}

/// The same, where the same edges order the programs of the left one.
fn told_left(
    alloc: Global,
    left: &[Program],
    others: &str,
    edges: &[(u32, u32)],
) -> Result<String, Fail> {
    let order = ordered(alloc, left, edges)?;
    told_beside(alloc, left, &order, others, edges)
}

/// The same of programs in words on either side.
fn told_of(alloc: Global, words: &str, others: &str, edges: &[(u32, u32)]) -> Result<String, Fail> {
    let left = programs(alloc, words)?;
    told_left(alloc, left.as_slice(), others, edges)
}

fn is_told(
    alloc: Global,
    words: &str,
    others: &str,
    edges: &[(u32, u32)],
    want: &str,
) -> Result<(), Fail> {
    let answer = told_of(alloc, words, others, edges)?;
    same_of(alloc, &[words, " and ", others], answer.as_str(), want)
}

/// Each row: the programs of two graphs that have these edges, and what is answered.
fn are_told(alloc: Global, edges: &[(u32, u32)], rows: &[(&str, &str, &str)]) -> Result<(), Fail> {
    for (words, others, want) in rows {
        is_told(alloc, *words, *others, edges, *want)?;
    }
    Ok(())
}

#[test]
fn graphs_without_arrows(rt: HostRuntime) -> Result<(), Fail> {
    are_told(
        rt.alloc(),
        &[],
        &[
            ("", "", "equal"),
            ("", "id", "equal"),
            ("put /a x", "put /a x", "equal"),
            ("put /a x", "put /a y", "not equal"),
            ("put /a x", "put /b x", "not equal"),
            ("put /a x", "put /a x | put /b x", "not equal"),
            ("put /a x | put /b x", "put /b x | put /a x", "equal"),
            // one program in the place of two
            (
                "put /a x | dir /b",
                "if none? /b: mkdir /b, id | put /a x",
                "not equal",
            ),
            // the outcomes are compared, not the programs: a folder is made anew where none is
            (
                "if dir? /b: id, mkdir /b",
                "if none? /b: mkdir /b, if dir? /b: id, err",
                "equal",
            ),
            // the same from the empty tree alone
            ("if file? /a: id, creat /a ", "put /a ", "not equal"),
            ("id", "if file? /a: rm /a, id", "not equal"),
            // both end in Error from every tree, whatever they changed before
            ("mkdir /b; mkdir /b", "err", "equal"),
            ("err", "id", "not equal"),
            (
                "if file? /a: err, id",
                "if file? /a: err, creat /b x; rm /b",
                "not equal",
            ),
            // one of the two, or both, without an arrow that matters
            ("put /a x | drop /a", "id", "left not deterministic"),
            ("id", "put /a x | drop /a", "right not deterministic"),
        ],
    )
}

/// Two programs on either side, the first of which comes before the second.
#[test]
fn graphs_of_two(rt: HostRuntime) -> Result<(), Fail> {
    are_told(
        rt.alloc(),
        &[(0, 1)],
        &[
            ("put /a x | drop /a", "drop /a | put /a x", "not equal"),
            ("dir /a | dir /b", "dir /b | dir /a", "equal"),
            ("dir /a | put /a/b x", "dir /a | put /a/b x", "equal"),
            ("dir /a | put /a/b x", "dir /a | put /a/b y", "not equal"),
        ],
    )
}
