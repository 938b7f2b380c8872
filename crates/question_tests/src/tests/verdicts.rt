//! Verdicts on programs, and programs that are too large for one.

use super::asked::everywhere;
use super::judging::refused;
use super::programs::{all_again, one_in_turn, ordered, plan_of, unordered};
use fs_lang::Program;
use given_verdict::judge_from;
use orders::Order;
use rh_base::{Boxed, Fault, NoMemory};
use std::alloc::Global;
use std::test::Fail;
use test_programs::programs;
use test_rows::{numbered, same};
use verdict::{Ends, Second, Verdict};

/// What is judged, behind how many pairs were pruned.
fn judged(second: &Second, ends: &Ends) -> &'static str {
    match (second, ends) {
        (Second::Same(_), Ends::From(_)) => " pruned, idempotent, succeeds",
        (Second::Same(_), Ends::Never(_)) => " pruned, idempotent, fails",
        (Second::Differs(_), Ends::From(_)) => " pruned, not idempotent, succeeds",
        (Second::Differs(_), Ends::Never(_)) => " pruned, not idempotent, fails",
    }
}

fn behind_of(verdict: &Verdict) -> &'static str {
    match verdict {
        Verdict::NotDeterministic { .. } => " pruned, not deterministic",
        Verdict::Judged { second, ends, .. } => judged(second, ends),
        Verdict::Spent { .. } => " pruned, spent",
    }
}

fn pruned_of(verdict: &Verdict) -> u32 {
    match verdict {
        Verdict::NotDeterministic { pruned, .. } => *pruned,
        Verdict::Judged { pruned, .. } => *pruned,
        Verdict::Spent { pruned, .. } => *pruned,
    }
}

fn shown(alloc: Global, found: &Result<Verdict, Fault>) -> Result<String, NoMemory> {
    match found {
        Ok(verdict) => numbered(alloc, "", pruned_of(verdict) as u64, behind_of(verdict)),
        Err(fault) => refused(alloc, fault),
    }
}

/// What is judged of programs in this order.
fn told_by(alloc: Global, programs: &[Program], order: &Order) -> Result<String, Fail> {
    let plan = plan_of(programs, order)?;
    let terms = everywhere(alloc, u64::MAX);
    let answer = Boxed::new(alloc, judge_from(alloc, &plan, &terms))?;
    Ok(shown(alloc, answer.get())?)
}

/// What is judged of programs without an order between them.
fn told(alloc: Global, programs: &[Program]) -> Result<String, Fail> {
    let order = unordered(alloc, programs)?;
    told_by(alloc, programs, &order)
}

fn is_judged(alloc: Global, row: &str, programs: &[Program], want: &str) -> Result<(), Fail> {
    let answer = told(alloc, programs)?;
    same(alloc, row, answer.as_str(), want)
}

fn is_judged_again(alloc: Global, row: &str, n: u32, times: u32, want: &str) -> Result<(), Fail> {
    let all = all_again(alloc, n, times)?;
    is_judged(alloc, row, all.as_slice(), want)
}

/// Each row: a name, how many programs, how many times each makes a folder of its own, and what is judged.
fn are_judged_again(alloc: Global, rows: &[(&str, u32, u32, &str)]) -> Result<(), Fail> {
    for (row, n, times, want) in rows {
        is_judged_again(alloc, *row, *n, *times, *want)?;
    }
    Ok(())
}

#[test]
fn folders_that_are_made_again(rt: HostRuntime) -> Result<(), Fail> {
    are_judged_again(
        rt.alloc(),
        &[
            (
                "many programs",
                100u32,
                35u32,
                "100 pruned, idempotent, fails",
            ),
            ("heavy programs", 3, 38_889, "70 weight"),
            // a second run fails where the first one ends in a tree
            ("two programs", 2, 1, "2 pruned, not idempotent, succeeds"),
        ],
    )
}

#[test]
fn too_many_paths(rt: HostRuntime) -> Result<(), Fail> {
    let all = one_in_turn(rt.alloc(), 4_097)?;
    is_judged(rt.alloc(), "4097 folders", all.as_slice(), "70 domain")
}

fn told_in(alloc: Global, programs: &[Program], edges: &[(u32, u32)]) -> Result<String, Fail> {
    let order = ordered(alloc, programs, edges)?;
    told_by(alloc, programs, &order)
}

/// What is judged of programs in words, in the order that edges make.
fn told_of(alloc: Global, words: &str, edges: &[(u32, u32)]) -> Result<String, Fail> {
    let all = programs(alloc, words)?;
    told_in(alloc, all.as_slice(), edges)
}

fn is_told(alloc: Global, words: &str, edges: &[(u32, u32)], want: &str) -> Result<(), Fail> {
    let answer = told_of(alloc, words, edges)?;
    same(alloc, words, answer.as_str(), want)
}

/// Each row: programs, and what is judged of them in the order that edges make.
fn are_told(alloc: Global, edges: &[(u32, u32)], rows: &[(&str, &str)]) -> Result<(), Fail> {
    for (words, want) in rows {
        is_told(alloc, *words, edges, *want)?;
    }
    Ok(())
}

const SAME: &str = "4 pruned, idempotent, succeeds";

const CHANGES: &str = "4 pruned, not idempotent, succeeds";

/// A folder with a file, and two files elsewhere: no two of them touch, since the folder surely stands before its file is put.
#[test]
fn second_runs_of_groups(rt: HostRuntime) -> Result<(), Fail> {
    are_told(
        rt.alloc(),
        &[(0, 1)],
        &[
            ("dir /c | put /c/f x | put /a x | put /b x", SAME),
            // made again, where a file is
            ("dir /c | put /c/f x | put /a x | creat /b x", CHANGES),
            ("dir /c | creat /c/f x | put /a x | put /b x", CHANGES),
        ],
    )
}

/// Each of these settles by itself, but the second run of one sees what the first run of another left.
#[test]
fn second_runs_of_programs_that_touch(rt: HostRuntime) -> Result<(), Fail> {
    are_told(
        rt.alloc(),
        &[(0, 1)],
        &[
            ("if file? /a: put /b x, id | put /a y | id | id", CHANGES),
            ("put /a y | if file? /a: put /b x, id | id | id", SAME),
            // by a folder that one of them removes
            ("if dir? /d: id, put /g x | sweep /d | id | id", CHANGES),
        ],
    )
}

/// The order leads from one group to another and back, or a folder is made before it is looked at and removed.
#[test]
fn second_runs_in_a_row(rt: HostRuntime) -> Result<(), Fail> {
    are_told(
        rt.alloc(),
        &[(0, 1), (1, 2), (2, 3)],
        &[
            (
                "put /a x | put /c x | if file? /c: put /e x, id | if file? /a: put /b x, id",
                SAME,
            ),
            (
                "if file? /a: put /b x, id | put /c x | if file? /c: put /e x, id | put /a x",
                CHANGES,
            ),
            ("dir /d | if dir? /d: id, put /g x | sweep /d | id", SAME),
            ("id | if dir? /d: id, put /g x | sweep /d | id", CHANGES),
        ],
    )
}
