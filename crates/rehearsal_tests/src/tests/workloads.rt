//! Workloads.

use super::common::{Told, compare_err, compare_status, holds, run_over};
use std::alloc::Global;
use std::test::Fail;
use test_rows::same;

fn told_of(alloc: Global, words: &[&str]) -> Result<Told, Fail> {
    run_over(alloc, words, &[])
}

/// Behind these first lines was told that all is well.
pub fn tells_well(alloc: Global, told: &Told, head: &str) -> Result<(), Fail> {
    let rest = told.out.as_str().strip_prefix(head).unwrap_or("?");
    same(
        alloc,
        head,
        rest,
        "deterministic\nidempotent\nsucceeds from some tree\n",
    )?;
    compare_err(alloc, told, "", head)?;
    compare_status(alloc, told, 0, head)
}

fn is_well(alloc: Global, words: &[&str], head: &str) -> Result<(), Fail> {
    let told = told_of(alloc, words)?;
    tells_well(alloc, &told, head)
}

/// Each row: words, how many resources they give and how many of these are pruned, and all is well.
fn all_well(alloc: Global, rows: &[(&[&str], &str)]) -> Result<(), Fail> {
    for (words, head) in rows {
        is_well(alloc, *words, *head)?;
    }
    Ok(())
}

#[test]
fn small_workloads(rt: HostRuntime) -> Result<(), Fail> {
    all_well(
        rt.alloc(),
        &[
            (&["--workload", "1"], "resources 7\npruned 3\n"),
            (&["--workload", "5"], "resources 19\npruned 15\n"),
            (
                &["--conflicts", "1000000", "--workload=5"],
                "resources 19\npruned 15\n",
            ),
            (
                &["--ask", "explain", "--workload", "5"],
                "resources 19\npruned 15\n",
            ),
        ],
    )
}

#[test]
fn a_workload_of_forty(rt: HostRuntime) -> Result<(), Fail> {
    all_well(
        rt.alloc(),
        &[(&["--workload", "40"], "resources 124\npruned 120\n")],
    )
}

#[test]
fn a_workload_of_forty_with_conflicts(rt: HostRuntime) -> Result<(), Fail> {
    all_well(
        rt.alloc(),
        &[(
            &["--conflicts", "1000000", "--workload", "40"],
            "resources 124\npruned 120\n",
        )],
    )
}

#[test]
fn the_largest_workload(rt: HostRuntime) -> Result<(), Fail> {
    all_well(
        rt.alloc(),
        &[(&["--workload", "54"], "resources 166\npruned 162\n")],
    )
}

#[test]
fn the_largest_workload_with_conflicts(rt: HostRuntime) -> Result<(), Fail> {
    all_well(
        rt.alloc(),
        &[(
            &["--conflicts", "1000000", "--workload", "54"],
            "resources 166\npruned 162\n",
        )],
    )
}

/// The lines that may stand in front of the one that tells which conflicts are spent.
const AHEAD: [&str; 3] = [
    "spent deterministic 1\n",
    "deterministic\nspent idempotent 1\n",
    "deterministic\nidempotent\nspent succeeds 1\n",
];

/// The conflicts are spent, and that is told, or they were enough.
fn is_spent_or_well(alloc: Global, status: u8, rest: &str) -> Result<(), Fail> {
    let is_spent = status == 3 && AHEAD.contains(&rest);
    holds(alloc, &[rest], is_spent || status == 0)
}

/// Behind these first lines was told, on out alone, what a conflict was enough for.
fn tells_spent(alloc: Global, told: &Told, head: &str) -> Result<(), Fail> {
    let rest = told.out.as_str().strip_prefix(head).unwrap_or("?");
    is_spent_or_well(alloc, told.status, rest)?;
    compare_err(alloc, told, "", head)
}

fn is_spent(alloc: Global, words: &[&str], head: &str) -> Result<(), Fail> {
    let told = told_of(alloc, words)?;
    tells_spent(alloc, &told, head)
}

#[test]
fn one_conflict(rt: HostRuntime) -> Result<(), Fail> {
    is_spent(
        rt.alloc(),
        &["--workload", "5", "--conflicts", "1"],
        "resources 19\npruned 15\n",
    )
}
