//! Manifests of which a second run changes something: what is told of them runs as it is told.

use super::common::{Told, compare_err, compare_status, holds, run_over};
use super::differences::{behind, replays};
use std::alloc::Global;
use std::test::Fail;
use test_rows::same;

/// A manifest, the listing beside it, and the lines in front of the tree.
type Row = (&'static str, &'static str, &'static str);

const NONE: &str = r#"{"version":1,"packages":{}}"#;

const DIGESTS: &str =
    r#"{"version":2,"packages":{"p":{"files":[["/opt/x","d"]],"folders":["/opt"]}}}"#;

const ROWS: [Row; 2] = [
    (
        "file { '/dst': source => '/src' } -> file { '/src': ensure => absent }",
        NONE,
        "resources 2\npruned 2\ndeterministic\nnot idempotent\n",
    ),
    (
        "file { '/src': ensure => absent } <- file { '/dst': source => '/src' } -> package { 'p': }",
        DIGESTS,
        "resources 3\npruned 3\ndeterministic\nnot idempotent\n",
    ),
];

/// What is told of a manifest beside its listing.
fn told_of(alloc: Global, row: &Row) -> Result<Told, Fail> {
    let over: [(&str, &[u8]); 2] = [("site.pp", row.0.as_bytes()), ("listing", row.1.as_bytes())];
    run_over(alloc, &["--packages", "listing", "site.pp"], &over)
}

/// What is told of a second run: a tree, an order, what the first run and the second end with, and the lines behind these.
#[derive(Drop)]
pub struct Runs<'a> {
    pub tree: &'a str,
    pub order: &'a str,
    pub first: &'a str,
    pub second: &'a str,
    pub rest: &'a str,
}

pub fn read_runs(lines: &str) -> Runs {
    let (tree, rest) = behind(lines, "tree ");
    let (order, rest) = behind(rest, "order ");
    let (first, rest) = behind(rest, "outcome ");
    let (second, rest) = behind(rest, "outcome ");
    Runs {
        tree,
        order,
        first,
        second,
        rest,
    }
}

/// The second outcome differs from the first, and a run that succeeds is told behind both.
fn differ(alloc: Global, runs: &Runs, manifest: &str) -> Result<(), Fail> {
    same(alloc, manifest, runs.rest, "succeeds from some tree\n")?;
    holds(alloc, &[manifest], runs.first != runs.second)
}

/// Both outcomes are those of the order, the second from the first.
fn both_replay(alloc: Global, row: &Row, runs: &Runs) -> Result<(), Fail> {
    replays(alloc, (row.0, row.1), runs.tree, runs.order, runs.first)?;
    replays(alloc, (row.0, row.1), runs.first, runs.order, runs.second)
}

/// The second outcome differs from the first, and both are those of the order.
fn runs_differ(alloc: Global, row: &Row, runs: &Runs) -> Result<(), Fail> {
    differ(alloc, runs, row.0)?;
    both_replay(alloc, row, runs)
}

/// Runs that differ were told on out alone, with the status of what a second run changes.
fn tells_runs(alloc: Global, row: &Row, told: &Told) -> Result<(), Fail> {
    compare_status(alloc, told, 2, row.0)?;
    compare_err(alloc, told, "", row.0)?;
    let runs = read_runs(told.out.as_str().strip_prefix(row.2).unwrap_or("?"));
    runs_differ(alloc, row, &runs)
}

fn changes(alloc: Global, row: &Row) -> Result<(), Fail> {
    let told = told_of(alloc, row)?;
    tells_runs(alloc, row, &told)
}

fn all_change(alloc: Global, rows: &[Row]) -> Result<(), Fail> {
    for row in rows {
        changes(alloc, row)?;
    }
    Ok(())
}

#[test]
fn second_runs_that_change_something(rt: HostRuntime) -> Result<(), Fail> {
    all_change(rt.alloc(), &ROWS)
}
