//! Proofs that are printed: the program reads them back, and finds them right.

use super::common::{Told, compare, compare_err, compare_status, holds, run};
use std::alloc::Global;
use std::test::Fail;
use test_rows::{number_text, numbered, same};

/// The words, the manifest, the status, how many questions were refuted, and more variables than this has each formula.
type Row = (&'static [&'static str], &'static str, u8, u32, u64);

const ROWS: [Row; 5] = [
    (&["--ask", "proof", "--workload", "2"], "", 0, 2, 100),
    (
        &["--ask", "proof", "site.pp"],
        "file { '/etc/motd': content => 'hi' }",
        0,
        1,
        10,
    ),
    (
        &["--ask", "proof", "site.pp"],
        "file { '/a': ensure => file } file { '/a/b': ensure => file }",
        0,
        2,
        10,
    ),
    (
        &["--ask", "proof", "site.pp"],
        "file { '/a': content => 'x' } file { '/b': source => '/a' }",
        1,
        0,
        0,
    ),
    (
        &["--ask", "proof", "site.pp"],
        "file { '/dst': source => '/src' } -> file { '/src': ensure => absent }",
        2,
        0,
        0,
    ),
];

/// The number of variables, on the first line of a formula.
fn variables(line: &str) -> Option<u64> {
    let rest = line.strip_prefix("p cnf ")?;
    let (count, _) = rest.split_once(' ')?;
    count.parse::<u64>().ok()
}

/// So many proofs are told of, on the first line.
fn has_proofs(alloc: Global, text: &str, proofs: u32) -> Result<(), Fail> {
    let (first, _) = text.split_once('\n').unwrap_or((text, ""));
    let count = number_text(alloc, proofs as u64)?;
    same(
        alloc,
        first,
        first.strip_prefix("proofs ").unwrap_or("?"),
        count.as_str(),
    )
}

/// A line of a formula is of more variables than this, or tells no number of them.
fn is_large(alloc: Global, line: &str, least: u64) -> Result<(), Fail> {
    match variables(line) {
        Some(count) => holds(alloc, &[line], count > least),
        None => Ok(()),
    }
}

/// Each formula has more variables than this.
fn has_variables(alloc: Global, text: &str, least: u64) -> Result<(), Fail> {
    for line in text.split('\n') {
        is_large(alloc, line, least)?;
    }
    Ok(())
}

/// So many proofs are told of, whose formulas are as large, with this status.
fn has_formulas(alloc: Global, told: &Told, row: &Row) -> Result<(), Fail> {
    compare_status(alloc, told, row.2, row.1)?;
    compare_err(alloc, told, "", row.1)?;
    has_proofs(alloc, told.out.as_str(), row.3)?;
    has_variables(alloc, told.out.as_str(), row.4)
}

/// So many proofs were read, and found right.
fn are_found_right(alloc: Global, checked: &Told, row: &Row) -> Result<(), Fail> {
    let line = numbered(alloc, "verified ", row.3 as u64, "\n")?;
    compare(alloc, checked, 0, line.as_str(), "", row.1)
}

/// The program reads so many proofs in a text, and finds them right.
fn are_right(alloc: Global, text: &str, row: &Row) -> Result<(), Fail> {
    let checked = run(alloc, &["--ask", "check", "site.pp"], text.as_bytes())?;
    are_found_right(alloc, &checked, row)
}

fn has_right_formulas(alloc: Global, told: &Told, row: &Row) -> Result<(), Fail> {
    has_formulas(alloc, told, row)?;
    are_right(alloc, told.out.as_str(), row)
}

fn is_verified(alloc: Global, row: &Row) -> Result<(), Fail> {
    let told = run(alloc, row.0, row.1.as_bytes())?;
    has_right_formulas(alloc, &told, row)
}

fn all_verified(alloc: Global, rows: &[Row]) -> Result<(), Fail> {
    for row in rows {
        is_verified(alloc, row)?;
    }
    Ok(())
}

#[test]
fn proofs_that_are_read_back(rt: HostRuntime) -> Result<(), Fail> {
    all_verified(rt.alloc(), &ROWS)
}
