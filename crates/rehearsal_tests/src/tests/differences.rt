//! Manifests whose order matters: what is told of them runs as it is told.

use super::common::{Site, Told, compare_err, compare_status, holds, run_over};
use std::alloc::Global;
use std::test::Fail;
use test_rows::same;

/// A manifest, the listing beside it, and the lines in front of the tree. It is told with and without a number of conflicts.
type Row = (&'static str, &'static str, &'static str);

const SHARED: &str = r#"{"version":1,"packages":{"ntp":{"files":["/etc/ntp.conf"],"folders":[]}}}"#;

const OPT: &str = r#"{"version":1,"packages":{"p":{"files":[],"folders":["/opt/p"]}}}"#;

const TWO: &str =
    r#"{"version":2,"packages":{"a":{"files":[["/opt/x","d1"]],"folders":[]},"b":{"files":[["/opt/x","d2"]],"folders":[]}}}"#;

const PLAIN: &str =
    r#"{"version":1,"packages":{"a":{"files":["/opt/x"],"folders":[]},"b":{"files":["/opt/x"],"folders":[]}}}"#;

/// Packages with files right in /etc and in folders of their own; p makes sure of a folder that q has too; h has that of a home; x and y
/// have one file with one digest, and z has it with another.
pub const USUAL: &str = concat!(
    r#"{"version":2,"packages":{"a":{"files":[["/etc/a.d/a",null]],"folders":[]},"b":{"files":[["/etc/b.d/b",null]],"folders":[]},"#,
    r#""c":{"files":[["/etc/c.d/c",null]],"folders":[]},"p":{"files":[],"folders":["/opt/p"]},"q":{"files":[],"folders":["/opt/p"]},"#,
    r#""h":{"files":[],"folders":["/srv/u"]},"x":{"files":[["/opt/s","d1"]],"folders":[]},"y":{"files":[["/opt/s","d1"]],"folders":[]},"#,
    r#""z":{"files":[["/opt/s","d2"]],"folders":[]}}}"#
);

const ROWS: [Row; 11] = [
    (
        "package { 'ntp': } file { '/etc/ntp.conf': content => 'server a' }",
        SHARED,
        "resources 2\npruned 0\nnot deterministic\n",
    ),
    (
        "package { 'p': ensure => absent } file { '/opt/p/x': ensure => absent }",
        OPT,
        "resources 2\npruned 0\nnot deterministic\n",
    ),
    (
        "package { 'p': ensure => absent } file { '/opt/p/x': ensure => absent } file { ['/q1', '/q2', '/q3', '/q4', '/q5']: content => 'q' }",
        OPT,
        "resources 7\npruned 5\nnot deterministic\n",
    ),
    (
        "package { ['a', 'b']: }",
        TWO,
        "resources 2\npruned 0\nnot deterministic\n",
    ),
    (
        "package { ['a', 'b']: }",
        PLAIN,
        "resources 2\npruned 0\nnot deterministic\n",
    ),
    (
        "file { '/a': content => 'x' } file { '/b': source => '/a' }",
        SHARED,
        "resources 2\npruned 0\nnot deterministic\n",
    ),
    // A file whose own arrow is missing, in a folder of which unordered packages make sure.
    (
        "package { ['a', 'b', 'c']: } file { '/etc/a.conf': content => 'a', require => Package['a'] } file { '/etc/b.conf': content => 'b', require => Package['b'] } file { '/etc/c.conf': content => 'c' }",
        USUAL,
        "resources 6\npruned 0\nnot deterministic\n",
    ),
    // The folder that the package before the file makes sure of is swept by another one.
    (
        "package { ['a', 'b', 'c']: } file { '/etc/a.conf': content => 'a', require => Package['a'] } file { '/etc/b.conf': content => 'b', require => Package['b'] } file { '/etc/c.conf': content => 'c', require => Package['c'] } package { 'p': } package { 'q': ensure => absent, require => Package['p'] } file { '/opt/p/x': content => 'x', require => Package['p'] }",
        USUAL,
        "resources 9\npruned 1\nnot deterministic\n",
    ),
    // The home is made only where the user is new.
    (
        "package { ['a', 'b', 'c']: } file { '/etc/a.conf': content => 'a', require => Package['a'] } file { '/etc/b.conf': content => 'b', require => Package['b'] } file { '/etc/c.conf': content => 'c', require => Package['c'] } user { 'u': managehome => true, home => '/srv/u' } package { 'h': } file { '/srv/u/x': content => 'x', require => User['u'] }",
        USUAL,
        "resources 9\npruned 1\nnot deterministic\n",
    ),
    // Packages with one file, of which one has another content.
    (
        "package { ['a', 'b', 'c']: } file { '/etc/a.conf': content => 'a', require => Package['a'] } file { '/etc/b.conf': content => 'b', require => Package['b'] } file { '/etc/c.conf': content => 'c', require => Package['c'] } package { ['x', 'y', 'z']: }",
        USUAL,
        "resources 9\npruned 0\nnot deterministic\n",
    ),
    // What is kept ends apart from a tree in which what is pruned fails; where its folder stands the whole graph does.
    (
        "package { ['x', 'z']: } file { '/srv/a': content => 'a' }",
        USUAL,
        "resources 3\npruned 1\nnot deterministic\n",
    ),
];

/// What stands behind a word on the first line, and the lines behind it.
pub fn behind<'a>(lines: &'a str, word: &str) -> (&'a str, &'a str) {
    let rest = lines.strip_prefix(word).unwrap_or("?");
    rest.split_once('\n').unwrap_or(("?", ""))
}

const REPLAY: &[&str] = &[
    "--ask",
    "replay",
    "--packages",
    "listing",
    "--tree",
    "tree",
    "--order",
    "order",
    "site.pp",
];

/// What is told of an order over a tree.
fn replayed<'x>(
    alloc: Global,
    site: Site<'x>,
    tree: &'x str,
    order: &'x str,
) -> Result<Told, Fail> {
    let over: [(&'x str, &'x [u8]); 4] = [
        ("site.pp", site.0.as_bytes()),
        ("listing", site.1.as_bytes()),
        ("tree", tree.as_bytes()),
        ("order", order.as_bytes()),
    ];
    run_over(alloc, REPLAY, &over)
}

/// What was told is this outcome alone.
fn ends_so(alloc: Global, told: &Told, outcome: &str, row: &str) -> Result<(), Fail> {
    compare_status(alloc, told, 0, row)?;
    let (ran, rest) = behind(told.out.as_str(), "outcome ");
    same(alloc, row, ran, outcome)?;
    same(alloc, row, rest, "")
}

/// Replays an order over the tree that was told, and compares the outcomes.
pub fn replays<'x>(
    alloc: Global,
    site: Site<'x>,
    tree: &'x str,
    order: &'x str,
    outcome: &str,
) -> Result<(), Fail> {
    let told = replayed(alloc, site, tree, order)?;
    ends_so(alloc, &told, outcome, site.0)
}

/// Whether two texts of orders differ at two places, and these are neighbours.
fn are_exchanged(left: &str, right: &str) -> bool {
    let mut places = 0u32;
    let mut pairs = 0u32;
    let mut is_behind = false;
    for (a, b) in left.split(',').zip(right.split(',')) {
        let differs = a != b;
        if differs {
            places = places.saturating_add(1);
        }
        if differs && is_behind {
            pairs = pairs.saturating_add(1);
        }
        is_behind = differs;
    }
    places == 2 && pairs == 1
}

/// What is told of a manifest beside its listing.
fn told_of(alloc: Global, row: &Row, words: &[&str]) -> Result<Told, Fail> {
    let over: [(&str, &[u8]); 2] = [("site.pp", row.0.as_bytes()), ("listing", row.1.as_bytes())];
    run_over(alloc, words, &over)
}

/// An order, its outcome, and the lines behind them.
fn next_run<'a>(lines: &'a str) -> (&'a str, &'a str, &'a str) {
    let (order, rest) = behind(lines, "order ");
    let (outcome, rest) = behind(rest, "outcome ");
    (order, outcome, rest)
}

/// Two runs, each an order and its outcome: the orders differ by one exchange, and the outcomes differ.
fn are_apart(
    alloc: Global,
    left: (&str, &str),
    right: (&str, &str),
    manifest: &str,
) -> Result<(), Fail> {
    holds(
        alloc,
        &["one exchange, ", manifest],
        are_exchanged(left.0, right.0),
    )?;
    holds(alloc, &["other outcomes, ", manifest], left.1 != right.1)
}

/// Both runs of a row end so on the tree.
fn both_replay(
    alloc: Global,
    row: &Row,
    tree: &str,
    left: (&str, &str),
    right: (&str, &str),
) -> Result<(), Fail> {
    replays(alloc, (row.0, row.1), tree, left.0, left.1)?;
    replays(alloc, (row.0, row.1), tree, right.0, right.1)
}

/// Both outcomes that these lines tell differ, and are those of the orders on the tree; and the orders differ by one exchange.
fn runs_differ(alloc: Global, row: &Row, lines: &str) -> Result<(), Fail> {
    let (tree, rest) = behind(lines, "tree ");
    let (left, first, rest) = next_run(rest);
    let (right, second, rest) = next_run(rest);
    same(alloc, row.0, rest, "")?;
    are_apart(alloc, (left, first), (right, second), row.0)?;
    both_replay(alloc, row, tree, (left, first), (right, second))
}

/// The lines of a row were told in front of two runs that differ.
fn tells_runs(alloc: Global, row: &Row, told: &Told) -> Result<(), Fail> {
    compare_status(alloc, told, 1, row.0)?;
    compare_err(alloc, told, "", row.0)?;
    let rest = told.out.as_str().strip_prefix(row.2).unwrap_or("?");
    runs_differ(alloc, row, rest)
}

/// A row is told with two runs that differ.
fn differs(alloc: Global, row: &Row, words: &[&str]) -> Result<(), Fail> {
    let told = told_of(alloc, row, words)?;
    tells_runs(alloc, row, &told)
}

/// Each row is told with two runs that differ.
fn all_differ(alloc: Global, words: &[&str], rows: &[Row]) -> Result<(), Fail> {
    for row in rows {
        differs(alloc, row, words)?;
    }
    Ok(())
}

#[test]
fn orders_that_matter(rt: HostRuntime) -> Result<(), Fail> {
    all_differ(rt.alloc(), &["--packages", "listing", "site.pp"], &ROWS)
}

#[test]
fn orders_that_matter_within_conflicts(rt: HostRuntime) -> Result<(), Fail> {
    all_differ(
        rt.alloc(),
        &["--packages", "listing", "--conflicts", "1000000", "site.pp"],
        &ROWS,
    )
}
