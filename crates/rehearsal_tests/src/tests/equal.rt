//! Two manifests each: whether they do the same.

use super::common::{Told, compare, compare_err, compare_status, compare_told, holds, run_over};
use super::differences::{behind, replays};
use std::alloc::Global;
use std::test::Fail;
use test_rows::same;

const LISTING: &str =
    r#"{"version":2,"packages":{"ntp":{"files":[["/etc/ntp.conf",null],["/usr/sbin/ntpd","d1"]],"folders":[]},"pair":{"files":[["/opt/x","d1"]],"folders":[]},"twin":{"files":[["/opt/x","d2"]],"folders":[]}}}"#;

/// Values for a parameter of a class.
const DATA: &str = r#"{"levels":[{"when":{},"values":{"c::text":"x"}}]}"#;

const ASKED: &[&str] = &[
    "--ask",
    "equal",
    "--packages",
    "listing",
    "--data",
    "data",
    "--facts",
    "facts",
    "--other",
    "old.pp",
    "site.pp",
];

const WITHIN: &[&str] = &[
    "--ask",
    "equal",
    "--packages",
    "listing",
    "--conflicts",
    "1",
    "--other",
    "old.pp",
    "site.pp",
];

/// The words, over an input and another manifest.
fn asked<'a>(
    alloc: Global,
    words: &[&str],
    manifest: &'a str,
    other: &'a str,
) -> Result<Told, Fail> {
    let over: [(&str, &[u8]); 5] = [
        ("site.pp", manifest.as_bytes()),
        ("old.pp", other.as_bytes()),
        ("listing", LISTING.as_bytes()),
        ("data", DATA.as_bytes()),
        ("facts", br#"{"word":"x"}"#),
    ];
    run_over(alloc, words, &over)
}

/// This is told of an input and another manifest.
fn is_told(
    alloc: Global,
    words: &[&str],
    status: u8,
    sides: (&str, &str),
    want: &str,
) -> Result<(), Fail> {
    let told = asked(alloc, words, sides.0, sides.1)?;
    compare_told(alloc, &told, status, want, sides.1)
}

/// Each row: an input and another manifest, and what is told of them with this status.
fn all_told(
    alloc: Global,
    words: &[&str],
    status: u8,
    rows: &[(&str, &str, &str)],
) -> Result<(), Fail> {
    for (manifest, other, want) in rows {
        is_told(alloc, words, status, (*manifest, *other), *want)?;
    }
    Ok(())
}

const X: &str = "file { '/a': content => 'x' }";

/// What is told of manifests that do the same, where either has no resource, one or two.
const SAME_NONE: &str =
    "resources 0\npruned 0\ndeterministic\nresources 0\npruned 0\ndeterministic\nequal\n";

const SAME_ONE: &str =
    "resources 1\npruned 1\ndeterministic\nresources 1\npruned 1\ndeterministic\nequal\n";

const SAME_TWO: &str =
    "resources 2\npruned 2\ndeterministic\nresources 2\npruned 2\ndeterministic\nequal\n";

#[test]
fn manifests_that_do_the_same(rt: HostRuntime) -> Result<(), Fail> {
    all_told(
        rt.alloc(),
        ASKED,
        0,
        &[
            ("", "", SAME_NONE),
            (X, X, SAME_ONE),
            // Another title, and what is the same without saying so.
            (
                X,
                "file { 'q': path => '/a', ensure => file, content => 'x' }",
                SAME_ONE,
            ),
            // An arrow that doesn't matter.
            (
                "file { ['/a', '/b']: content => 'x' }",
                "file { ['/a', '/b']: content => 'x' } File['/a'] -> File['/b']",
                SAME_TWO,
            ),
            // Another order in the text.
            (
                "file { '/a': content => 'x' } file { '/b': content => 'y' }",
                "file { '/b': content => 'y' } file { '/a': content => 'x' }",
                SAME_TWO,
            ),
            // A class that is split in two.
            (
                "class all { file { '/d': ensure => directory } file { '/d/a': content => 'x' } } include all",
                "class one { file { '/d': ensure => directory } } class two { file { '/d/a': content => 'x' } } class all { contain one contain two } include all",
                SAME_TWO,
            ),
            // What the class data and the facts say, both share.
            (
                "class c($text) { file { '/a': content => $text } } include c",
                "file { '/a': content => $word }",
                SAME_ONE,
            ),
            // A virtual resource is none.
            (
                X,
                "file { '/a': content => 'x' } @file { '/b': content => 'y' }",
                SAME_ONE,
            ),
            (
                "package { 'ntp': }",
                "class ntp { package { 'ntp': ensure => installed } } include ntp",
                SAME_ONE,
            ),
        ],
    )
}

/// What is told of two orders from one tree: the tree, and each order with what it ends with.
#[derive(Drop)]
pub struct Apart<'a> {
    pub tree: &'a str,
    pub order: &'a str,
    pub outcome: &'a str,
    pub other_order: &'a str,
    pub other_outcome: &'a str,
    pub rest: &'a str,
}

pub fn read_apart(lines: &str) -> Apart {
    let (tree, rest) = behind(lines, "tree ");
    let (order, rest) = behind(rest, "order ");
    let (outcome, rest) = behind(rest, "outcome ");
    let (other_order, rest) = behind(rest, "order ");
    let (other_outcome, rest) = behind(rest, "outcome ");
    Apart {
        tree,
        order,
        outcome,
        other_order,
        other_outcome,
        rest,
    }
}

/// Both outcomes differ, and nothing is told behind them.
pub fn differ(alloc: Global, apart: &Apart, row: &str) -> Result<(), Fail> {
    same(alloc, row, apart.rest, "")?;
    holds(alloc, &[row], apart.outcome != apart.other_outcome)
}

/// Each manifest has a run from the tree that is told, with its order and outcome.
fn both_replay(alloc: Global, manifest: &str, other: &str, apart: &Apart) -> Result<(), Fail> {
    replays(
        alloc,
        (manifest, LISTING),
        apart.tree,
        apart.order,
        apart.outcome,
    )?;
    replays(
        alloc,
        (other, LISTING),
        apart.tree,
        apart.other_order,
        apart.other_outcome,
    )
}

/// The outcomes differ, and either manifest has a run so.
fn run_apart(alloc: Global, manifest: &str, other: &str, apart: &Apart) -> Result<(), Fail> {
    differ(alloc, apart, other)?;
    both_replay(alloc, manifest, other, apart)
}

/// Two manifests, and the lines in front of the tree from which they end apart.
type Row = (&'static str, &'static str, &'static str);

/// A run of either from one tree was told on out alone, with the status of manifests that do otherwise, and both run so.
fn tells_apart(alloc: Global, told: &Told, row: &Row) -> Result<(), Fail> {
    compare_status(alloc, told, 10, row.1)?;
    compare_err(alloc, told, "", row.1)?;
    let apart = read_apart(told.out.as_str().strip_prefix(row.2).unwrap_or("?"));
    run_apart(alloc, row.0, row.1, &apart)
}

fn end_apart(alloc: Global, row: &Row) -> Result<(), Fail> {
    let told = asked(alloc, ASKED, row.0, row.1)?;
    tells_apart(alloc, &told, row)
}

fn all_end_apart(alloc: Global, rows: &[Row]) -> Result<(), Fail> {
    for row in rows {
        end_apart(alloc, row)?;
    }
    Ok(())
}

/// The lines in front of the tree, where either manifest has one resource.
const APART_ONE: &str =
    "resources 1\npruned 1\ndeterministic\nresources 1\npruned 1\ndeterministic\nnot equal\n";

#[test]
fn manifests_that_do_otherwise(rt: HostRuntime) -> Result<(), Fail> {
    all_end_apart(
        rt.alloc(),
        &[
            (X, "file { '/a': content => 'y' }", APART_ONE),
            (
                X,
                "",
                "resources 1\npruned 1\ndeterministic\nresources 0\npruned 0\ndeterministic\nnot equal\n",
            ),
            // A resource more.
            (
                X,
                "file { ['/a', '/b']: content => 'x' }",
                "resources 1\npruned 1\ndeterministic\nresources 2\npruned 2\ndeterministic\nnot equal\n",
            ),
            // A file that is there may hold another text.
            (
                "file { '/a': ensure => file }",
                "file { '/a': content => '' }",
                APART_ONE,
            ),
            (
                "package { 'ntp': }",
                "package { 'ntp': ensure => absent }",
                APART_ONE,
            ),
            // Where /d is no folder, the one fails.
            (
                "file { '/d': ensure => directory } file { '/d/a': content => 'x' }",
                "file { '/d/a': content => 'x' }",
                "resources 2\npruned 2\ndeterministic\nresources 1\npruned 1\ndeterministic\nnot equal\n",
            ),
        ],
    )
}

const RACE: &str = "package { 'ntp': } file { '/etc/ntp.conf': content => 'server a' }";

/// Behind these lines was told what is told of the one whose order matters.
fn tells_alone(
    alloc: Global,
    told: &Told,
    front: &str,
    alone: &str,
    row: &str,
) -> Result<(), Fail> {
    let rest = told.out.as_str().strip_prefix(front).unwrap_or("?");
    same(alloc, row, rest, alone)?;
    compare_err(alloc, told, "", row)?;
    compare_status(alloc, told, 1, row)
}

fn is_told_alone(alloc: Global, alone: &str, row: &Row) -> Result<(), Fail> {
    let told = asked(alloc, ASKED, row.0, row.1)?;
    tells_alone(alloc, &told, row.2, alone, row.0)
}

fn all_told_alone(alloc: Global, alone: &str, rows: &[Row]) -> Result<(), Fail> {
    for row in rows {
        is_told_alone(alloc, alone, row)?;
    }
    Ok(())
}

/// Each row: two manifests, and the lines in front of what is told of this one alone.
fn all_told_as(alloc: Global, manifest: &str, rows: &[Row]) -> Result<(), Fail> {
    let alone = asked(alloc, &["--packages", "listing", "site.pp"], manifest, "")?;
    all_told_alone(alloc, alone.out.as_str(), rows)
}

#[test]
fn manifests_of_which_one_differs(rt: HostRuntime) -> Result<(), Fail> {
    all_told_as(
        rt.alloc(),
        RACE,
        &[
            (RACE, X, ""),
            (RACE, RACE, ""),
            (X, RACE, "resources 1\npruned 1\ndeterministic\n"),
        ],
    )
}

/// The orders of these end apart, which takes more than one conflict to find.
const PAIR: &str = "package { ['pair', 'twin']: }";

const SERVED: &str = "package { 'ntp': } -> file { '/etc/ntp.conf': content => 'a' }";

/// The same, and where a folder stands in the place of the program it fails.
const MADE_SURE: &str =
    "package { 'ntp': } -> file { '/etc/ntp.conf': content => 'a' } -> file { '/usr/sbin/ntpd': ensure => file }";

/// The number of conflicts is that of each question.
#[test]
fn manifests_whose_conflicts_are_spent(rt: HostRuntime) -> Result<(), Fail> {
    all_told(
        rt.alloc(),
        WITHIN,
        3,
        &[
            (PAIR, X, "resources 2\npruned 0\nspent deterministic 1\n"),
            (PAIR, PAIR, "resources 2\npruned 0\nspent deterministic 1\n"),
            (
                X,
                PAIR,
                "resources 1\npruned 1\ndeterministic\nresources 2\npruned 0\nspent deterministic 1\n",
            ),
            (
                SERVED,
                MADE_SURE,
                "resources 2\npruned 2\ndeterministic\nresources 3\npruned 3\ndeterministic\nspent equal 1\n",
            ),
        ],
    )
}

#[test]
fn manifests_that_are_refused(rt: HostRuntime) -> Result<(), Fail> {
    all_told(
        rt.alloc(),
        ASKED,
        4,
        &[
            (X, "include z", "refused 22 at 0 in other: z\n"),
            ("include z", X, "refused 22 at 0: z\n"),
            // The input's refusals come first, those of its programs too.
            ("exec { 'ls': }", "include z", "refused 50 at 7: Exec[ls]\n"),
            (X, "exec { 'ls': }", "refused 50 at 7 in other: Exec[ls]\n"),
            (X, "$x = 09", "refused 11 at 5 in other: lexical\n"),
            (X, "file { '/a'", "refused 12 at 11 in other: syntax\n"),
            (
                X,
                "file { '/a': require => File['/b'] }",
                "refused 40 at 7 in other: File[/b]\n",
            ),
            (
                X,
                "file { '/a': before => File['/a'] }",
                "refused 41 at 0 in other: File[/a] -> File[/a]\n",
            ),
            (
                X,
                "package { 'p': }",
                "refused 54 at 10 in other: Package[p]\n",
            ),
            (
                X,
                "fail(' in other')",
                "refused 30 at 0 in other:  in other\n",
            ),
        ],
    )
}

/// What is told where a file that an option names is none of its kind.
fn told_of_bad(alloc: Global, option: &str) -> Result<Told, Fail> {
    let words: [&str; 7] = [
        "--ask", "equal", option, "bad", "--other", "old.pp", "site.pp",
    ];
    let over: [(&str, &[u8]); 3] = [
        ("site.pp", X.as_bytes()),
        ("old.pp", b"include z"),
        ("bad", b"[]"),
    ];
    run_over(alloc, &words, &over)
}

/// The file that an option names is none of its kind, and is refused with this line.
fn is_bad(alloc: Global, option: &str, line: &str) -> Result<(), Fail> {
    let told = told_of_bad(alloc, option)?;
    compare(alloc, &told, 4, "", line, option)
}

/// Each row: an option whose file is none of its kind, and the line of the refusal.
fn all_bad(alloc: Global, rows: &[(&str, &str)]) -> Result<(), Fail> {
    for (option, line) in rows {
        is_bad(alloc, *option, *line)?;
    }
    Ok(())
}

/// Files that both share.
#[test]
fn files_of_both(rt: HostRuntime) -> Result<(), Fail> {
    all_bad(
        rt.alloc(),
        &[
            ("--facts", "refused 60 at 0: facts\n"),
            ("--packages", "refused 61 at 0: packages\n"),
            ("--data", "refused 64 at 0: data\n"),
        ],
    )
}

fn told_beside(alloc: Global, other: &str) -> Result<Told, Fail> {
    let words: [&str; 5] = ["--ask", "equal", "--other", "old.pp", "site.pp"];
    asked(alloc, &words, "include z", other)
}

/// What is told of another manifest of so many blanks.
fn told_of_blanks(alloc: Global, length: usize) -> Result<Told, Fail> {
    let long = " ".repeat(alloc, length)?;
    told_beside(alloc, long.as_str())
}

/// Another manifest of so many blanks is refused with this line.
fn is_long(alloc: Global, length: usize, line: &str) -> Result<(), Fail> {
    let told = told_of_blanks(alloc, length)?;
    compare_told(alloc, &told, 4, line, "a long manifest")
}

/// The other manifest is too long.
#[test]
fn another_manifest_that_is_long(rt: HostRuntime) -> Result<(), Fail> {
    is_long(rt.alloc(), 262_145, "refused 17 at 0: other\n")
}
