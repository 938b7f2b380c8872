//! Entries that are wanted: whether each run that ends leaves them.

use super::common::{Told, compare, compare_err, compare_status, run_over};
use super::differences::{behind, replays};
use std::alloc::Global;
use std::test::Fail;
use test_rows::{joined, same, same_of};

const LISTING: &str =
    r#"{"version":2,"packages":{"ntp":{"files":[["/etc/ntp.conf",null],["/usr/sbin/ntpd","d1"]],"folders":[]}}}"#;

/// The head of what is told where no order matters.
const ONE: &str = "resources 1\npruned 1\ndeterministic\n";

/// The lines in front of a run that ends without the entry.
const MISSED: &str = "resources 1\npruned 1\ndeterministic\nnot ensured\n";

fn asked(alloc: Global, words: &[&str], manifest: &str) -> Result<Told, Fail> {
    let over: [(&str, &[u8]); 2] = [
        ("site.pp", manifest.as_bytes()),
        ("listing", LISTING.as_bytes()),
    ];
    run_over(alloc, words, &over)
}

/// What is told of an entry at a path, and of a file there with a content.
fn told_of(alloc: Global, manifest: &str, path: &str, content: Option<&str>) -> Result<Told, Fail> {
    match content {
        Some(text) => asked(
            alloc,
            &[
                "--ask",
                "ensures",
                "--packages",
                "listing",
                "--path",
                path,
                "--content",
                text,
                "site.pp",
            ],
            manifest,
        ),
        None => asked(
            alloc,
            &[
                "--ask",
                "ensures",
                "--packages",
                "listing",
                "--path",
                path,
                "site.pp",
            ],
            manifest,
        ),
    }
}

/// A manifest, a path, a content that is wanted there, and the lines before and behind the answer.
type Ensured = (
    &'static str,
    &'static str,
    Option<&'static str>,
    &'static str,
    &'static str,
);

const ENSURED: [Ensured; 8] = [
    (
        "file { '/etc/motd': content => 'hi' }",
        "/etc/motd",
        Some("hi"),
        ONE,
        "succeeds from some tree\n",
    ),
    (
        "file { '/etc/motd': content => 'hi' }",
        "/etc/motd",
        None,
        ONE,
        "succeeds from some tree\n",
    ),
    // The folder above.
    (
        "file { '/etc/motd': content => 'hi' }",
        "/etc",
        None,
        ONE,
        "succeeds from some tree\n",
    ),
    (
        "file { '/etc/motd': content => 'hi' }",
        "//etc//motd/",
        Some("hi"),
        ONE,
        "succeeds from some tree\n",
    ),
    (
        "file { '/a': ensure => present }",
        "/a",
        None,
        ONE,
        "succeeds from some tree\n",
    ),
    (
        "package { 'ntp': }",
        "/usr/sbin",
        None,
        ONE,
        "succeeds from some tree\n",
    ),
    // What the program keeps of a package.
    (
        "package { 'ntp': }",
        "/.rehearsal/package/ntp",
        None,
        ONE,
        "succeeds from some tree\n",
    ),
    // No run ends.
    (
        "file { '/a': ensure => file } file { '/a/b': ensure => file }",
        "/x",
        None,
        "resources 2\npruned 2\ndeterministic\n",
        "fails from every tree\n",
    ),
];

/// What was told has the lines of a row before and behind the answer.
fn tells_ensured(alloc: Global, told: &Told, row: &Ensured) -> Result<(), Fail> {
    let report = joined(alloc, &[row.3, "ensured\n", row.4])?;
    compare(alloc, told, 0, report.as_str(), "", row.0)
}

fn is_ensured(alloc: Global, row: &Ensured) -> Result<(), Fail> {
    let told = told_of(alloc, row.0, row.1, row.2)?;
    tells_ensured(alloc, &told, row)
}

/// The entry of each row is ensured.
fn all_ensured(alloc: Global, rows: &[Ensured]) -> Result<(), Fail> {
    for row in rows {
        is_ensured(alloc, row)?;
    }
    Ok(())
}

#[test]
fn entries_that_are_ensured(rt: HostRuntime) -> Result<(), Fail> {
    all_ensured(rt.alloc(), &ENSURED)
}

/// The run that these lines tell ends so.
fn runs_so(alloc: Global, manifest: &str, lines: &str) -> Result<(), Fail> {
    let (tree, rest) = behind(lines, "tree ");
    let (order, rest) = behind(rest, "order ");
    let (outcome, rest) = behind(rest, "outcome ");
    same(alloc, manifest, rest, "")?;
    replays(alloc, (manifest, LISTING), tree, order, outcome)
}

/// A run that ends without the entry was told, and runs so.
fn tells_missed(alloc: Global, told: &Told, manifest: &str) -> Result<(), Fail> {
    compare_status(alloc, told, 9, manifest)?;
    compare_err(alloc, told, "", manifest)?;
    let rest = told.out.as_str().strip_prefix(MISSED).unwrap_or("?");
    runs_so(alloc, manifest, rest)
}

/// A manifest, a path, and a content that is wanted there.
type Entry = (&'static str, &'static str, Option<&'static str>);

const ENTRIES: [Entry; 8] = [
    (
        "file { '/etc/motd': content => 'hi' }",
        "/etc/motd",
        Some("ho"),
    ),
    ("file { '/etc/motd': content => 'hi' }", "/etc/issue", None),
    // A folder where a content is wanted.
    ("file { '/etc/motd': content => 'hi' }", "/etc", Some("hi")),
    ("file { '/a': }", "/a", None),
    // A file that is there may hold another text.
    ("file { '/a': ensure => present }", "/a", Some("")),
    ("file { '/a': ensure => absent }", "/a", None),
    // A link may stand there.
    (
        "file { '/a': ensure => link, target => '/b' }",
        "/a",
        Some("/b"),
    ),
    (
        "package { 'ntp': ensure => absent }",
        "/usr/sbin/ntpd",
        None,
    ),
];

/// A run ends without the entry of a row.
fn is_missed(alloc: Global, row: &Entry) -> Result<(), Fail> {
    let told = told_of(alloc, row.0, row.1, row.2)?;
    tells_missed(alloc, &told, row.0)
}

/// The entry of each row is missed.
fn all_missed(alloc: Global, rows: &[Entry]) -> Result<(), Fail> {
    for row in rows {
        is_missed(alloc, row)?;
    }
    Ok(())
}

#[test]
fn entries_that_are_missed(rt: HostRuntime) -> Result<(), Fail> {
    all_missed(rt.alloc(), &ENTRIES)
}

/// A package and a file that it brings, without an arrow between them.
const SHARED: &str = "package { 'ntp': } file { '/etc/ntp.conf': content => 'server a' }";

/// This is told where an entry of a graph is wanted.
fn is_told_as(alloc: Global, manifest: &str, report: &str) -> Result<(), Fail> {
    let told = told_of(alloc, manifest, "/etc/ntp.conf", None)?;
    compare(alloc, &told, 1, report, "", manifest)
}

/// Where an entry of a graph is wanted, that is told which these words tell of the graph.
fn is_told_alike(alloc: Global, words: &[&str], manifest: &str) -> Result<(), Fail> {
    let plain = asked(alloc, words, manifest)?;
    is_told_as(alloc, manifest, plain.out.as_str())
}

#[test]
fn entries_of_graphs_that_differ(rt: HostRuntime) -> Result<(), Fail> {
    is_told_alike(rt.alloc(), &["--packages", "listing", "site.pp"], SHARED)
}

/// These words were refused: nothing is told.
fn tells_nothing(alloc: Global, told: &Told, words: &[&str]) -> Result<(), Fail> {
    same_of(alloc, words, told.out.as_str(), "")?;
    compare_status(alloc, told, 5, "words")
}

fn is_refused(alloc: Global, words: &[&str]) -> Result<(), Fail> {
    let told = asked(alloc, words, "")?;
    tells_nothing(alloc, &told, words)
}

/// Each of these words is refused: nothing is told.
fn all_refused(alloc: Global, rows: &[&[&str]]) -> Result<(), Fail> {
    for words in rows {
        is_refused(alloc, *words)?;
    }
    Ok(())
}

#[test]
fn entries_that_are_refused(rt: HostRuntime) -> Result<(), Fail> {
    all_refused(
        rt.alloc(),
        &[
            &["--ask", "ensures", "site.pp"],
            &["--ask", "ensures", "--content", "hi", "site.pp"],
            &["--ask", "ensures", "--path", "/", "site.pp"],
            &["--ask", "ensures", "--path", "//", "site.pp"],
            &["--ask", "ensures", "--path", "etc", "site.pp"],
            &["--ask", "ensures", "--path", "/a/../b", "site.pp"],
            &["--ask", "ensures", "--path", "", "site.pp"],
            &["--ask", "ensures", "--path", "/a", "--workload", "5"],
            &["--path", "/a", "site.pp"],
            &["--ask", "repair", "--content", "hi", "site.pp"],
        ],
    )
}
