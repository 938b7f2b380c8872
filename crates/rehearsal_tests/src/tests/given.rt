//! Folders and links that every host has: what is told where they are given, and which texts of them are refused.

use super::common::{Told, begins, compare, compare_status, compare_told, has, holds, run_over};
use super::equal::{Apart, differ, read_apart};
use super::run_again::{Runs, read_runs};
use std::alloc::Global;
use std::test::Fail;
use test_rows::same;

const LISTING: &str = concat!(
    r#"{"version":2,"packages":{"p":{"files":[["/etc/p",null]],"folders":[]},"cron":{"files":[["/lib/systemd/system/cron.service","d1"]],"folders":[]},"#,
    r#""x":{"files":[],"folders":["/srv/x"]},"a":{"files":[["/opt/s","d1"]],"folders":[]},"b":{"files":[["/opt/s","d2"]],"folders":[]}}}"#
);

const ETC: &str = r#"{"version":1,"folders":["/etc"]}"#;

const LIB: &str =
    r#"{"version":1,"folders":["/usr/lib/systemd/system"],"links":{"/lib":"/usr/lib"}}"#;

const SRV: &str = r#"{"version":1,"folders":["/srv/x"]}"#;

/// A file and a package that both need a folder, of which either makes sure or not.
const MOTD: &str = "file { '/etc/motd': content => 'hi' } package { 'p': }";

/// A service's file under two names.
const UNIT: &str =
    "package { 'cron': } file { '/usr/lib/systemd/system/cron.service': content => 'x' }";

fn asked<'a>(
    alloc: Global,
    words: &[&str],
    manifest: &'a str,
    given: &'a str,
) -> Result<Told, Fail> {
    let over: [(&str, &[u8]); 6] = [
        ("site.pp", manifest.as_bytes()),
        ("listing", LISTING.as_bytes()),
        ("given", given.as_bytes()),
        ("other.pp", b"file { '/usr/lib/x': content => 'c' }"),
        ("etc", br#"{"/etc":null}"#),
        ("none", b"{}"),
    ];
    run_over(alloc, words, &over)
}

/// The words, the manifest, what is given, and what is told.
type Row = (
    &'static [&'static str],
    &'static str,
    &'static str,
    &'static str,
);

const VERIFY: &[&str] = &["--packages", "listing", "--given", "given", "site.pp"];

const PROGRAMS: &[&str] = &["--ask", "programs", "--given", "given", "site.pp"];

const REPLAY: &[&str] = &["--ask", "replay", "--given", "given", "site.pp"];

const EXPLAIN: &[&str] = &[
    "--ask",
    "explain",
    "--packages",
    "listing",
    "--given",
    "given",
    "site.pp",
];

const REPAIR: &[&str] = &[
    "--ask",
    "repair",
    "--packages",
    "listing",
    "--given",
    "given",
    "site.pp",
];

const ENSURES: &[&str] = &[
    "--ask",
    "ensures",
    "--path",
    "/lib/x",
    "--content",
    "c",
    "--given",
    "given",
    "site.pp",
];

const EQUAL: &[&str] = &[
    "--ask", "equal", "--other", "other.pp", "--given", "given", "site.pp",
];

/// What is told with status 0.
const ROWS: [Row; 17] = [
    (
        VERIFY,
        MOTD,
        ETC,
        "resources 2\ngiven 1\npruned 0\ndeterministic\nidempotent\nsucceeds from some tree\n",
    ),
    // What lies above is given too, and each folder once.
    (
        VERIFY,
        "file { '/etc/a/b/motd': content => 'hi' }",
        r#"{"version":1,"folders":["/etc/a/b","/etc/a","/etc//a/"]}"#,
        "resources 1\ngiven 3\npruned 1\ndeterministic\nidempotent\nsucceeds from some tree\n",
    ),
    // The empty list changes nothing but its line.
    (
        VERIFY,
        "file { '/etc/motd': content => 'hi' }",
        r#"{"version":1,"folders":[]}"#,
        "resources 1\ngiven 0\npruned 1\ndeterministic\nidempotent\nsucceeds from some tree\n",
    ),
    (
        VERIFY,
        "",
        r#"{"folders":[],"version":1,"links":{}}"#,
        "resources 0\ngiven 0\npruned 0\ndeterministic\nidempotent\nsucceeds from some tree\n",
    ),
    // The target of a link is given, and what lies above it.
    (
        VERIFY,
        "file { '/lib/motd': content => 'hi' }",
        r#"{"version":1,"folders":[],"links":{"/lib":"/usr/lib"}}"#,
        "resources 1\ngiven 2\npruned 1\ndeterministic\nidempotent\nsucceeds from some tree\n",
    ),
    // A folder that is given can't be a file.
    (
        VERIFY,
        "file { '/etc': ensure => file }",
        ETC,
        "resources 1\ngiven 1\npruned 1\ndeterministic\nidempotent\nfails from every tree\n",
    ),
    // The first run removes a folder that is given; the second finds nothing to do.
    (
        VERIFY,
        "package { 'x': ensure => absent }",
        SRV,
        "resources 1\ngiven 2\npruned 1\ndeterministic\nidempotent\nsucceeds from some tree\n",
    ),
    (
        EXPLAIN,
        MOTD,
        ETC,
        "resources 2\ngiven 1\npruned 0\ndeterministic\nidempotent\nsucceeds from some tree\n",
    ),
    (
        EXPLAIN,
        "node default { file { '/etc/motd': content => 'hi' } }",
        ETC,
        "resources 1\nnode default\ngiven 1\npruned 1\ndeterministic\nidempotent\nsucceeds from some tree\n",
    ),
    (
        REPAIR,
        MOTD,
        ETC,
        "resources 2\ngiven 1\nedges 0\ndeterministic\n",
    ),
    // The path that is wanted is read as the file's is.
    (
        ENSURES,
        "file { '/usr/lib/x': content => 'c' }",
        r#"{"version":1,"folders":[],"links":{"/lib":"/usr/lib"}}"#,
        "resources 1\ngiven 2\npruned 1\ndeterministic\nensured\nsucceeds from some tree\n",
    ),
    (
        EQUAL,
        "file { '/lib/x': content => 'c' }",
        r#"{"version":1,"folders":[],"links":{"/lib":"/usr/lib"}}"#,
        "resources 1\ngiven 2\npruned 1\ndeterministic\nresources 1\ngiven 2\npruned 1\ndeterministic\nequal\n",
    ),
    (
        PROGRAMS,
        "file { '/lib/x': ensure => directory } file { '/var/run/y/z': ensure => directory }",
        r#"{"version":1,"folders":[],"links":{"/lib":"/usr/lib","/var/run":"/run"}}"#,
        "File[/lib/x]\nif dir?(\"/usr/lib/x\") then id else mkdir(\"/usr/lib/x\")\nFile[/var/run/y/z]\nif dir?(\"/run/y/z\") then id else mkdir(\"/run/y/z\")\n",
    ),
    // The target of a link that is made stays.
    (
        PROGRAMS,
        "file { '/lib/x': ensure => link, target => '/lib/y' }",
        r#"{"version":1,"folders":[],"links":{"/lib":"/usr/lib"}}"#,
        "File[/lib/x]\nif (file?(\"/usr/lib/x\") or link?(\"/usr/lib/x\")) then [rm(\"/usr/lib/x\"); link(\"/usr/lib/x\",\"/lib/y\")] else link(\"/usr/lib/x\",\"/lib/y\")\n",
    ),
    // A run begins in the tree of the given folders, unless a tree is told.
    (
        REPLAY,
        "file { '/etc/motd': content => 'hi' }",
        ETC,
        "outcome {\"/etc\":null,\"/etc/motd\":\"hi\"}\n",
    ),
    (
        REPLAY,
        "file { '/lib/x': content => 'c' }",
        r#"{"version":1,"folders":["/a/b"],"links":{"/lib":"/usr/lib"}}"#,
        "outcome {\"/a\":null,\"/a/b\":null,\"/usr\":null,\"/usr/lib\":null,\"/usr/lib/x\":\"c\"}\n",
    ),
    (
        &[
            "--ask", "replay", "--tree", "etc", "--given", "given", "site.pp",
        ],
        "file { '/etc/motd': content => 'hi' }",
        ETC,
        "outcome {\"/etc\":null,\"/etc/motd\":\"hi\"}\n",
    ),
];

/// A row is told so with this status.
fn is_told(alloc: Global, status: u8, row: &Row) -> Result<(), Fail> {
    let told = asked(alloc, row.0, row.1, row.2)?;
    compare_told(alloc, &told, status, row.3, row.1)
}

/// Each row is told so with this status.
fn all_told(alloc: Global, status: u8, rows: &[Row]) -> Result<(), Fail> {
    for row in rows {
        is_told(alloc, status, row)?;
    }
    Ok(())
}

#[test]
fn what_is_told_where_folders_are_given(rt: HostRuntime) -> Result<(), Fail> {
    all_told(rt.alloc(), 0, &ROWS)
}

/// Nothing was told to be given.
fn tells_none(alloc: Global, told: &Told, status: u8, manifest: &str) -> Result<(), Fail> {
    compare_status(alloc, told, status, manifest)?;
    holds(
        alloc,
        &["none given, ", manifest],
        !told.out.as_str().contains("given"),
    )
}

fn is_without(alloc: Global, words: &[&str], manifest: &str, status: u8) -> Result<(), Fail> {
    let told = asked(alloc, words, manifest, "")?;
    tells_none(alloc, &told, status, manifest)
}

/// Each row: words that give nothing, a manifest, and the status; and nothing is told to be given.
fn all_without(alloc: Global, rows: &[(&[&str], &str, u8)]) -> Result<(), Fail> {
    for (words, manifest, status) in rows {
        is_without(alloc, *words, *manifest, *status)?;
    }
    Ok(())
}

#[test]
fn what_is_told_where_none_are(rt: HostRuntime) -> Result<(), Fail> {
    all_without(
        rt.alloc(),
        &[
            (&["--packages", "listing", "site.pp"], MOTD, 1),
            (
                &["--ask", "ensures", "--path", "/lib/x", "site.pp"],
                "file { '/usr/lib/x': content => 'c' }",
                9,
            ),
            (
                &["--ask", "equal", "--other", "other.pp", "site.pp"],
                "file { '/lib/x': content => 'c' }",
                10,
            ),
            (&["--packages", "listing", "site.pp"], UNIT, 0),
        ],
    )
}

/// The tree that is told has each of these members.
fn has_members(alloc: Global, tree: &str, members: &[&str]) -> Result<(), Fail> {
    for member in members {
        has(alloc, "tree", tree, *member)?;
    }
    Ok(())
}

/// A manifest and what is given, the lines in front of the tree, and members of it.
type Members = (
    &'static str,
    &'static str,
    &'static str,
    &'static [&'static str],
);

/// The outcomes differ, from a tree that has each of the members of a row.
fn are_apart(alloc: Global, apart: &Apart, row: &Members) -> Result<(), Fail> {
    has_members(alloc, apart.tree, row.3)?;
    differ(alloc, apart, row.0)
}

/// Behind the lines of a row two outcomes were told that differ.
fn tells_apart(alloc: Global, told: &Told, row: &Members) -> Result<(), Fail> {
    compare_status(alloc, told, 1, row.0)?;
    let apart = read_apart(told.out.as_str().strip_prefix(row.2).unwrap_or("?"));
    are_apart(alloc, &apart, row)
}

fn matters(alloc: Global, row: &Members) -> Result<(), Fail> {
    let told = asked(alloc, VERIFY, row.0, row.1)?;
    tells_apart(alloc, &told, row)
}

fn all_matter(alloc: Global, rows: &[Members]) -> Result<(), Fail> {
    for row in rows {
        matters(alloc, row)?;
    }
    Ok(())
}

/// Two outcomes that differ, from a tree with the folders that are given.
#[test]
fn orders_that_matter(rt: HostRuntime) -> Result<(), Fail> {
    all_matter(
        rt.alloc(),
        &[
            (
                UNIT,
                LIB,
                "resources 2\ngiven 4\npruned 0\nnot deterministic\n",
                &[
                    r#""/usr":null"#,
                    r#""/usr/lib":null"#,
                    r#""/usr/lib/systemd":null"#,
                    r#""/usr/lib/systemd/system":null"#,
                ],
            ),
            // The folder has nothing to do with what the packages have.
            (
                "package { ['a', 'b']: }",
                ETC,
                "resources 2\ngiven 1\npruned 0\nnot deterministic\n",
                &[r#""/etc":null"#],
            ),
        ],
    )
}

/// The outcomes were told to differ at this place alone.
fn tells_place(alloc: Global, told: &Told, place: &str) -> Result<(), Fail> {
    compare_status(alloc, told, 1, place)?;
    let (_, at) = told.out.as_str().split_once("\nat ").unwrap_or(("", "?"));
    begins(alloc, "at", at, place)?;
    holds(alloc, &["one place, ", at], !at.contains("\nat "))
}

/// The outcomes of a manifest differ at this place alone.
fn differs_at(alloc: Global, manifest: &str, given: &str, place: &str) -> Result<(), Fail> {
    let told = asked(alloc, EXPLAIN, manifest, given)?;
    tells_place(alloc, &told, place)
}

/// Both names of one place are one path of the outcomes.
#[test]
fn one_place_under_two_names(rt: HostRuntime) -> Result<(), Fail> {
    differs_at(
        rt.alloc(),
        UNIT,
        LIB,
        "\"/usr/lib/systemd/system/cron.service\": ",
    )
}

/// The folder stands in the tree and behind the second run, but not behind the first.
fn is_made_again(alloc: Global, runs: &Runs) -> Result<(), Fail> {
    has_members(alloc, runs.tree, &[r#""/srv":null"#, r#""/srv/x":null"#])?;
    holds(
        alloc,
        &["gone, ", runs.first],
        !runs.first.contains("/srv/x"),
    )?;
    has(alloc, "second run", runs.second, "/srv/x")?;
    same(alloc, "rest", runs.rest, "succeeds from some tree\n")
}

/// Behind these lines a second run was told that makes the folder again.
fn tells_again(alloc: Global, told: &Told, head: &str) -> Result<(), Fail> {
    compare_status(alloc, told, 2, head)?;
    let runs = read_runs(told.out.as_str().strip_prefix(head).unwrap_or("?"));
    is_made_again(alloc, &runs)
}

/// A second run of the manifest makes the folder again, which is told behind these lines.
fn makes_again(alloc: Global, manifest: &str, head: &str) -> Result<(), Fail> {
    let told = asked(alloc, VERIFY, manifest, SRV)?;
    tells_again(alloc, &told, head)
}

/// The folder stands when a first run begins, which removes it; a second one makes it again.
#[test]
fn second_runs_where_a_folder_is_gone(rt: HostRuntime) -> Result<(), Fail> {
    makes_again(
        rt.alloc(),
        "file { '/srv/x': ensure => directory } -> package { 'x': ensure => absent }",
        "resources 2\ngiven 2\npruned 2\ndeterministic\nnot idempotent\n",
    )
}

/// Texts of folders and links that give nothing.
const TEXTS: [&str; 24] = [
    "",
    "[]",
    r#"{"folders":[]}"#,
    r#"{"version":1}"#,
    r#"{"version":2,"folders":[]}"#,
    r#"{"version":1.0,"folders":[]}"#,
    r#"{"version":"1","folders":[]}"#,
    r#"{"version":1,"folders":{}}"#,
    r#"{"version":1,"folders":[],"links":[]}"#,
    r#"{"version":1,"folders":[],"links":null}"#,
    r#"{"version":1,"folders":[],"files":[]}"#,
    r#"{"version":1,"links":{}}"#,
    r#"{"version":1,"folders":[1]}"#,
    r#"{"version":1,"folders":["etc"]}"#,
    r#"{"version":1,"folders":["/a/../b"]}"#,
    r#"{"version":1,"folders":["/"]}"#,
    r#"{"version":1,"folders":["/.rehearsal/x"]}"#,
    r#"{"version":1,"folders":[],"links":{"/lib":"/"}}"#,
    r#"{"version":1,"folders":[],"links":{"/lib":"/lib"}}"#,
    r#"{"version":1,"folders":[],"links":{"/lib":"/lib/x"}}"#,
    r#"{"version":1,"folders":[],"links":{"/lib":"/usr/lib","/lib/":"/usr/lib"}}"#,
    r#"{"version":1,"folders":[],"links":{"/a":"/x","/a/b":"/y"}}"#,
    r#"{"version":1,"folders":[],"links":{"/a":"/b/c","/b":"/y"}}"#,
    r#"{"version":1,"folders":["/lib/x"],"links":{"/lib":"/usr/lib"}}"#,
];

/// A text is refused with this line.
fn is_refused(alloc: Global, text: &str, line: &str, row: &str) -> Result<(), Fail> {
    let told = asked(alloc, VERIFY, "", text)?;
    compare(alloc, &told, 4, "", line, row)
}

fn all_give_nothing(alloc: Global, rows: &[&str]) -> Result<(), Fail> {
    for text in rows {
        is_refused(alloc, *text, "refused 67 at 0: given\n", *text)?;
    }
    Ok(())
}

#[test]
fn texts_that_give_nothing(rt: HostRuntime) -> Result<(), Fail> {
    all_give_nothing(rt.alloc(), &TEXTS)
}

/// A run from the tree `none`.
const TOLD: &[&str] = &[
    "--ask", "replay", "--tree", "none", "--given", "given", "site.pp",
];

#[test]
fn refusals_where_folders_are_given(rt: HostRuntime) -> Result<(), Fail> {
    all_told(
        rt.alloc(),
        4,
        &[
            // A tree in which the folder doesn't stand; a text that gives nothing comes first.
            (TOLD, "", ETC, "refused 62 at 0: tree\n"),
            (TOLD, "", "[]", "refused 67 at 0: given\n"),
            // The tree that is no tree comes before that text, which comes before the manifest.
            (
                &[
                    "--ask", "replay", "--tree", "site.pp", "--given", "given", "site.pp",
                ],
                "'",
                "[]",
                "refused 62 at 0: tree\n",
            ),
            (VERIFY, "'", "[]", "refused 67 at 0: given\n"),
            // The file's path is the link's.
            (
                VERIFY,
                "file { '/a': } file { '/lib': ensure => directory } file { '/b': replace => false }",
                LIB,
                "refused 53 at 22: File[/lib]\n",
            ),
            // What is refused of a resource ahead of it comes first, and what is refused of it ahead of its path.
            (
                VERIFY,
                "file { '/a': replace => false } file { '/lib': ensure => directory }",
                LIB,
                "refused 51 at 7: replace\n",
            ),
            (
                VERIFY,
                "file { '/lib': replace => false }",
                LIB,
                "refused 51 at 7: replace\n",
            ),
            (
                VERIFY,
                "file { '/lib': } file { 'x': path => '/lib/' }",
                LIB,
                "refused 53 at 7: File[/lib]\n",
            ),
        ],
    )
}

/// The refusal of so many blanks.
fn is_long(alloc: Global, length: usize, line: &str) -> Result<(), Fail> {
    let text = " ".repeat(alloc, length)?;
    is_refused(alloc, text.as_str(), line, "a long text")
}

/// Each row: how many blanks there are, and their refusal.
fn all_long(alloc: Global, rows: &[(usize, &str)]) -> Result<(), Fail> {
    for (length, line) in rows {
        is_long(alloc, *length, *line)?;
    }
    Ok(())
}

/// A text at the limit and one over it.
#[test]
fn texts_that_are_long(rt: HostRuntime) -> Result<(), Fail> {
    all_long(
        rt.alloc(),
        &[
            (1_048_576, "refused 67 at 0: given\n"),
            (1_048_577, "refused 17 at 0: given\n"),
        ],
    )
}
