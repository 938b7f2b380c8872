//! Two compiled catalogs each: whether they do the same.

use super::common::{Told, compare_err, compare_head, compare_text, run_over};
use super::compiled::{MOTD, Res, catalog};
use std::alloc::Global;
use std::test::Fail;

const ASKED: &[&str] = &["--ask", "equal", "--compiled", "c", "--other", "old"];

const ASSUMED: &[&str] = &[
    "--ask",
    "equal",
    "--compiled",
    "c",
    "--other",
    "old",
    "--assume",
    "assumed",
];

const GIVEN: &[&str] = &[
    "--ask",
    "equal",
    "--compiled",
    "c",
    "--other",
    "old",
    "--assume",
    "assumed",
    "--given",
    "given",
];

/// The words, over the texts of two compiled catalogs and what is assumed of the resources of both.
fn asked<'a>(
    alloc: Global,
    words: &[&str],
    catalog: &'a str,
    other: &'a str,
    assumed: &'a str,
) -> Result<Told, Fail> {
    let over: [(&str, &[u8]); 5] = [
        ("c", catalog.as_bytes()),
        ("old", other.as_bytes()),
        ("assumed", assumed.as_bytes()),
        ("given", br#"{"version":1,"folders":["/etc"]}"#),
        ("site.pp", b"file { '/etc/motd': content => 'hi' }"),
    ];
    run_over(alloc, words, &over)
}

const EXEC: Res = ("Exec", "e", r#""command":"/bin/e""#, "");

const EXECS: &str = r#"{"version":1,"resources":{"Exec":"none","Exec[f]":"refused"}}"#;

const EDITS: &str = r#"{"version":1,"resources":{"File_line":{"edits":["/etc/hosts"]}}}"#;

const HOSTS: Res = ("File", "/etc/hosts", r#""content":"x""#, "");

const LINE: Res = (
    "File_line",
    "db",
    r#""line":"db","require":"File[/etc/hosts]""#,
    "",
);

const OTHER_LINE: Res = (
    "File_line",
    "db",
    r#""line":"web","require":"File[/etc/hosts]""#,
    "",
);

const FRAGMENT: Res = (
    "Concat_fragment",
    "a",
    r#""content":"1","target":"/f","order":"10""#,
    "",
);

/// The same in another order of its keys, and without the order that every fragment has that tells none.
const SAME_FRAGMENT: Res = ("Concat_fragment", "a", r#""target":"f","content":"1""#, "");

/// The words, what is assumed, and the resources of both.
type Row = (
    &'static [&'static str],
    &'static str,
    &'static [Res],
    &'static [Res],
);

/// What is told with status 0.
const SAME: [(Row, &str); 6] = [
    (
        (ASKED, "", &[MOTD], &[MOTD]),
        "resources 1\npruned 1\ndeterministic\nresources 1\npruned 1\ndeterministic\nequal\n",
    ),
    // Other resources are assumed on either side.
    (
        (ASSUMED, EXECS, &[MOTD, EXEC], &[MOTD]),
        "resources 2\nassumed 1\npruned 2\ndeterministic\nresources 1\nassumed 0\npruned 1\ndeterministic\nequal\n",
    ),
    (
        (GIVEN, EXECS, &[MOTD], &[EXEC, MOTD]),
        "resources 1\nassumed 0\ngiven 1\npruned 1\ndeterministic\nresources 2\nassumed 1\ngiven 1\npruned 2\ndeterministic\nequal\n",
    ),
    (
        (ASSUMED, EDITS, &[HOSTS, LINE], &[HOSTS, LINE]),
        "resources 2\nassumed 1\npruned 2\ndeterministic\nresources 2\nassumed 1\npruned 2\ndeterministic\nequal\n",
    ),
    // A file that is put together of fragments which are told alike.
    (
        (
            ASKED,
            "",
            &[("Concat_file", "f", r#""path":"/f""#, ""), FRAGMENT],
            &[("Concat_file", "f", r#""path":"/f""#, ""), SAME_FRAGMENT],
        ),
        "resources 2\npruned 2\ndeterministic\nresources 2\npruned 2\ndeterministic\nequal\n",
    ),
    // A container is no resource that does anything.
    (
        (ASKED, "", &[("Class", "c", "", ""), MOTD], &[MOTD]),
        "resources 1\npruned 1\ndeterministic\nresources 1\npruned 1\ndeterministic\nequal\n",
    ),
];

/// What is told of the right catalog of a row beside the text of the left one.
fn beside(alloc: Global, row: &Row, catalog_text: &str) -> Result<Told, Fail> {
    let (words, assumed, _, right) = *row;
    let other = catalog(alloc, right, &[])?;
    asked(alloc, words, catalog_text, other.as_str(), assumed)
}

/// What is told of both catalogs of a row.
fn of_both(alloc: Global, row: &Row) -> Result<Told, Fail> {
    let text = catalog(alloc, row.2, &[])?;
    beside(alloc, row, text.as_str())
}

/// This is told of both catalogs of a row with status 0, or refused with another.
fn is_told(alloc: Global, status: u8, row: &Row, text: &str) -> Result<(), Fail> {
    let told = of_both(alloc, row)?;
    compare_text(alloc, &told, status, text, text)
}

/// Each row is told so with status 0, and refused so with another.
fn all_told(alloc: Global, status: u8, rows: &[(Row, &str)]) -> Result<(), Fail> {
    for (row, text) in rows {
        is_told(alloc, status, row, *text)?;
    }
    Ok(())
}

#[test]
fn compiled_catalogs_that_do_the_same(rt: HostRuntime) -> Result<(), Fail> {
    all_told(rt.alloc(), 0, &SAME)
}

/// What is told with status 10 or 1, ahead of the tree.
const OTHERWISE: [(Row, u8, &str); 5] = [
    (
        (ASKED, "", &[MOTD], &[]),
        10,
        "resources 1\npruned 1\ndeterministic\nresources 0\npruned 0\ndeterministic\nnot equal\n",
    ),
    // An edit that says something else isn't the same.
    (
        (ASSUMED, EDITS, &[HOSTS, LINE], &[HOSTS, OTHER_LINE]),
        10,
        "resources 2\nassumed 1\npruned 2\ndeterministic\nresources 2\nassumed 1\npruned 2\ndeterministic\nnot equal\n",
    ),
    // Nor is a file of which another fragment is a part.
    (
        (
            ASKED,
            "",
            &[("Concat_file", "f", r#""path":"/f""#, ""), FRAGMENT],
            &[
                ("Concat_file", "f", r#""path":"/f""#, ""),
                FRAGMENT,
                ("Concat_fragment", "b", r#""content":"2","target":"/f""#, ""),
            ],
        ),
        10,
        "resources 2\npruned 2\ndeterministic\nresources 3\npruned 3\ndeterministic\nnot equal\n",
    ),
    // The right one isn't deterministic: its notes are its own.
    (
        (
            ASSUMED,
            EDITS,
            &[HOSTS],
            &[HOSTS, ("File_line", "db", r#""line":"db""#, "")],
        ),
        1,
        "resources 1\nassumed 0\npruned 1\ndeterministic\nresources 2\nassumed 1\npruned 0\nnot deterministic\n",
    ),
    (
        (
            ASSUMED,
            EDITS,
            &[HOSTS, ("File_line", "db", r#""line":"db""#, "")],
            &[HOSTS],
        ),
        1,
        "resources 2\nassumed 1\npruned 0\nnot deterministic\n",
    ),
];

/// These lines were told in front, on out alone.
fn tells(alloc: Global, told: &Told, status: u8, head: &str) -> Result<(), Fail> {
    compare_head(alloc, told, status, head, head)?;
    compare_err(alloc, told, "", head)
}

/// Both catalogs of a row are told with the status and these lines in front.
fn differ(alloc: Global, row: &Row, status: u8, head: &str) -> Result<(), Fail> {
    let told = of_both(alloc, row)?;
    tells(alloc, &told, status, head)
}

/// Each row is told with its status and these lines in front.
fn all_differ(alloc: Global, rows: &[(Row, u8, &str)]) -> Result<(), Fail> {
    for (row, status, head) in rows {
        differ(alloc, row, *status, *head)?;
    }
    Ok(())
}

#[test]
fn compiled_catalogs_that_do_otherwise(rt: HostRuntime) -> Result<(), Fail> {
    all_differ(rt.alloc(), &OTHERWISE)
}

/// Where a resource is declared.
const AT: &str = r#","file":"/m/a.pp","line":7"#;

/// What is refused of either.
const REFUSED: [(Row, &str); 9] = [
    (
        (ASSUMED, EXECS, &[MOTD, MOTD], &[MOTD, MOTD]),
        "refused 65 at 0: compiled\n",
    ),
    (
        (ASSUMED, EXECS, &[MOTD], &[MOTD, MOTD]),
        "refused 65 at 0 in other: compiled\n",
    ),
    (
        (ASSUMED, EXECS, &[MOTD], &[("Exec", "f", "", AT)]),
        "refused 50 at 0 in other: Exec[f] (/m/a.pp:7)\n",
    ),
    (
        (ASSUMED, EXECS, &[("Exec", "f", "", AT)], &[MOTD]),
        "refused 50 at 0: Exec[f] (/m/a.pp:7)\n",
    ),
    // all of the left one comes ahead of the right one's text
    (
        (ASSUMED, EXECS, &[("Exec", "f", "", "")], &[MOTD, MOTD]),
        "refused 50 at 0: Exec[f]\n",
    ),
    (
        (
            ASSUMED,
            EXECS,
            &[("File", "/a", r#""require":7"#, "")],
            &[MOTD, MOTD],
        ),
        "refused 29 at 0: File[/a] require\n",
    ),
    (
        (
            ASSUMED,
            EXECS,
            &[MOTD],
            &[("File", "/a", r#""before":"File[/a]""#, "")],
        ),
        "refused 41 at 0 in other: File[/a] -> File[/a]\n",
    ),
    (
        (
            ASSUMED,
            EXECS,
            &[MOTD],
            &[("File", "/a", r#""before":"File[/b]""#, "")],
        ),
        "refused 40 at 0 in other: File[/b]\n",
    ),
    // what is assumed is said of both, and is refused of neither
    (
        (ASSUMED, "[]", &[MOTD], &[MOTD, MOTD]),
        "refused 66 at 0: assume\n",
    ),
];

#[test]
fn compiled_catalogs_that_are_refused(rt: HostRuntime) -> Result<(), Fail> {
    all_told(rt.alloc(), 4, &REFUSED)
}

const BESIDE_MANIFEST: [(Row, &str); 1] = [(
    (
        &["--ask", "equal", "--compiled", "c", "--other", "site.pp"],
        "",
        &[MOTD],
        &[],
    ),
    "refused 65 at 0 in other: compiled\n",
)];

/// Beside a compiled catalog a manifest is none.
#[test]
fn a_manifest_beside_a_compiled_catalog(rt: HostRuntime) -> Result<(), Fail> {
    all_told(rt.alloc(), 4, &BESIDE_MANIFEST)
}
