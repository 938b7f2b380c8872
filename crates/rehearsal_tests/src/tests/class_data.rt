//! Parameters of classes, from data by levels, from what is given, and from their defaults.

use super::common::{Told, compare_text, run_over};
use std::alloc::Global;
use std::test::Fail;

/// A level for machines in production, and one for all.
const LEVELS: &str =
    r#"{"levels":[{"when":{"env":"prod"},"values":{"c::p":"y"}},{"values":{"c::p":"z"}}]}"#;

const DEFAULT: &str = "class c($p = 'x') { file { '/f': content => $p } } include c";

const GIVEN: &str = "class c($p = 'x') { file { '/f': content => $p } } class { 'c': p => 'w' }";

const TYPED: &str = "class c(Integer $p) { }\ninclude c";

/// What is asked, of which manifest, and what is told.
type Row = (&'static [&'static str], &'static str, &'static str);

const ROWS: [Row; 5] = [
    (
        &[
            "--ask", "catalog", "--facts", "facts", "--data", "levels", "site.pp",
        ],
        DEFAULT,
        "File[/f]\n  content => \"y\"\n",
    ),
    (
        &["--ask", "catalog", "--data", "levels", "site.pp"],
        DEFAULT,
        "File[/f]\n  content => \"z\"\n",
    ),
    (
        &["--ask", "catalog", "site.pp"],
        DEFAULT,
        "File[/f]\n  content => \"x\"\n",
    ),
    (
        &["--ask", "catalog", "--facts", "facts", "site.pp"],
        DEFAULT,
        "File[/f]\n  content => \"x\"\n",
    ),
    (
        &[
            "--ask", "catalog", "--facts", "facts", "--data", "levels", "site.pp",
        ],
        GIVEN,
        "File[/f]\n  content => \"w\"\n",
    ),
];

/// What is refused, of which manifest, and the line.
const REFUSED: [Row; 3] = [
    (
        &["--data", "text", "site.pp"],
        TYPED,
        "refused 27 at 24: p\n",
    ),
    (
        &["--ask", "catalog", "--data", "text", "site.pp"],
        TYPED,
        "refused 27 at 24: p\n",
    ),
    (
        &["--data", "map", "site.pp"],
        DEFAULT,
        "refused 64 at 0: data\n",
    ),
];

/// What words give over a manifest, with facts and data beside it.
fn told_of(alloc: Global, words: &[&str], manifest: &str) -> Result<Told, Fail> {
    let over: [(&str, &[u8]); 5] = [
        ("site.pp", manifest.as_bytes()),
        ("facts", br#"{"env":"Prod"}"#),
        ("levels", LEVELS.as_bytes()),
        ("text", br#"{"levels":[{"values":{"c::p":"a"}}]}"#),
        ("map", br#"{"levels":{}}"#),
    ];
    run_over(alloc, words, &over)
}

/// A row is told so with status 0, and refused so with another.
fn is_told(alloc: Global, status: u8, row: &Row) -> Result<(), Fail> {
    let told = told_of(alloc, row.0, row.1)?;
    compare_text(alloc, &told, status, row.2, row.1)
}

/// Each row is told so with status 0, and refused so with another.
fn all_told(alloc: Global, status: u8, rows: &[Row]) -> Result<(), Fail> {
    for row in rows {
        is_told(alloc, status, row)?;
    }
    Ok(())
}

#[test]
fn parameters_of_classes(rt: HostRuntime) -> Result<(), Fail> {
    all_told(rt.alloc(), 0, &ROWS)
}

#[test]
fn data_that_are_refused(rt: HostRuntime) -> Result<(), Fail> {
    all_told(rt.alloc(), 4, &REFUSED)
}
