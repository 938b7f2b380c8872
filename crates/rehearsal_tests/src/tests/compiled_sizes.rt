//! Compiled catalogs at the limits: how many bytes, how many resources, and how large values.

use super::common::{NONE, Told, compare_err, compare_status, compare_text, push_all, run_over};
use super::compiled::push_comma;
use std::alloc::Global;
use std::test::Fail;
use test_hosts::catalog_of;
use test_rows::{joined, number_text};

const ASKED: &[&str] = &["--compiled", "c"];

const USUAL: &[&str] = &["--compiled", "c", "--limits", "usual"];

fn asked<'a>(alloc: Global, words: &[&str], catalog: &'a str) -> Result<Told, Fail> {
    run_over(alloc, words, &[("c", catalog.as_bytes()), ("empty", EMPTY)])
}

const EMPTY: &[u8] = br#"{"catalog_format":2,"resources":[],"edges":[]}"#;

/// Adds a resource of a number behind those of a list in JSON.
fn push_numbered(
    list: &mut String,
    number: &str,
    front: &str,
    parameters: &str,
) -> Result<(), Fail> {
    push_comma(list)?;
    push_all(
        list,
        &[
            "{",
            front,
            r#","title":"/f"#,
            number,
            r#"","parameters":{"#,
            parameters,
            "}}",
        ],
    )
}

/// The same, of a number that isn't a text yet.
fn push_one(
    alloc: Global,
    list: &mut String,
    number: u64,
    front: &str,
    parameters: &str,
) -> Result<(), Fail> {
    let number = number_text(alloc, number)?;
    push_numbered(list, number.as_str(), front, parameters)
}

/// So many resources of a type and a kind, each with these parameters, as they stand in JSON.
fn listed(alloc: Global, count: u32, front: &str, parameters: &str) -> Result<String, Fail> {
    let mut text = String::new(alloc);
    for i in 1..=count {
        push_one(alloc, &mut text, i as u64, front, parameters)?;
    }
    Ok(text)
}

/// The text of a compiled catalog of them.
fn many(alloc: Global, count: u32, front: &str, parameters: &str) -> Result<String, Fail> {
    let text = listed(alloc, count, front, parameters)?;
    Ok(catalog_of(alloc, text.as_str(), "")?)
}

const FILE: &str = r#""type":"File","kind":"compilable_type""#;

const CONTAINER: &str = r#""type":"D","kind":"defined_type""#;

/// Words over the text of a compiled catalog are told so with status 0, and refused so with another.
fn is_told(
    alloc: Global,
    words: &[&str],
    catalog: &str,
    status: u8,
    text: &str,
) -> Result<(), Fail> {
    let told = asked(alloc, words, catalog)?;
    compare_text(alloc, &told, status, text, text)
}

/// The words, how many of which, and what is told with status 0 or refused.
type Row = (&'static [&'static str], u32, &'static str, u8, &'static str);

const ROWS: [Row; 7] = [
    (USUAL, 257, FILE, 4, "refused 32 at 0: resources\n"),
    (
        ASKED,
        257,
        FILE,
        0,
        "resources 257\npruned 257\ndeterministic\nidempotent\nsucceeds from some tree\n",
    ),
    (ASKED, 1_025, FILE, 4, "refused 32 at 0: resources\n"),
    (USUAL, 4_096, CONTAINER, 0, NONE),
    (USUAL, 4_097, CONTAINER, 4, "refused 32 at 0: declared\n"),
    // what is declared comes first
    (USUAL, 4_097, FILE, 4, "refused 32 at 0: declared\n"),
    (ASKED, 4_097, CONTAINER, 0, NONE),
];

/// A row is told or refused so.
fn row_is_told(alloc: Global, row: &Row) -> Result<(), Fail> {
    let catalog = many(alloc, row.1, row.2, r#""content":"x""#)?;
    is_told(alloc, row.0, catalog.as_str(), row.3, row.4)
}

/// Each row is told or refused so.
fn all_told(alloc: Global, rows: &[Row]) -> Result<(), Fail> {
    for row in rows {
        row_is_told(alloc, row)?;
    }
    Ok(())
}

#[test]
fn counts_are_limited(rt: HostRuntime) -> Result<(), Fail> {
    all_told(rt.alloc(), &ROWS)
}

/// A content of so many bytes, as a parameter.
fn content(alloc: Global, length: usize) -> Result<String, Fail> {
    let text = "x".repeat(alloc, length)?;
    Ok(joined(alloc, &[r#""content":""#, text.as_str(), "\""])?)
}

/// The text of a compiled catalog of one file with a content of so many bytes.
fn with_content(alloc: Global, length: usize) -> Result<String, Fail> {
    let parameters = content(alloc, length)?;
    many(alloc, 1, FILE, parameters.as_str())
}

/// The status was this, and this stands on err.
fn tells(alloc: Global, told: &Told, status: u8, err: &str) -> Result<(), Fail> {
    compare_err(alloc, told, err, "err")?;
    compare_status(alloc, told, status, err)
}

/// The compiled catalog ends with the status, and with this on err.
fn ends_with(alloc: Global, catalog: &str, status: u8, err: &str) -> Result<(), Fail> {
    let told = asked(alloc, ASKED, catalog)?;
    tells(alloc, &told, status, err)
}

/// A content of so many bytes ends with the status, and with this on err.
fn is_limited(alloc: Global, length: usize, status: u8, err: &str) -> Result<(), Fail> {
    let text = with_content(alloc, length)?;
    ends_with(alloc, text.as_str(), status, err)
}

/// Each row: how long a content is, the status, and what is on err.
fn all_limited(alloc: Global, rows: &[(usize, u8, &str)]) -> Result<(), Fail> {
    for (length, status, err) in rows {
        is_limited(alloc, *length, *status, *err)?;
    }
    Ok(())
}

/// A text is larger by one than its bytes.
#[test]
fn values_are_limited(rt: HostRuntime) -> Result<(), Fail> {
    all_limited(
        rt.alloc(),
        &[
            (262_143, 0, ""),
            (262_144, 4, "refused 32 at 0: File[/f1] content\n"),
        ],
    )
}

/// The words over a text, how long it is, and what is refused.
type Long = (&'static [&'static str], usize, &'static str);

const LONG: [Long; 5] = [
    (ASKED, 16_777_216, "refused 65 at 0: compiled\n"),
    (ASKED, 16_777_217, "refused 17 at 0: compiled\n"),
    (
        &["--compiled", "empty", "--ask", "equal", "--other", "c"],
        16_777_217,
        "refused 17 at 0: other\n",
    ),
    (
        &["--compiled", "empty", "--assume", "c"],
        1_048_576,
        "refused 66 at 0: assume\n",
    ),
    (
        &["--compiled", "empty", "--assume", "c"],
        1_048_577,
        "refused 17 at 0: assume\n",
    ),
];

/// A row is refused so.
fn is_refused(alloc: Global, row: &Long) -> Result<(), Fail> {
    let text = " ".repeat(alloc, row.1)?;
    is_told(alloc, row.0, text.as_str(), 4, row.2)
}

/// Each row is refused so.
fn all_refused(alloc: Global, rows: &[Long]) -> Result<(), Fail> {
    for row in rows {
        is_refused(alloc, row)?;
    }
    Ok(())
}

#[test]
fn texts_that_are_long(rt: HostRuntime) -> Result<(), Fail> {
    all_refused(rt.alloc(), &LONG)
}
