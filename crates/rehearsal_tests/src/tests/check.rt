//! Texts of proofs that are checked.

use super::common::{compare, compare_text, run};
use std::alloc::Global;
use std::test::Fail;
use test_rows::PIGEONS;

const ASKED: &[&str] = &["--ask", "check", "site.pp"];

const TURNED: &[&str] = &["site.pp", "--ask=check"];

/// A text of proofs gives the report with status 0, or the refusal with another.
fn is_checked(
    alloc: Global,
    words: &[&str],
    status: u8,
    text: &str,
    want: &str,
) -> Result<(), Fail> {
    let told = run(alloc, words, text.as_bytes())?;
    compare_text(alloc, &told, status, want, text)
}

/// Each row: a text of proofs, and the report with status 0 or the refusal with another.
fn all_checked(
    alloc: Global,
    words: &[&str],
    status: u8,
    rows: &[(&str, &str)],
) -> Result<(), Fail> {
    for (text, want) in rows {
        is_checked(alloc, words, status, *text, *want)?;
    }
    Ok(())
}

#[test]
fn proofs_that_are_verified(rt: HostRuntime) -> Result<(), Fail> {
    all_checked(
        rt.alloc(),
        ASKED,
        0,
        &[
            (PIGEONS, "verified 1\n"),
            ("proofs 0", "verified 0\n"),
            (
                "c two\nproofs 2 p cnf 1 2 1 0 -1 0 log 1 0 1 2 1 0\np cnf 0 1 0 log 1 0 1 0",
                "verified 2\n",
            ),
        ],
    )
}

/// The proof that three pigeons have no two holes, without a literal of one resolvent, is refused so.
fn cut_is_refused(alloc: Global, line: &str) -> Result<(), Fail> {
    let cut = PIGEONS.replace(alloc, "\n-1 0 9", "\n0 9")?;
    is_checked(alloc, TURNED, 4, cut.as_str(), line)
}

#[test]
fn a_resolvent_without_its_literal(rt: HostRuntime) -> Result<(), Fail> {
    cut_is_refused(rt.alloc(), "refused 81 at 0: proof 1 step 1\n")
}

#[test]
fn texts_that_are_refused(rt: HostRuntime) -> Result<(), Fail> {
    all_checked(
        rt.alloc(),
        TURNED,
        4,
        &[
            (
                "proofs 2 p cnf 1 2 1 0 -1 0 log 1 0 1 2 1 0 p cnf 1 1 1 0 log 0",
                "refused 81 at 0: proof 2 step 0\n",
            ),
            (
                "proofs 1\np cnf 1 1\n1 0\nlog 0\n",
                "refused 81 at 0: proof 1 step 0\n",
            ),
            // the clause that is named isn't earlier
            (
                "proofs 1\np cnf 1 1\n1 0\nlog 1\n0 2 0\n",
                "refused 81 at 0: proof 1 step 1\n",
            ),
            // the resolvent keeps a literal, and the formula has a model
            (
                "proofs 1\np cnf 1 2\n1 -1 0\n-1 0\nlog 1\n0 1 2 1 0\n",
                "refused 81 at 0: proof 1 step 1\n",
            ),
            // clauses are numbered from 1
            (
                "proofs 1 p cnf 1 1 1 0 log 1 0 0 0",
                "refused 81 at 0: proof 1 step 1\n",
            ),
            ("proofs", "refused 80 at 0: proof\n"),
            ("proofs 1 p cnf 1 1 1 -0 log 0", "refused 80 at 0: proof\n"),
            ("proofs +1 p cnf 1 1 1 0 log 0", "refused 80 at 0: proof\n"),
            ("proofs 1 p cnf 1 1 01 0 log 0", "refused 80 at 0: proof\n"),
            ("file { '/a': content => 'x' }", "refused 80 at 0: proof\n"),
        ],
    )
}

/// These bytes are a text of no proofs.
fn is_without_proofs(alloc: Global, text: &[u8]) -> Result<(), Fail> {
    let told = run(alloc, ASKED, text)?;
    compare(alloc, &told, 0, "verified 0\n", "", "a comment")
}

/// Each of these bytes is a text of no proofs.
fn all_without_proofs(alloc: Global, rows: &[&[u8]]) -> Result<(), Fail> {
    for text in rows {
        is_without_proofs(alloc, *text)?;
    }
    Ok(())
}

#[test]
fn only_a_line_feed_ends_a_comment(rt: HostRuntime) -> Result<(), Fail> {
    all_without_proofs(
        rt.alloc(),
        &[
            b"c \xff\nproofs 0",
            b"c a\rproofs 1\nproofs 0",
            b"proofs\r0",
        ],
    )
}
