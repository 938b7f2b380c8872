//! Words that are taken and words that are refused.

use super::common::{NONE, compare_told, run};
use std::alloc::Global;
use std::test::Fail;

const USAGE: &str =
    "usage: rehearsal [--facts F] [--packages P] [--node N] [--conflicts C] [--ask A] [--tree T] [--order O] [--workload N] [--path P] [--content T] [--other M] [--data D] [--compiled C] [--assume S] [--given G] [--limits L] [INPUT]\n";

/// Words over a file `site.pp` of these bytes give this status and text.
fn is_told(
    alloc: Global,
    bytes: &[u8],
    status: u8,
    want: &str,
    words: &[&str],
) -> Result<(), Fail> {
    let told = run(alloc, words, bytes)?;
    compare_told(alloc, &told, status, want, "words")
}

/// Each row: words, which over a file `site.pp` of these bytes all give this status and text.
fn all_told(
    alloc: Global,
    bytes: &[u8],
    status: u8,
    want: &str,
    rows: &[&[&str]],
) -> Result<(), Fail> {
    for words in rows {
        is_told(alloc, bytes, status, want, *words)?;
    }
    Ok(())
}

#[test]
fn words_that_ask_to_verify(rt: HostRuntime) -> Result<(), Fail> {
    all_told(
        rt.alloc(),
        b"",
        0,
        NONE,
        &[
            &["site.pp"],
            &["--ask", "verify", "site.pp"],
            &["--ask=verify", "site.pp"],
            &["site.pp", "--ask", "verify"],
            &["--", "site.pp"],
            &["--node", "n", "site.pp"],
            &["--conflicts", "1", "site.pp"],
            &["--conflicts=100000000", "site.pp"],
            &["--limits", "usual", "site.pp"],
            &["--limits", "host", "site.pp"],
            &["--limits=host", "--node", "n", "site.pp"],
        ],
    )
}

/// The words name a compiled catalog in the input's place.
#[test]
fn words_that_ask_about_a_catalog(rt: HostRuntime) -> Result<(), Fail> {
    all_told(
        rt.alloc(),
        br#"{"catalog_format":2,"resources":[],"edges":[]}"#,
        0,
        NONE,
        &[
            &["--compiled", "site.pp"],
            &["--compiled=site.pp", "--ask", "verify"],
            &["--compiled", "site.pp", "--limits", "usual"],
            &["--compiled", "site.pp", "--limits=host", "--conflicts", "1"],
            &["--compiled", "site.pp", "--ask", "explain"],
            &[
                "--limits",
                "host",
                "--ask",
                "verify",
                "--compiled",
                "site.pp",
            ],
            &["--compiled", "site.pp", "--"],
        ],
    )
}

/// Words of which the usage is told.
const REFUSED: [&[&str]; 81] = [
    &[],
    &["site.pp", "site.pp"],
    &["--help"],
    &["-h"],
    &["--version"],
    &["-x"],
    &["--unknown", "site.pp"],
    &["--ask", "site.pp"],
    &["--ask"],
    &["--ask", "verify"],
    &["--ask", "proof"],
    &["--ask", "proof", "--tree", "t", "site.pp"],
    &["--ask", "all", "site.pp"],
    &["--ask", "Check", "site.pp"],
    &["--ask", "verify", "--ask", "verify", "site.pp"],
    &["--tree", "t", "site.pp"],
    &["--ask", "check", "--facts", "f", "site.pp"],
    &["--ask", "catalog", "--packages", "p", "site.pp"],
    &["--ask", "graph", "--tree", "t", "site.pp"],
    &["--conflicts", "0", "site.pp"],
    &["--conflicts", "01", "site.pp"],
    &["--conflicts", "+1", "site.pp"],
    &["--conflicts", "100000001", "site.pp"],
    &["--conflicts", "1", "--ask", "graph", "site.pp"],
    &["--workload", "0"],
    &["--workload", "55"],
    &["--workload", "05"],
    &["--workload", "5", "site.pp"],
    &["--workload", "5", "--facts", "f"],
    &["--workload", "5", "--packages", "p"],
    &["--workload", "5", "--data", "d"],
    &["--workload", "5", "--node", "n"],
    &["--workload", "5", "--ask", "graph"],
    &["--workload", "5", "--ask", "replay"],
    &["--ask", "migrate", "--node", "n", "site.pp"],
    &["--order", "o", "--ask", "check", "site.pp"],
    &["--data", "d", "--ask", "migrate", "site.pp"],
    &["--ask", "repair"],
    &["--ask", "repair", "--workload", "5"],
    &["--ask", "repair", "--tree", "t", "site.pp"],
    &["--other", "old.pp", "site.pp"],
    &["--ask", "equal", "site.pp"],
    &["--ask", "equal", "--other", "old.pp"],
    &[
        "--ask", "equal", "--other", "old.pp", "--tree", "t", "site.pp",
    ],
    &[
        "--ask", "equal", "--other", "old.pp", "--path", "/a", "site.pp",
    ],
    &["--ask", "equal", "--other", "old.pp", "--workload", "5"],
    &["--limits", "big", "site.pp"],
    &["--limits", "Host", "site.pp"],
    &["--limits", "", "site.pp"],
    &["--limits", "host"],
    &["--limits", "host", "--limits", "host", "site.pp"],
    &["--limits", "host", "--ask", "check", "site.pp"],
    &["--limits", "usual", "--ask", "migrate", "site.pp"],
    &["--limits", "host", "--workload", "5"],
    &["--given", "g", "--ask", "catalog", "site.pp"],
    &["--given", "g", "--ask", "graph", "site.pp"],
    &["--given", "g", "--workload", "5"],
    &["--given", "g"],
    &["--compiled"],
    &["--compiled", "c", "site.pp"],
    &["--compiled", "c", "--compiled", "c"],
    &["--compiled", "c", "--workload", "5"],
    &["--compiled", "c", "--facts", "f"],
    &["--compiled", "c", "--data", "d"],
    &["--compiled", "c", "--node", "n"],
    &["--compiled", "c", "--ask", "check"],
    &["--compiled", "c", "--ask", "migrate"],
    &["--compiled", "c", "--ask", "equal"],
    &[
        "--compiled",
        "c",
        "--ask",
        "equal",
        "--other",
        "o",
        "site.pp",
    ],
    &["--compiled", "c", "--other", "o"],
    &["--compiled", "c", "--path", "/a"],
    &["--compiled", "c", "--tree", "t"],
    &["--compiled", "c", "--limits", "big"],
    &["--compiled", "c", "--ask", "catalog", "--packages", "p"],
    &["--compiled", "c", "--ask", "graph", "--given", "g"],
    &["--compiled", "c", "--assume", "a", "--ask", "catalog"],
    &["--compiled", "c", "--assume", "a", "--ask", "graph"],
    &["--compiled", "c", "--assume"],
    &["--assume", "a"],
    &["--assume", "a", "site.pp"],
    &["--assume", "a", "--workload", "5"],
];

#[test]
fn words_that_are_refused(rt: HostRuntime) -> Result<(), Fail> {
    all_told(rt.alloc(), b"", 5, USAGE, &REFUSED)
}
