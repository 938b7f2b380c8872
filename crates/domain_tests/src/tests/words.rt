//! Words that are appended to what is shown, and answers of yes or no.

use fs_lang::Path;
use rh_base::{NoMemory, Text};
use std::alloc::Global;
use std::test::Fail;
use test_rows::{joined, same};

/// Appends a word, apart from what stands before it.
pub(crate) fn push_word(shown: &mut Text, word: &str) -> Result<(), NoMemory> {
    if !shown.is_empty() {
        shown.push(" ")?;
    }
    shown.push(word)
}

pub(crate) fn push_path(alloc: Global, shown: &mut Text, p: &Path) -> Result<(), NoMemory> {
    let word = p.text(alloc)?;
    push_word(shown, word.as_str())
}

pub(crate) fn push_number(alloc: Global, shown: &mut Text, n: u64) -> Result<(), NoMemory> {
    let word = format!(in alloc; "{n}")?;
    push_word(shown, word.as_str())
}

/// An answer both ways round.
pub(crate) fn both(forth: bool, back: bool) -> &'static str {
    match (forth, back) {
        (true, true) => "yes",
        (false, false) => "no",
        _ => "yes one way round",
    }
}

/// Two programs get the answer that is wanted.
pub(crate) fn is_answered(
    alloc: Global,
    left: &str,
    right: &str,
    got: &str,
    want: bool,
) -> Result<(), Fail> {
    let row = joined(alloc, &[left, " and ", right])?;
    same(alloc, row.as_str(), got, both(want, want))
}
