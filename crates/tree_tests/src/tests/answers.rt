//! Answers of yes or no.

use std::alloc::Global;
use std::test::Fail;
use test_rows::{joined, same};

pub(crate) fn word(told: bool) -> &'static str {
    if told { "yes" } else { "no" }
}

/// The row of these parts gets the answer that is wanted.
pub(crate) fn is_answered(
    alloc: Global,
    parts: &[&str],
    got: bool,
    want: bool,
) -> Result<(), Fail> {
    let row = joined(alloc, parts)?;
    same(alloc, row.as_str(), word(got), word(want))
}
