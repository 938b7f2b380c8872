//! How a row that begins otherwise is named, and words around a place.

use rh_base::NoMemory;
use std::alloc::Global;
use std::test::Fail;
use test_rows::{numbered, same};

/// A failure that shows the row and what was got, where that begins otherwise.
pub fn begins(alloc: Global, row: &str, got: &str, want: &str) -> Result<(), Fail> {
    if got.starts_with(want) {
        return Ok(());
    }
    same(alloc, row, got, want)
}

/// What is told of a place between two words.
pub fn told_at(alloc: Global, front: &str, place: usize, behind: &str) -> Result<String, NoMemory> {
    numbered(alloc, front, place as u64, behind)
}
