//! Lines and columns.

use std::alloc::Global;
use std::test::Fail;
use test_rows::same_number;
use text_places::place_of;

fn is_placed(alloc: Global, text: &str, at: usize, line: usize, column: usize) -> Result<(), Fail> {
    let place = place_of(text.as_bytes(), at);
    same_number(alloc, text, place.line as u64, line as u64)?;
    same_number(alloc, text, place.column as u64, column as u64)
}

/// Each row: a text, a byte of it, and the line and column of this byte.
fn are_placed(alloc: Global, rows: &[(&str, usize, usize, usize)]) -> Result<(), Fail> {
    for (text, at, line, column) in rows {
        is_placed(alloc, *text, *at, *line, *column)?;
    }
    Ok(())
}

#[test]
fn places_of_bytes(rt: HostRuntime) -> Result<(), Fail> {
    are_placed(
        rt.alloc(),
        &[
            ("", 0usize, 1usize, 1usize),
            ("ab", 1, 1, 2),
            ("ab\ncd", 2, 1, 3),
            ("ab\ncd", 3, 2, 1),
            ("ab\ncd", 4, 2, 2),
            ("\n\n", 2, 3, 1),
            ("ü\r\nx", 3, 1, 4),
            ("ab", 9, 1, 3),
        ],
    )
}
