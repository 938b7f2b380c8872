//! Reads and writes that fail.

use super::common::{Failing, compare, run_failing};
use std::alloc::Global;
use std::test::Fail;

/// The first half of a report on one resource.
const HALF: &str = "resources 1\npruned 1\ndeterministic\n";

/// The first half of the usage line.
const USAGE_HALF: &str =
    "usage: rehearsal [--facts F] [--packages P] [--node N] [--conflicts C] [--ask A] [--tree T] [--order O] [--workloa";

/// A word, the calls that fail, the status, and what stands on out and err.
type Row = (&'static str, Failing, u8, &'static str, &'static str);

fn fails(alloc: Global, row: &Row) -> Result<(), Fail> {
    let told = run_failing(alloc, &[row.0], &row.1)?;
    compare(alloc, &told, row.2, row.3, row.4, row.0)
}

fn all_fail(alloc: Global, rows: &[Row]) -> Result<(), Fail> {
    for row in rows {
        fails(alloc, row)?;
    }
    Ok(())
}

#[test]
fn the_status_of_what_fails(rt: HostRuntime) -> Result<(), Fail> {
    all_fail(
        rt.alloc(),
        &[
            ("site.pp", (&[1], &[], &[]), 6, "", "read fault: site.pp\n"),
            ("other", (&[], &[], &[]), 6, "", "read fault: other\n"),
            ("site.pp", (&[], &[1], &[]), 7, HALF, "write fault\n"),
            ("site.pp", (&[], &[1], &[1]), 7, HALF, "write "),
            ("-x", (&[], &[], &[1]), 7, "", USAGE_HALF),
            ("site.pp", (&[1], &[], &[1]), 7, "", "read fault"),
        ],
    )
}
