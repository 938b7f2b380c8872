//! Refutations of which only the steps that are used are left.

use super::common::{
    FIRST, PIGEONS, SECOND, Stated, accepted, formula, log, shown, stated_text, text_of,
};
use cnf::Cnf;
use proof_check::Verified;
use rh_base::NoMemory;
use std::alloc::Global;
use std::process::Abort;
use std::test::Fail;
use test_rows::same;
use trimmed_proofs::trimmed;

/// How many variables there are, the clauses, a log over them, and the steps that are left of it.
type Row = (
    u64,
    &'static [&'static [i8]],
    &'static [Stated],
    &'static [Stated],
);

/// All clauses of two variables.
const FOUR: &[&[i8]] = &[&[1, 2], &[-1, 2], &[1, -2], &[-1, -2]];

const PAIR: &[(u64, i8)] = &[(2, 1)];

const OTHER_PAIR: &[(u64, i8)] = &[(4, 1)];

const ROWS: &[Row] = &[
    // all are used
    (
        2,
        FOUR,
        &[(&[2], 1, PAIR), (&[-2], 3, OTHER_PAIR), (&[], 5, &[(6, 2)])],
        &[(&[2], 1, PAIR), (&[-2], 3, OTHER_PAIR), (&[], 5, &[(6, 2)])],
    ),
    (
        6,
        PIGEONS,
        &[(&[-1], 9, FIRST), (&[], 6, SECOND)],
        &[(&[-1], 9, FIRST), (&[], 6, SECOND)],
    ),
    // one in the middle isn't
    (
        2,
        FOUR,
        &[
            (&[2], 1, PAIR),
            (&[1], 1, &[(3, 2)]),
            (&[-2], 3, OTHER_PAIR),
            (&[], 5, &[(7, 2)]),
        ],
        &[(&[2], 1, PAIR), (&[-2], 3, OTHER_PAIR), (&[], 5, &[(6, 2)])],
    ),
    // nor the first, which one names that isn't used either
    (
        2,
        FOUR,
        &[
            (&[1], 1, &[(3, 2)]),
            (&[-2], 5, OTHER_PAIR),
            (&[2], 1, PAIR),
            (&[-2], 3, OTHER_PAIR),
            (&[], 7, &[(8, 2)]),
        ],
        &[(&[2], 1, PAIR), (&[-2], 3, OTHER_PAIR), (&[], 5, &[(6, 2)])],
    ),
    // what is named by a step that is used is used, also where the last step doesn't name it
    (
        2,
        FOUR,
        &[
            (&[-1], 2, &[(4, 2)]),
            (&[1], 1, &[(3, 2)]),
            (&[-2], 6, OTHER_PAIR),
            (&[2], 1, PAIR),
            (&[], 7, &[(8, -2)]),
        ],
        &[
            (&[1], 1, &[(3, 2)]),
            (&[-2], 5, OTHER_PAIR),
            (&[2], 1, PAIR),
            (&[], 6, &[(7, -2)]),
        ],
    ),
    // an empty clause ahead of the last one
    (
        2,
        FOUR,
        &[
            (&[2], 1, PAIR),
            (&[-2], 3, OTHER_PAIR),
            (&[], 5, &[(6, 2)]),
            (&[], 6, &[(5, -2)]),
        ],
        &[
            (&[2], 1, PAIR),
            (&[-2], 3, OTHER_PAIR),
            (&[], 6, &[(5, -2)]),
        ],
    ),
    // the formula has the empty clause
    (
        1,
        &[&[], &[1]],
        &[(&[1], 2, &[]), (&[], 1, &[])],
        &[(&[], 1, &[])],
    ),
    // a clause of the formula that is told once more
    (
        1,
        &[&[1], &[-1]],
        &[(&[1], 1, &[]), (&[-1], 2, &[]), (&[], 1, &[(4, 1)])],
        &[(&[-1], 2, &[]), (&[], 1, &[(3, 1)])],
    ),
];

/// What a log over a formula proves.
fn verified(alloc: Global, cnf: Cnf, steps: &[Stated]) -> Result<Verified, Fail> {
    let log = log(alloc, steps)?;
    accepted(alloc, cnf, log)
}

/// The log of a row, checked.
fn verified_row(rt: &(impl Abort + AllocGlobal), row: &Row) -> Result<Verified, Fail> {
    let cnf = formula(rt, row.0, row.1)?;
    verified(rt.alloc(), cnf, row.2)
}

/// The text of what is left of a proof.
fn text_left(alloc: Global, whole: &Verified) -> Result<Vec<u8>, NoMemory> {
    let left = trimmed(alloc, whole)?;
    text_of(alloc, left.cnf(), left.log())
}

/// The text of what is left of a row's.
fn left_text(rt: &(impl Abort + AllocGlobal), row: &Row) -> Result<Vec<u8>, Fail> {
    let whole = verified_row(rt, row)?;
    Ok(text_left(rt.alloc(), &whole)?)
}

/// Just the steps that a row has at its end are in this text.
fn has_steps(rt: &(impl Abort + AllocGlobal), row: &Row, left: &[u8]) -> Result<(), Fail> {
    let want = stated_text(rt, row.0, row.1, row.3)?;
    same(rt.alloc(), "what is left", shown(left)?, shown(&want)?)
}

fn is_left(rt: &(impl Abort + AllocGlobal), row: &Row) -> Result<(), Fail> {
    let left = left_text(rt, row)?;
    has_steps(rt, row, &left)
}

/// Of the log of each row just the steps beside it are left.
fn are_left(rt: &(impl Abort + AllocGlobal), rows: &[Row]) -> Result<(), Fail> {
    for row in rows {
        is_left(rt, row)?;
    }
    Ok(())
}

#[test]
fn only_what_is_used_is_left(rt: HostRuntime) -> Result<(), Fail> {
    are_left(&rt, ROWS)
}
