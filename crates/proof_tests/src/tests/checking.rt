//! Proofs that are accepted, the first fault of others, and the texts of proofs.

use super::common::{FIRST, PIGEONS, SECOND, Stated, accepted, formula, log};
use cnf::{Clause, Cnf, Link, Lit, Log, Step};
use proof_check::{Bad, Cause, CheckFault, Verified, check, read_proofs};
use rh_base::{Fault, NoMemory, Seq};
use std::alloc::Global;
use std::process::Abort;
use std::test::Fail;
use test_rows::{PIGEONS as PIGEONS_TEXT, same};

/// A number and a word.
fn told(alloc: Global, number: u64, word: &str) -> Result<String, NoMemory> {
    Ok(format!(in alloc; "{number}: {word}")?)
}

/// The same, and another number behind it.
fn told_with(alloc: Global, number: u64, word: &str, other: u64) -> Result<String, NoMemory> {
    Ok(format!(in alloc; "{number}: {word} {other}")?)
}

/// The number of a step that fails, and words for the cause.
fn fault(alloc: Global, bad: &Bad) -> Result<String, NoMemory> {
    let step = bad.step;
    match &bad.cause {
        Cause::NoStep => told(alloc, step, "no step"),
        Cause::NoClause(n) => told_with(alloc, step, "no clause", *n),
        Cause::NoPivot(k) => told_with(alloc, step, "no pivot", *k),
        Cause::Resolvent(c) => told_with(alloc, step, "resolvent of", c.lits().len() as u64),
        Cause::NotEmpty => told(alloc, step, "not empty"),
    }
}

/// What the check of a log answers: the number of the first step that fails, and words for its cause.
fn answer(alloc: Global, cnf: Cnf, log: Log) -> Result<String, NoMemory> {
    match check(alloc, cnf, log) {
        Ok(_) => told(alloc, 0, "ok"),
        Err(CheckFault::Bad(bad)) => fault(alloc, &bad),
        Err(CheckFault::Memory(m)) => Err(m),
    }
}

/// How many variables there are, the clauses, a log over them, the first step that fails, and words for its cause.
type Row = (
    u64,
    &'static [&'static [i8]],
    &'static [Stated],
    &'static str,
);

/// What the check of these steps answers.
fn answer_of(alloc: Global, cnf: Cnf, steps: &[Stated]) -> Result<String, NoMemory> {
    let log = log(alloc, steps)?;
    answer(alloc, cnf, log)
}

/// What the check of a row answers.
fn checked(rt: &(impl Abort + AllocGlobal), row: &Row) -> Result<String, NoMemory> {
    let cnf = formula(rt, row.0, row.1)?;
    answer_of(rt.alloc(), cnf, row.2)
}

fn is_checked(rt: &(impl Abort + AllocGlobal), row: &Row) -> Result<(), Fail> {
    let got = checked(rt, row)?;
    same(rt.alloc(), "a log", got.as_str(), row.3)
}

/// Each log is answered so.
fn are_checked(rt: &(impl Abort + AllocGlobal), rows: &[Row]) -> Result<(), Fail> {
    for row in rows {
        is_checked(rt, row)?;
    }
    Ok(())
}

/// The proof; without its literal; without its end; with a pivot that isn't there.
const OF_PIGEONS: &[Row] = &[
    (6, PIGEONS, &[(&[-1], 9, FIRST), (&[], 6, SECOND)], "0: ok"),
    (
        6,
        PIGEONS,
        &[(&[], 9, FIRST), (&[], 6, SECOND)],
        "1: resolvent of 1",
    ),
    (6, PIGEONS, &[(&[-1], 9, FIRST)], "1: not empty"),
    (
        6,
        PIGEONS,
        &[(&[-1], 9, FIRST), (&[], 6, &[(3, -4)])],
        "2: no pivot 1",
    ),
];

#[test]
fn three_pigeons_have_no_two_holes(rt: HostRuntime) -> Result<(), Fail> {
    are_checked(&rt, OF_PIGEONS)
}

const FAULTS: &[Row] = &[
    (1, &[&[1]], &[], "0: no step"),
    // a step, and a link, that names the step itself
    (1, &[&[1]], &[(&[], 2, &[])], "1: no clause 2"),
    (1, &[&[1]], &[(&[], 1, &[(2, 1)])], "1: no clause 2"),
    (1, &[&[1]], &[(&[], 0, &[])], "1: no clause 0"),
];

#[test]
fn the_first_fault_is_named(rt: HostRuntime) -> Result<(), Fail> {
    are_checked(&rt, FAULTS)
}

const RESOLVENTS: &[Row] = &[
    (
        1,
        &[&[1, -1], &[-1]],
        &[(&[], 1, &[(2, 1)])],
        "1: resolvent of 1",
    ),
    (
        1,
        &[&[1, -1], &[-1]],
        &[(&[-1], 1, &[(2, 1)])],
        "1: not empty",
    ),
];

#[test]
fn a_resolvent_keeps_the_literal_that_is_not_taken_out(rt: HostRuntime) -> Result<(), Fail> {
    are_checked(&rt, RESOLVENTS)
}

/// How many variables the long chain has.
const LONG: u64 = 400_000;

/// Adds that a variable makes the next one hold.
fn add_next(rt: &impl Abort, cnf: &mut Cnf, var: u64) -> Result<(), NoMemory> {
    assert!(rt; cnf.vars() == LONG);
    assert!(rt; 1 <= var && var < LONG);
    let not_this = Lit {
        var,
        positive: false,
    };
    let next = Lit {
        var: var + 1,
        positive: true,
    };
    cnf.add(&[not_this, next])
}

/// Adds that the last variable doesn't hold.
fn add_last(rt: &impl Abort, cnf: &mut Cnf) -> Result<(), NoMemory> {
    assert!(rt; cnf.vars() == LONG);
    cnf.add(&[Lit {
        var: LONG,
        positive: false,
    }])
}

/// The first variable holds, each but the last makes the next one hold, and the last doesn't hold.
fn long_formula(rt: &(impl Abort + AllocGlobal)) -> Result<Cnf, NoMemory> {
    let mut cnf = formula(rt, LONG, &[&[1]])?;
    for i in 1..LONG {
        add_next(rt, &mut cnf, i)?;
    }
    add_last(rt, &mut cnf)?;
    Ok(cnf)
}

/// The links that take out one variable after the other.
fn long_chain(alloc: Global) -> Result<Seq<Link>, NoMemory> {
    let mut chain = Seq::new(alloc);
    for i in 1..LONG + 1 {
        chain.push(Link {
            number: i + 1,
            pivot: Lit {
                var: i,
                positive: true,
            },
        })?;
    }
    Ok(chain)
}

/// The log of the one step with these links.
fn log_of(alloc: Global, chain: Seq<Link>) -> Result<Log, NoMemory> {
    let clause = Clause::from_lits(alloc, &[])?;
    let mut steps = Seq::new(alloc);
    steps.push(Step {
        clause,
        start: 1,
        chain,
    })?;
    Ok(Log { steps })
}

fn long_log(alloc: Global) -> Result<Log, NoMemory> {
    let chain = long_chain(alloc)?;
    log_of(alloc, chain)
}

/// The long chain, checked.
fn long_verified(rt: &(impl Abort + AllocGlobal)) -> Result<Verified, Fail> {
    let log = long_log(rt.alloc())?;
    let cnf = long_formula(rt)?;
    accepted(rt.alloc(), cnf, log)
}

#[test]
fn a_step_may_have_four_hundred_thousand_links(rt: HostRuntime) -> Result<(), Fail> {
    let verified = long_verified(&rt)?;
    assert!(rt; verified.cnf().count() == LONG + 1);
    assert!(rt; verified.log().steps.len() == 1);
    Ok(())
}

/// What checking the last of some proofs answers.
fn check_last(alloc: Global, mut proofs: Vec<(Cnf, Log)>) -> Result<String, NoMemory> {
    match proofs.pop() {
        Some((cnf, log)) => answer(alloc, cnf, log),
        None => told(alloc, 0, "none"),
    }
}

/// What reading and checking a text of proofs answers.
fn read_and_check(alloc: Global, text: &str) -> Result<String, NoMemory> {
    match read_proofs(alloc, text.as_bytes()) {
        Ok(proofs) => check_last(alloc, proofs),
        Err(Fault::Refused(refusal)) => {
            told(alloc, u64::from(refusal.number), refusal.name.as_str())
        }
        Err(Fault::Memory(m)) => Err(m),
    }
}

fn is_read(alloc: Global, text: &str, want: &str) -> Result<(), Fail> {
    let got = read_and_check(alloc, text)?;
    same(alloc, text, got.as_str(), want)
}

/// Each row: a text, and what reading and checking it answers.
fn are_read(alloc: Global, rows: &[(&str, &str)]) -> Result<(), Fail> {
    for (text, want) in rows {
        is_read(alloc, *text, *want)?;
    }
    Ok(())
}

#[test]
fn proof_texts_are_read(rt: HostRuntime) -> Result<(), Fail> {
    are_read(
        rt.alloc(),
        &[
            ("proofs 0", "0: none"),
            // many variables, and a clause or two: what is held is small
            (
                "proofs 1\np cnf 2147483648 1\n1 0\nlog 1\n0 1 0",
                "1: resolvent of 1",
            ),
            (
                "proofs 1\np cnf 2147483648 2\n2147483648 0\n-2147483648 0\nlog 1\n0 1 2 2147483648 0",
                "0: ok",
            ),
            (
                "c a comment\n proofs 1\np cnf 1 1\n1 0\nlog 0\n",
                "0: no step",
            ),
            ("proofs 1 p cnf 1 1 1 0 log 1 0 2 0", "1: no clause 2"),
            (
                "proofs 1\np cnf 1 2\n1 -1 0\n-1 0\nlog 1\n0 1 2 1 0",
                "1: resolvent of 1",
            ),
        ],
    )
}

#[test]
fn texts_of_no_proofs(rt: HostRuntime) -> Result<(), Fail> {
    are_read(
        rt.alloc(),
        &[
            ("proofs 1\np cnf 1 9223372036854775807\n", "80: proof"),
            ("proofs 1\np cnf 9223372036854775807 0\nlog 0", "80: proof"),
            ("proofs 1\np cnf 1 1\n01 0\nlog 0", "80: proof"),
            ("proofs 1\np cnf 1 1\n-0 0\nlog 0", "80: proof"),
            ("proofs 1\np cnf 1 1\n2 0\nlog 0", "80: proof"),
            ("proofs 1\np cnf 1 1\n1 0\nlog 0 0", "80: proof"),
            ("proofs", "80: proof"),
            ("", "80: proof"),
        ],
    )
}

#[test]
fn the_text_of_three_pigeons_is_read(rt: HostRuntime) -> Result<(), Fail> {
    are_read(rt.alloc(), &[(PIGEONS_TEXT, "0: ok")])
}

#[test]
fn a_text_without_a_literal_is_no_proof(rt: HostRuntime) -> Result<(), Fail> {
    let text = PIGEONS_TEXT.replace(rt.alloc(), "\n-1 0 9", "\n0 9")?;
    are_read(rt.alloc(), &[(text.as_str(), "1: resolvent of 1")])
}
