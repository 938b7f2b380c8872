//! Formulas as DIMACS texts, and what the solver answers.

use cnf::{Cnf, Log};
use proof_check::{Bad, Cause, CheckFault, check, read_proofs};
use rh_base::NoMemory;
use sat_solver::{Found, solve};
use std::alloc::Global;
use std::process::Abort;
use std::test::Fail;
use test_rows::{joined, same};

/// Three pigeons in two holes.
const PIGEONS: &str = "p cnf 6 9
1 2 0 3 4 0 5 6 0
-1 -3 0 -1 -5 0 -3 -5 0
-2 -4 0 -2 -6 0 -4 -6 0";

/// The formula of a text of proofs.
fn read(alloc: Global, text: &str) -> Result<Cnf, Fail> {
    let Ok(mut proofs) = read_proofs(alloc, text.as_bytes()) else {
        return Err("no formula".into());
    };
    match proofs.pop() {
        Some((cnf, _)) => Ok(cnf),
        None => Err("no formula".into()),
    }
}

/// The formula of a text.
fn formula(alloc: Global, text: &str) -> Result<Cnf, Fail> {
    let proofs = joined(alloc, &["proofs 1\n", text, "\nlog 0\n"])?;
    read(alloc, proofs.as_str())
}

/// Whether some literal of the clause with this number is true.
fn is_met(rt: &impl Abort, cnf: &Cnf, values: &[bool], i: u64) -> bool {
    assert!(rt; 1 <= i && i <= cnf.count());
    for k in 0..cnf.length(i) {
        let lit = cnf.lit(i, k);
        assert!(rt; 1 <= lit.var);
        if values.get((lit.var - 1) as usize) == Some(&lit.positive) {
            return true;
        }
    }
    false
}

/// Whether the values make the formula true.
fn satisfies(rt: &impl Abort, cnf: &Cnf, values: &[bool]) -> bool {
    if values.len() as u64 != cnf.vars() {
        return false;
    }
    for i in 1..=cnf.count() {
        if !is_met(rt, cnf, values, i) {
            return false;
        }
    }
    true
}

/// What is wrong with a log, in a word: of the steps that are right without an empty one at the end, how many.
fn wrong(alloc: Global, name: &str, bad: &Bad) -> Result<String, NoMemory> {
    let step = bad.step;
    match bad.cause {
        Cause::NotEmpty => Ok(format!(in alloc; "{name}, {step} right")?),
        _ => joined(alloc, &[name, ", wrong"]),
    }
}

/// What the checker says of a log, in a word.
fn checked(alloc: Global, cnf: Cnf, log: Log, name: &str) -> Result<String, NoMemory> {
    match check(alloc, cnf, log) {
        Ok(_) => joined(alloc, &[name, ", accepted"]),
        Err(CheckFault::Bad(bad)) => wrong(alloc, name, &bad),
        Err(CheckFault::Memory(m)) => Err(m),
    }
}

/// Whether the values make the formula true, in words.
fn told_model(
    rt: &(impl Abort + AllocGlobal),
    cnf: &Cnf,
    values: &[bool],
) -> Result<String, NoMemory> {
    let holds = if satisfies(rt, cnf, values) {
        "true"
    } else {
        "false"
    };
    joined(rt.alloc(), &["model: ", holds])
}

/// What the solver found, in words.
fn told(rt: &(impl Abort + AllocGlobal), cnf: Cnf, found: Found) -> Result<String, NoMemory> {
    match found {
        Found::Refuted(log) => checked(rt.alloc(), cnf, log, "refuted"),
        Found::Spent(log) => checked(rt.alloc(), cnf, log, "spent"),
        Found::Model(values) => told_model(rt, &cnf, values.as_slice()),
    }
}

/// What the solver answers of a formula, in words.
fn solved(rt: &(impl Abort + AllocGlobal), cnf: Cnf, budget: u64) -> Result<String, NoMemory> {
    assert!(rt; 1 <= budget);
    let found = solve(rt.alloc(), &cnf, budget)?;
    told(rt, cnf, found)
}

/// What the solver answers of the formula of a text, in words.
fn answer(rt: &(impl Abort + AllocGlobal), text: &str, budget: u64) -> Result<String, Fail> {
    let cnf = formula(rt.alloc(), text)?;
    Ok(solved(rt, cnf, budget)?)
}

fn is_answered(
    rt: &(impl Abort + AllocGlobal),
    budget: u64,
    text: &str,
    want: &str,
) -> Result<(), Fail> {
    let got = answer(rt, text, budget)?;
    same(rt.alloc(), text, got.as_str(), want)
}

/// Each row: the text of a formula, and what is answered of it within the budget.
fn are_answered(
    rt: &(impl Abort + AllocGlobal),
    budget: u64,
    rows: &[(&str, &str)],
) -> Result<(), Fail> {
    for (text, want) in rows {
        is_answered(rt, budget, *text, *want)?;
    }
    Ok(())
}

/// Four pigeons in three holes.
const MORE_PIGEONS: &str = "p cnf 12 22
1 2 3 0 4 5 6 0 7 8 9 0 10 11 12 0
-1 -4 0 -1 -7 0 -1 -10 0 -4 -7 0 -4 -10 0 -7 -10 0
-2 -5 0 -2 -8 0 -2 -11 0 -5 -8 0 -5 -11 0 -8 -11 0
-3 -6 0 -3 -9 0 -3 -12 0 -6 -9 0 -6 -12 0 -9 -12 0";

/// Formulas that have a model, and that have none.
const ANSWERED: [(&str, &str); 17] = [
    ("p cnf 0 0", "model: true"),
    ("p cnf 3 0", "model: true"),
    ("p cnf 0 1\n0", "refuted, accepted"),
    ("p cnf 2 3\n1 2 0 0 -1 0", "refuted, accepted"),
    // units
    ("p cnf 3 3\n1 0 -2 0 3 0", "model: true"),
    ("p cnf 1 2\n1 0 -1 0", "refuted, accepted"),
    ("p cnf 2 4\n1 0 1 0 -1 2 0 -2 0", "refuted, accepted"),
    // literals in any order and repeated
    ("p cnf 2 3\n2 1 2 0 -1 2 -1 0 1 -2 1 0", "model: true"),
    // a variable and its opposite
    ("p cnf 1 1\n1 -1 0", "model: true"),
    ("p cnf 2 4\n1 -1 0 2 -2 1 0 -1 0 -2 0", "model: true"),
    ("p cnf 1 3\n1 -1 0 1 0 -1 0", "refuted, accepted"),
    // all signs of two variables, and all but one
    (
        "p cnf 2 4\n1 2 0 -1 2 0 1 -2 0 -1 -2 0",
        "refuted, accepted",
    ),
    ("p cnf 2 3\n1 2 0 -1 2 0 1 -2 0", "model: true"),
    // of three variables each two differ
    (
        "p cnf 3 6\n1 2 0 -1 -2 0 2 3 0 -2 -3 0 1 3 0 -1 -3 0",
        "refuted, accepted",
    ),
    // three pigeons in two holes, and in three
    (PIGEONS, "refuted, accepted"),
    (MORE_PIGEONS, "refuted, accepted"),
    (
        "p cnf 9 12\n1 2 3 0 4 5 6 0 7 8 9 0 -1 -4 0 -1 -7 0 -4 -7 0\n-2 -5 0 -2 -8 0 -5 -8 0 -3 -6 0 -3 -9 0 -6 -9 0",
        "model: true",
    ),
];

#[test]
fn formulas_are_answered(rt: HostRuntime) -> Result<(), Fail> {
    are_answered(&rt, 1_000, &ANSWERED)
}

#[test]
fn formulas_are_answered_within_any_budget(rt: HostRuntime) -> Result<(), Fail> {
    are_answered(&rt, u64::MAX, &ANSWERED)
}

#[test]
fn a_budget_is_spent(rt: HostRuntime) -> Result<(), Fail> {
    are_answered(
        &rt,
        1,
        &[
            (PIGEONS, "spent, 1 right"),
            // the empty clause alone is one step
            ("p cnf 1 2\n1 0 -1 0", "refuted, accepted"),
            ("p cnf 2 4\n1 2 0 -1 2 0 1 -2 0 -1 -2 0", "spent, 1 right"),
        ],
    )
}

#[test]
fn two_steps_are_enough(rt: HostRuntime) -> Result<(), Fail> {
    are_answered(
        &rt,
        2,
        &[(
            "p cnf 2 4\n1 2 0 -1 2 0 1 -2 0 -1 -2 0",
            "refuted, accepted",
        )],
    )
}

#[test]
fn a_thousand_steps_are_enough(rt: HostRuntime) -> Result<(), Fail> {
    are_answered(&rt, 1_000, &[(PIGEONS, "refuted, accepted")])
}

/// How many variables the chain has but for its last.
const LONG: u64 = 400_000;

/// Each variable of the chain makes the next one hold, the last of these clauses first.
fn long_chain(alloc: Global) -> Result<String, Fail> {
    let mut clauses = String::new(alloc);
    for i in (1..LONG).rev() {
        let clause = format!(in alloc; "-{i} {} 0\n", i + 1)?;
        clauses.push_str(clause.as_str())?;
    }
    Ok(clauses)
}

/// The text of the chain, whose first variable holds and whose last is called for and ruled out.
fn long_text(alloc: Global) -> Result<String, Fail> {
    let chain = long_chain(alloc)?;
    let (last, count) = (LONG + 1, LONG + 2);
    Ok(format!(in alloc; "p cnf {last} {count}\n{chain}1 0\n-{LONG} {last} 0\n-{LONG} -{last} 0")?)
}

#[test]
fn a_chain_is_followed_from_its_last_clause(rt: HostRuntime) -> Result<(), Fail> {
    let text = long_text(rt.alloc())?;
    let got = answer(&rt, text.as_str(), 1_000_000)?;
    same(
        rt.alloc(),
        "a long chain",
        got.as_str(),
        "refuted, accepted",
    )
}
