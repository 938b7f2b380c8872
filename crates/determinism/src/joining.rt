//! Refuted formulas, joined into one: that some of them has a model. Each stands on variables of its own, behind a variable
//! that tells that it is the one; the last clause says that it is one of them.
//!
//! These variables are selectors: each step of a part carries the opposite of its own, so a part's log ends in the unit clause
//! that it isn't this one, and these units refute the last clause. The whole is checked as any log is, so nothing has to be
//! proved of how numbers and variables move; where a fault were found, what is kept would be asked about by its order.

ghost use Rattle.std.specs.Prelude.{All, ◌≤◌, length, IfOk, IfSome};
ghost use Rattle.std.specs.Bool.{OnTrue};
ghost use Rattle.cnf.specs.Literals.{HasVariable};
ghost use Rattle.proof_check.specs.Refuted.{HasNoModel};

use cnf::{Clause, Cnf, Link, Lit, Log, Step};
use proof_check::{CheckFault, Verified, check};
use rh_base::{NoMemory, Seq};
use std::alloc::Global;

/// Where a part begins in the whole: how many variables, clauses and steps stand ahead of its own.
#[derive(Clone, Copy)]
struct Offset {
    vars: u64,
    clauses: u64,
    steps: u64,
}

/// The literal on the variables of a part.
fn moved(lit: Lit, by: u64) -> Lit {
    Lit {
        var: lit.var.saturating_add(by),
        positive: lit.positive,
    }
}

/// That it isn't this part. Its variable is the first of the part.
fn not_this(at: Offset) -> Lit {
    Lit {
        var: at.vars.saturating_add(1),
        positive: false,
    }
}

/// The offset behind a part.
fn behind(at: Offset, part: &Verified) -> Offset {
    let cnf = part.cnf();
    Offset {
        vars: at.vars.saturating_add(cnf.vars()).saturating_add(1),
        clauses: at.clauses.saturating_add(cnf.count()),
        steps: at
            .steps
            .saturating_add(part.log().steps.as_slice().len() as u64),
    }
}

/// The offset behind all parts.
fn behind_all(parts: &[Verified]) -> Offset {
    let mut at = Offset {
        vars: 0,
        clauses: 0,
        steps: 0,
    };
    for part in parts {
        at = behind(at, part);
    }
    at
}

/// Whether each literal is of one of so many variables.
fn fit(lits: &[Lit], vars: u64) -> bool
    ensures { OnTrue result (All (HasVariable vars) lits.now) }
{
    for lit in lits {
        if lit.var == 0 || lit.var > vars {
            return false;
        }
    }
    true
}

/// Adds a clause, if its variables are there.
fn add(cnf: &mut Cnf, lits: &[Lit]) -> Result<(), NoMemory> {
    if fit(lits, cnf.vars()) {
        return cnf.add(lits);
    }
    Ok(())
}

/// Adds a clause of a part, which holds where it is the one.
fn add_moved(alloc: Global, cnf: &mut Cnf, part: &Cnf, i: u64, at: Offset) -> Result<(), NoMemory>
    requires low { 1 ≤ i }
    requires high { i ≤ length part.now.clauses }
{
    let mut lits = Vec::new(alloc);
    lits.push(not_this(at))?;
    for k in 0..part.length(i) {
        lits.push(moved(part.lit(i, k), at.vars.saturating_add(1)))?;
    }
    add(cnf, &lits)
}

/// Adds the clauses of a part.
fn add_part(alloc: Global, cnf: &mut Cnf, part: &Cnf, at: Offset) -> Result<(), NoMemory> {
    for i in 0..part.count() {
        add_moved(alloc, cnf, part, i + 1, at)?;
    }
    Ok(())
}

/// The formula that some part has a model.
fn formula_of(alloc: Global, parts: &[Verified]) -> Result<Cnf, NoMemory> {
    let mut cnf = Cnf::new(alloc, behind_all(parts).vars)?;
    let mut ones = Vec::new(alloc);
    let mut at = behind_all(&[]);
    for part in parts {
        add_part(alloc, &mut cnf, part.cnf(), at)?;
        ones.push(not_this(at).opposite())?;
        at = behind(at, part);
    }
    add(&mut cnf, &ones)?;
    Ok(cnf)
}

/// The number in the whole of a clause or a step of a part, which has so many clauses; the whole has `total`.
fn moved_number(n: u64, count: u64, at: Offset, total: u64) -> u64 {
    if n <= count {
        return at.clauses.saturating_add(n);
    }
    total.saturating_add(at.steps).saturating_add(n - count)
}

/// A step of a part, from its clauses in the whole.
fn moved_step(
    alloc: Global,
    step: &Step,
    count: u64,
    at: Offset,
    total: u64,
) -> Result<Step, NoMemory> {
    let by = at.vars.saturating_add(1);
    let mut lits = Vec::new(alloc);
    lits.push(not_this(at))?;
    for lit in step.clause.lits() {
        lits.push(moved(*lit, by))?;
    }
    let mut chain = Seq::new(alloc);
    for link in step.chain.as_slice() {
        chain.push(Link {
            number: moved_number(link.number, count, at, total),
            pivot: moved(link.pivot, by),
        })?;
    }
    Ok(Step {
        clause: Clause::from_lits(alloc, &lits)?,
        start: moved_number(step.start, count, at, total),
        chain,
    })
}

/// Adds the steps of a part. The last says that it isn't this one.
fn add_steps(
    alloc: Global,
    steps: &mut Vec<Step>,
    part: &Verified,
    at: Offset,
    total: u64,
) -> Result<(), NoMemory> {
    let count = part.cnf().count();
    for step in part.log().steps.as_slice() {
        steps.push(moved_step(alloc, step, count, at, total)?)?;
    }
    Ok(())
}

/// The steps of all parts, and from their ends the empty clause.
fn log_of(alloc: Global, parts: &[Verified], total: u64) -> Result<Log, NoMemory> {
    let mut steps = Vec::new(alloc);
    let mut chain = Seq::new(alloc);
    let mut at = behind_all(&[]);
    for part in parts {
        add_steps(alloc, &mut steps, part, at, total)?;
        let pivot = not_this(at).opposite();
        at = behind(at, part);
        chain.push(Link {
            number: total.saturating_add(at.steps),
            pivot,
        })?;
    }
    steps.push(Step {
        clause: Clause::from_lits(alloc, &[])?,
        start: total,
        chain,
    })?;
    Ok(Log {
        steps: Seq::from_vec(steps),
    })
}

/// The parts as one refuted formula. None is answered where the whole isn't found right.
pub fn joined(alloc: Global, parts: &[Verified]) -> Result<Option<Verified>, NoMemory>
    ensures { IfOk result (λ found. IfSome found (λ v. HasNoModel v.formula)) }
{
    let cnf = formula_of(alloc, parts)?;
    let log = log_of(alloc, parts, cnf.count())?;
    match check(alloc, cnf, log) {
        Ok(verified) => {
            let _formula = verified.cnf();
            Ok(Some(verified))
        }
        Err(CheckFault::Bad(_)) => Ok(None),
        Err(CheckFault::Memory(m)) => Err(m),
    }
}
