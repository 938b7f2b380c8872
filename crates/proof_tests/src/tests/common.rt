//! Gates, literals, formulas and logs, as tests state them.

use bool_circuit::{Circuit, Gate, Wire};
use cnf::{Clause, Cnf, Link, Lit, Log, Step, write_proof};
use proof_check::{Verified, check};
use rh_base::{NoMemory, Seq};
use std::alloc::Global;
use std::process::Abort;
use std::test::Fail;

/// The wire of a gate that is asked for over wires that are there.
pub fn ask(rt: &impl Abort, circuit: &mut Circuit, gate: Gate) -> Result<Wire, NoMemory> {
    let wires = circuit.wires();
    match gate {
        Gate::Input(_) => circuit.input(),
        Gate::Constant(b) => circuit.constant(b),
        Gate::Not(a) => {
            assert!(rt; a.0 < wires);
            circuit.not(a)
        }
        Gate::And(a, b) => {
            assert!(rt; a.0 < wires && b.0 < wires);
            circuit.and(a, b)
        }
        Gate::Mux(c, a, b) => {
            assert!(rt; c.0 < wires && a.0 < wires && b.0 < wires);
            circuit.mux(c, a, b)
        }
    }
}

/// The literal of a number other than 0, whose sign is the literal's.
pub fn lit(n: i8) -> Lit {
    Lit {
        var: u64::from(n.unsigned_abs()),
        positive: n > 0,
    }
}

pub fn lits(alloc: Global, numbers: &[i8]) -> Result<Vec<Lit>, NoMemory> {
    let mut lits = Vec::new(alloc);
    for n in numbers {
        lits.push(lit(*n))?;
    }
    Ok(lits)
}

/// The clause of these literals.
pub fn clause_of(alloc: Global, numbers: &[i8]) -> Result<Clause, NoMemory> {
    let lits = lits(alloc, numbers)?;
    Clause::from_lits(alloc, &lits)
}

fn add(rt: &(impl Abort + AllocGlobal), cnf: &mut Cnf, numbers: &[i8]) -> Result<(), NoMemory> {
    let clause = lits(rt.alloc(), numbers)?;
    let vars = cnf.vars();
    assert!(rt; clause.iter().all(|l| 1 <= l.var && l.var <= vars));
    cnf.add(&clause)
}

/// A formula of these clauses.
pub fn formula(
    rt: &(impl Abort + AllocGlobal),
    vars: u64,
    clauses: &[&[i8]],
) -> Result<Cnf, NoMemory> {
    let mut cnf = Cnf::new(rt.alloc(), vars)?;
    for clause in clauses {
        add(rt, &mut cnf, *clause)?;
    }
    Ok(cnf)
}

/// A step as a test states it: its clause, a first clause, and pairs of a number and a pivot.
pub type Stated = (&'static [i8], u64, &'static [(u64, i8)]);

fn chain(alloc: Global, links: &[(u64, i8)]) -> Result<Seq<Link>, NoMemory> {
    let mut chain = Seq::new(alloc);
    for (number, pivot) in links {
        chain.push(Link {
            number: *number,
            pivot: lit(*pivot),
        })?;
    }
    Ok(chain)
}

fn step(alloc: Global, stated: &Stated) -> Result<Step, NoMemory> {
    let clause = clause_of(alloc, stated.0)?;
    let chain = chain(alloc, stated.2)?;
    Ok(Step {
        clause,
        start: stated.1,
        chain,
    })
}

pub fn log(alloc: Global, stated: &[Stated]) -> Result<Log, NoMemory> {
    let mut steps = Seq::new(alloc);
    for s in stated {
        steps.push(step(alloc, s)?)?;
    }
    Ok(Log { steps })
}

/// What is proved by a log that is right.
pub fn accepted(alloc: Global, cnf: Cnf, log: Log) -> Result<Verified, Fail> {
    match check(alloc, cnf, log) {
        Ok(verified) => Ok(verified),
        Err(_) => Err("refused".into()),
    }
}

/// The text of a formula with the steps of a log.
pub fn text_of(alloc: Global, cnf: &Cnf, log: &Log) -> Result<Vec<u8>, NoMemory> {
    let mut text = Vec::new(alloc);
    write_proof(cnf, log, &mut text)?;
    Ok(text)
}

fn text_with(alloc: Global, cnf: &Cnf, steps: &[Stated]) -> Result<Vec<u8>, NoMemory> {
    let log = log(alloc, steps)?;
    text_of(alloc, cnf, &log)
}

/// The text of a formula of these clauses with these steps.
pub fn stated_text(
    rt: &(impl Abort + AllocGlobal),
    vars: u64,
    clauses: &[&[i8]],
    steps: &[Stated],
) -> Result<Vec<u8>, NoMemory> {
    let cnf = formula(rt, vars, clauses)?;
    text_with(rt.alloc(), &cnf, steps)
}

/// The bytes as a text, which they have to be.
pub fn shown(bytes: &[u8]) -> Result<&str, Fail> {
    match str::from_utf8(bytes) {
        Ok(text) => Ok(text),
        Err(_) => Err("no text".into()),
    }
}

/// Three pigeons in two holes.
pub const PIGEONS: &[&[i8]] = &[
    &[1, 2],
    &[3, 4],
    &[5, 6],
    &[-1, -3],
    &[-1, -5],
    &[-3, -5],
    &[-2, -4],
    &[-2, -6],
    &[-4, -6],
];

pub const FIRST: &[(u64, i8)] = &[(3, -6), (2, -4), (4, 3), (5, 5)];

pub const SECOND: &[(u64, i8)] = &[(3, -5), (2, -3), (8, 6), (7, 4), (1, -2), (10, 1)];
