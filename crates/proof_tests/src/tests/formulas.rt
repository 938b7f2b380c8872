//! Clauses, formulas, and the formula of a goal.

use super::common::{
    FIRST, PIGEONS, SECOND, ask, clause_of, formula, lit, lits, shown, stated_text,
};
use bool_circuit::{Circuit, Gate, Wire};
use cnf::{Cnf, Lit, from_circuit, from_circuit_with};
use rh_base::{NoMemory, Seq};
use std::process::Abort;
use std::test::Fail;
use test_rows::{PIGEONS as PIGEONS_TEXT, same, same_number};

/// Just these are the literals.
fn are_lits(
    rt: &(impl Abort + AllocGlobal),
    found: &[Lit],
    numbers: &[i8],
) -> Result<(), NoMemory> {
    let want = lits(rt.alloc(), numbers)?;
    assert!(rt; found == want.as_slice());
    Ok(())
}

fn is_clause(rt: &(impl Abort + AllocGlobal), given: &[i8], wanted: &[i8]) -> Result<(), NoMemory> {
    let clause = clause_of(rt.alloc(), given)?;
    are_lits(rt, clause.lits(), wanted)
}

/// The clause of each list of literals has those beside it.
fn are_clauses(rt: &(impl Abort + AllocGlobal), rows: &[(&[i8], &[i8])]) -> Result<(), Fail> {
    for (given, wanted) in rows {
        is_clause(rt, *given, *wanted)?;
    }
    Ok(())
}

#[test]
fn a_clause_is_in_order_and_has_each_literal_once(rt: HostRuntime) -> Result<(), Fail> {
    are_clauses(
        &rt,
        &[
            (&[], &[]),
            (&[3, -1, 2, 2, -1], &[-1, 2, 3]),
            (&[-2, 2, -2, 1], &[1, 2, -2]),
        ],
    )
}

fn has_length(rt: &impl Abort, cnf: &Cnf, i: u64, length: u64) {
    assert!(rt; 1 <= i && i <= cnf.count());
    assert!(rt; cnf.length(i) == length);
}

/// The clauses with these numbers have so many literals.
fn have_lengths(rt: &impl Abort, cnf: &Cnf, rows: &[(u64, u64)]) {
    for (i, length) in rows {
        has_length(rt, cnf, *i, *length);
    }
}

fn has_literal(rt: &impl Abort, cnf: &Cnf, i: u64, k: u64, number: i8) {
    assert!(rt; 1 <= i && i <= cnf.count());
    assert!(rt; k < cnf.length(i));
    assert!(rt; cnf.lit(i, k) == lit(number));
}

/// The clauses with these numbers have these literals at these places.
fn have_literals(rt: &impl Abort, cnf: &Cnf, rows: &[(u64, u64, i8)]) {
    for (i, k, number) in rows {
        has_literal(rt, cnf, *i, *k, *number);
    }
}

#[test]
fn a_formula_gives_its_clauses_back(rt: HostRuntime) -> Result<(), Fail> {
    let cnf = formula(&rt, 3, &[&[3, -1, 3], &[], &[2]])?;
    assert!(rt; cnf.vars() == 3);
    assert!(rt; cnf.count() == 3);
    have_lengths(&rt, &cnf, &[(1, 2), (2, 0), (3, 1)]);
    have_literals(&rt, &cnf, &[(1, 0, -1), (1, 1, 3), (3, 0, 2)]);
    Ok(())
}

#[test]
fn a_formula_may_have_the_most_variables(rt: HostRuntime) {
    assert!(rt; Cnf::new(rt.alloc(), 2_147_483_648).is_ok());
}

#[test]
fn a_formula_has_no_more_variables(rt: HostRuntime) {
    assert!(rt; Cnf::new(rt.alloc(), 2_147_483_649).is_err());
}

/// Whether the valuation, a bit per variable, makes a literal of the clause true.
fn is_met(rt: &impl Abort, cnf: &Cnf, valuation: u32, i: u64) -> bool {
    assert!(rt; 1 <= i && i <= cnf.count());
    for k in 0..cnf.length(i) {
        let lit = cnf.lit(i, k);
        assert!(rt; 1 <= lit.var && lit.var <= 16);
        let is = valuation >> (lit.var - 1) & 1 == 1;
        if is == lit.positive {
            return true;
        }
    }
    false
}

/// Whether the valuation makes each clause true.
fn satisfies(rt: &impl Abort, cnf: &Cnf, valuation: u32) -> bool {
    for i in 1..=cnf.count() {
        if !is_met(rt, cnf, valuation, i) {
            return false;
        }
    }
    true
}

/// Wires 0 to 8: three inputs, the opposite of the first, an and, a choice, true, an and of these, and a choice of opposites.
const GATES: &[Gate] = &[
    Gate::Input(0),
    Gate::Input(1),
    Gate::Input(2),
    Gate::Not(Wire(0)),
    Gate::And(Wire(1), Wire(3)),
    Gate::Mux(Wire(2), Wire(4), Wire(0)),
    Gate::Constant(true),
    Gate::And(Wire(4), Wire(5)),
    Gate::Mux(Wire(2), Wire(3), Wire(0)),
];

fn ask_gates(rt: &impl Abort, circuit: &mut Circuit) -> Result<(), NoMemory> {
    for gate in GATES {
        ask(rt, circuit, *gate)?;
    }
    Ok(())
}

/// The circuit of these gates.
fn circuit_of_gates(rt: &(impl Abort + AllocGlobal)) -> Result<Circuit, NoMemory> {
    let mut circuit = Circuit::new(rt.alloc())?;
    ask_gates(rt, &mut circuit)?;
    Ok(circuit)
}

/// The values of the inputs, as bits, at which some valuation that begins with them is a model.
fn inputs_with_models(rt: &impl Abort, cnf: &Cnf) -> u32 {
    let mut found = 0;
    assert!(rt; cnf.vars() <= 6);
    for valuation in 0..64 {
        if satisfies(rt, cnf, valuation) {
            found |= 1 << (valuation & 7);
        }
    }
    found
}

/// A goal in words, its wire, the inputs (a + 2 b + 4 c) that make it true, and the counts of variables and of clauses.
type Goal = (&'static str, u64, u32, u64, u64);

/// The formula has a row's models, variables and clauses.
fn has_models(rt: &(impl Abort + AllocGlobal), cnf: &Cnf, row: &Goal) -> Result<(), Fail> {
    let (words, _, wanted, vars, clauses) = *row;
    let alloc = rt.alloc();
    let found = inputs_with_models(rt, cnf);
    same_number(alloc, words, u64::from(found), u64::from(wanted))?;
    same_number(alloc, words, cnf.vars(), vars)?;
    same_number(alloc, words, cnf.count(), clauses)
}

/// The formula of a goal has its models, variables and clauses.
fn goal_has_models(
    rt: &(impl Abort + AllocGlobal),
    circuit: &Circuit,
    row: &Goal,
) -> Result<(), Fail> {
    assert!(rt; row.1 < circuit.wires());
    let cnf = from_circuit(rt.alloc(), circuit, Wire(row.1))?;
    has_models(rt, &cnf, row)
}

/// The formulas of these goals have the models beside them.
fn have_models(rt: &(impl Abort + AllocGlobal), rows: &[Goal]) -> Result<(), Fail> {
    let circuit = circuit_of_gates(rt)?;
    for row in rows {
        goal_has_models(rt, &circuit, row)?;
    }
    Ok(())
}

#[test]
fn models_begin_with_inputs_that_make_the_goal_true(rt: HostRuntime) -> Result<(), Fail> {
    have_models(
        &rt,
        &[
            ("an input", 0, 0b1010_1010, 3, 1),
            ("an opposite", 3, 0b0101_0101, 3, 1),
            ("an and", 4, 0b0100_0100, 4, 4),
            ("a choice", 5, 0b0100_1010, 5, 10),
            ("true", 6, 0b1111_1111, 4, 2),
            ("an and of a choice", 7, 0b0100_0000, 6, 13),
            ("a choice of opposites", 8, 0b0101_1010, 4, 5),
        ],
    )
}

/// Adds the opposite of the second input, on which no goal stands; and a goal.
fn ask_goal(rt: &impl Abort, circuit: &mut Circuit) -> Result<Wire, NoMemory> {
    ask(rt, circuit, Gate::Not(Wire(1)))?;
    ask(rt, circuit, Gate::And(Wire(0), Wire(1)))
}

/// The literals of wires in the formula of a goal.
fn named(
    rt: &(impl Abort + AllocGlobal),
    circuit: &Circuit,
    goal: Wire,
    wires: &[Wire],
) -> Result<Seq<Lit>, NoMemory> {
    assert!(rt; goal.0 < circuit.wires());
    let (_, literals) = from_circuit_with(rt.alloc(), circuit, goal, wires)?;
    Ok(literals)
}

fn is_named(
    rt: &(impl Abort + AllocGlobal),
    circuit: &Circuit,
    goal: Wire,
    wires: &[Wire],
    wanted: &[i8],
) -> Result<(), NoMemory> {
    let found = named(rt, circuit, goal, wires)?;
    are_lits(rt, found.as_slice(), wanted)
}

/// In the formula of a goal these wires have these literals.
fn are_named(
    rt: &(impl Abort + AllocGlobal),
    circuit: &Circuit,
    goal: Wire,
    rows: &[(&[Wire], &[i8])],
) -> Result<(), Fail> {
    for (wires, wanted) in rows {
        is_named(rt, circuit, goal, *wires, *wanted)?;
    }
    Ok(())
}

const NAMED: &[(&[Wire], &[i8])] = &[
    (&[], &[]),
    (&[Wire(1), Wire(0)], &[2, 1]),
    (&[Wire(9), Wire(3)], &[-2, -1]),
    (&[Wire(10), Wire(2), Wire(5), Wire(11)], &[4]),
];

fn goal_is_named(rt: &(impl Abort + AllocGlobal), circuit: &mut Circuit) -> Result<(), Fail> {
    let goal = ask_goal(rt, circuit)?;
    assert!(rt; goal == Wire(10));
    are_named(rt, circuit, goal, NAMED)
}

#[test]
fn wires_are_named_by_their_literals(rt: HostRuntime) -> Result<(), Fail> {
    let mut circuit = circuit_of_gates(&rt)?;
    goal_is_named(&rt, &mut circuit)
}

#[test]
fn three_pigeons_in_two_holes_are_written(rt: HostRuntime) -> Result<(), Fail> {
    let text = stated_text(&rt, 6, PIGEONS, &[(&[-1], 9, FIRST), (&[], 6, SECOND)])?;
    let block = PIGEONS_TEXT.strip_prefix("proofs 1\n").unwrap_or("?");
    same(rt.alloc(), "three pigeons", shown(&text)?, block)
}
