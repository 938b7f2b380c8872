//! Circuits: equal gates are shared, and wires have their values.

use super::common::ask;
use bool_circuit::{Circuit, Gate, Wire};
use rh_base::NoMemory;
use std::process::Abort;
use std::test::Fail;
use test_rows::same_number;

const A: Wire = Wire(0);

const B: Wire = Wire(1);

const C: Wire = Wire(2);

const YES: Wire = Wire(3);

const NO: Wire = Wire(4);

const NOT_A: Wire = Wire(5);

const BOTH: Wire = Wire(6);

const CHOICE: Wire = Wire(7);

/// What each gate is answered with, and how many wires there are then.
const ASKED: &[(Gate, Wire, u64)] = &[
    (Gate::Input(0), A, 1),
    (Gate::Input(1), B, 2),
    (Gate::Input(2), C, 3),
    (Gate::Constant(true), YES, 4),
    (Gate::Constant(false), NO, 5),
    (Gate::Not(A), NOT_A, 6),
    (Gate::And(A, B), BOTH, 7),
    (Gate::Mux(A, B, C), CHOICE, 8),
    // from here on nothing is added: equal gates are shared, and what folds is folded
    (Gate::And(B, A), BOTH, 8),
    (Gate::Constant(true), YES, 8),
    (Gate::Not(NOT_A), A, 8),
    (Gate::Not(YES), NO, 8),
    (Gate::And(A, A), A, 8),
    (Gate::And(A, NOT_A), NO, 8),
    (Gate::And(NOT_A, A), NO, 8),
    (Gate::And(YES, A), A, 8),
    (Gate::And(A, NO), NO, 8),
    (Gate::And(A, BOTH), BOTH, 8),
    (Gate::And(BOTH, B), BOTH, 8),
    (Gate::And(NOT_A, BOTH), NO, 8),
    (Gate::Mux(B, A, A), A, 8),
    (Gate::Mux(NO, A, B), B, 8),
    (Gate::Mux(A, B, NO), BOTH, 8),
    (Gate::Mux(A, B, A), BOTH, 8),
    (Gate::Mux(A, YES, NO), A, 8),
    (Gate::Mux(A, NO, YES), NOT_A, 8),
    (Gate::Mux(A, NOT_A, YES), NOT_A, 8),
    (Gate::Mux(A, B, C), CHOICE, 8),
];

fn word(gate: &Gate) -> &'static str {
    match gate {
        Gate::Input(_) => "input",
        Gate::Constant(_) => "constant",
        Gate::Not(_) => "not",
        Gate::And(_, _) => "and",
        Gate::Mux(_, _, _) => "mux",
    }
}

fn is_answered(
    rt: &(impl Abort + AllocGlobal),
    circuit: &mut Circuit,
    row: &(Gate, Wire, u64),
) -> Result<(), Fail> {
    let (gate, wire, wires) = *row;
    let found = ask(rt, circuit, gate)?;
    same_number(rt.alloc(), word(&gate), found.0, wire.0)?;
    same_number(rt.alloc(), word(&gate), circuit.wires(), wires)
}

/// Asks for gates one after the other.
fn ask_all(
    rt: &(impl Abort + AllocGlobal),
    circuit: &mut Circuit,
    rows: &[(Gate, Wire, u64)],
) -> Result<(), Fail> {
    for row in rows {
        is_answered(rt, circuit, row)?;
    }
    Ok(())
}

/// A circuit in which all of these were asked for.
fn asked(rt: &(impl Abort + AllocGlobal)) -> Result<Circuit, Fail> {
    let mut circuit = Circuit::new(rt.alloc())?;
    ask_all(rt, &mut circuit, ASKED)?;
    Ok(circuit)
}

fn has_gate(rt: &impl Abort, circuit: &Circuit, wire: Wire, gate: Gate) {
    assert!(rt; wire.0 < circuit.wires());
    assert!(rt; circuit.gate(wire) == gate);
}

/// Each wire has its gate.
fn have_gates(rt: &impl Abort, circuit: &Circuit, rows: &[(Gate, Wire, u64)]) {
    for (gate, wire, _) in rows {
        has_gate(rt, circuit, *wire, *gate);
    }
}

/// The circuit has three inputs, and each wire the gate that was asked for first.
fn has_first_gates(rt: &impl Abort, circuit: &Circuit) {
    assert!(rt; circuit.inputs() == 3);
    have_gates(rt, circuit, ASKED.get(..8).unwrap_or(ASKED));
}

#[test]
fn equal_gates_are_shared_and_what_folds_is_folded(rt: HostRuntime) -> Result<(), Fail> {
    let circuit = asked(&rt)?;
    has_first_gates(&rt, &circuit);
    Ok(())
}

/// The and of all three inputs.
const ALL: Wire = Wire(8);

const LOOKED_THROUGH: &[(Gate, Wire, u64)] = &[
    (Gate::And(BOTH, C), ALL, 9),
    (Gate::And(A, ALL), ALL, 9),
    (Gate::And(ALL, B), ALL, 9),
    (Gate::And(NOT_A, ALL), NO, 9),
    // the opposite of all three stands in between
    (Gate::Mux(ALL, A, NO), ALL, 10),
];

#[test]
fn and_gates_are_looked_through(rt: HostRuntime) -> Result<(), Fail> {
    let mut circuit = asked(&rt)?;
    ask_all(&rt, &mut circuit, LOOKED_THROUGH)
}

/// The eight wires that are asked for first have these values.
fn has_all_values(rt: &impl Abort, circuit: &Circuit, inputs: &[bool; 3], wanted: &[bool; 8]) {
    let mut values = [true; 8];
    assert!(rt; circuit.inputs() == 3);
    assert!(rt; circuit.wires() == 8);
    circuit.value(inputs, &mut values);
    assert!(rt; values == *wanted);
}

/// The wires have these values at the inputs beside them.
fn have_values(
    rt: &(impl Abort + AllocGlobal),
    rows: &[([bool; 3], [bool; 8])],
) -> Result<(), Fail> {
    let circuit = asked(rt)?;
    for (inputs, wanted) in rows {
        has_all_values(rt, &circuit, inputs, wanted);
    }
    Ok(())
}

#[test]
fn wires_have_their_values(rt: HostRuntime) -> Result<(), Fail> {
    have_values(
        &rt,
        &[
            // a, b and c; these, true, false, not a, a and b, b where a holds and else c
            (
                [false, false, false],
                [false, false, false, true, false, true, false, false],
            ),
            (
                [false, true, true],
                [false, true, true, true, false, true, false, true],
            ),
            (
                [true, false, false],
                [true, false, false, true, false, false, false, false],
            ),
            (
                [true, true, true],
                [true, true, true, true, false, false, true, true],
            ),
        ],
    )
}

/// The wire that says whether two lists of wires are equal.
fn compared(
    rt: &impl Abort,
    circuit: &mut Circuit,
    left: &[Wire],
    right: &[Wire],
) -> Result<Wire, NoMemory> {
    let wires = circuit.wires();
    assert!(rt; left.len() == right.len());
    assert!(rt; left.iter().all(|w| w.0 < wires));
    assert!(rt; right.iter().all(|w| w.0 < wires));
    circuit.equal(left, right)
}

/// The value of a wire at the first two inputs, with the third false.
fn value_at(
    rt: &(impl Abort + AllocGlobal),
    circuit: &Circuit,
    wire: Wire,
    a: bool,
    b: bool,
) -> Result<Option<bool>, Fail> {
    let mut values = vec![in rt.alloc(); false; circuit.wires() as usize]?;
    assert!(rt; circuit.inputs() == 3);
    assert!(rt; circuit.wires() as usize == values.len());
    circuit.value(&[a, b, false], &mut values);
    Ok(values.get(wire.0 as usize).copied())
}

/// A wire has this value at the values of the first two inputs that the bits of a number are.
fn has_value(
    rt: &(impl Abort + AllocGlobal),
    circuit: &Circuit,
    wire: Wire,
    bits: usize,
    want: bool,
) -> Result<(), Fail> {
    let found = value_at(rt, circuit, wire, bits & 2 != 0, bits & 1 != 0)?;
    assert!(rt; found == Some(want));
    Ok(())
}

/// A wire has these values at the four values of the first two inputs.
fn has_values(
    rt: &(impl Abort + AllocGlobal),
    circuit: &Circuit,
    wire: Wire,
    wanted: &[bool],
) -> Result<(), Fail> {
    for (bits, want) in wanted.iter().enumerate() {
        has_value(rt, circuit, wire, bits, *want)?;
    }
    Ok(())
}

fn has_comparison(
    rt: &(impl Abort + AllocGlobal),
    circuit: &mut Circuit,
    left: &[Wire],
    right: &[Wire],
    wanted: &[bool],
) -> Result<(), Fail> {
    let equal = compared(rt, circuit, left, right)?;
    has_values(rt, circuit, equal, wanted)
}

fn is_compared(
    rt: &(impl Abort + AllocGlobal),
    left: &[Wire],
    right: &[Wire],
    wanted: &[bool],
) -> Result<(), Fail> {
    let mut circuit = asked(rt)?;
    has_comparison(rt, &mut circuit, left, right, wanted)
}

/// The comparison of the lists has the values beside them.
fn are_compared(
    rt: &(impl Abort + AllocGlobal),
    rows: &[(&[Wire], &[Wire], [bool; 4])],
) -> Result<(), Fail> {
    for (left, right, wanted) in rows {
        is_compared(rt, *left, *right, wanted)?;
    }
    Ok(())
}

#[test]
fn lists_of_wires_are_compared(rt: HostRuntime) -> Result<(), Fail> {
    are_compared(
        &rt,
        &[
            (&[A, B], &[A, B], [true, true, true, true]),
            (&[A, B], &[B, B], [true, false, false, true]),
            (&[NOT_A, YES], &[B, YES], [false, true, true, false]),
            (&[], &[], [true, true, true, true]),
        ],
    )
}
