//! Codes that are less than a number: a comparator, from the lowest bit on.

ghost use Rattle.std.specs.Prelude.{◌≡◌, ◌<◌, false, length, nat_lt, IfOk};
ghost use Rattle.bool_circuit.specs.Gates.{Grows, input_count, wire_value};
ghost use Rattle.fs_interpreter.specs.Meanings.{Valuation};
ghost use Rattle.sym_run.specs.Wires.{number, AreWires};
ghost use Rattle.sym_run.specs.Numbers.{less_with, bit_less};

use crate::codes::apart;
use crate::sym::Sym;
use bool_circuit::{Circuit, Wire};
use rh_base::{NoMemory, Seq};

/// Whether the wire's bit is less than the given one, or the same and the rest holds.
fn bit_less(circuit: &mut Circuit, x: Wire, y: bool, rest: Wire) -> Result<Wire, NoMemory>
    requires x { x.0 < length circuit.old }
    requires rest { rest.0 < length circuit.old }
    ensures wire { IfOk result (λ w. w.0 < length circuit.new) }
    ensures value { IfOk result (λ w. (v : Valuation)
        → wire_value circuit.new v w.0 ≡ bit_less (wire_value circuit.old v x.0) y (wire_value circuit.old v rest.0)) }
    ensures inputs { input_count circuit.new ≡ input_count circuit.old }
    ensures grows { Grows circuit.old circuit.new }
{
    let off = circuit.not(x)?;
    if y {
        circuit.mux(off, off, rest)
    } else {
        circuit.and(off, rest)
    }
}

/// Whether the wires' number is less, or the same and the rest holds.
fn less_with(
    circuit: &mut Circuit,
    zero: Wire,
    wires: &[Wire],
    n: u64,
    rest: Wire,
) -> Result<Wire, NoMemory>
    requires zero { zero.0 < length circuit.old }
    requires off { (v : Valuation) → wire_value circuit.old v zero.0 ≡ false }
    requires wires { AreWires circuit.old wires.now }
    requires rest { rest.0 < length circuit.old }
    ensures wire { IfOk result (λ w. w.0 < length circuit.new) }
    ensures value { IfOk result (λ w. (v : Valuation)
        → wire_value circuit.new v w.0 ≡ less_with (number (wire_value circuit.old v) wires.now) n
        (wire_value circuit.old v rest.0)) }
    ensures inputs { input_count circuit.new ≡ input_count circuit.old }
    ensures grows { Grows circuit.old circuit.new }
{
    if wires.is_empty() {
        return none_less(circuit, n, rest);
    }
    let (front, last) = apart(circuit, wires, zero);
    let behind = bit_less(circuit, last, n % 2 == 1, rest)?;
    less_with(circuit, zero, front, n / 2, behind)
}

/// Whether zero is less, or the same and the rest holds.
#[tactic(auto, using(crate::proofs::NumberLaws::none_less))]
fn none_less(circuit: &mut Circuit, n: u64, rest: Wire) -> Result<Wire, NoMemory>
    requires rest { rest.0 < length circuit.old }
    ensures wire { IfOk result (λ w. w.0 < length circuit.new) }
    ensures value { IfOk result (λ w. (v : Valuation) → wire_value circuit.new v w.0 ≡ less_with 0 n (wire_value circuit.old v rest.0)) }
    ensures inputs { input_count circuit.new ≡ input_count circuit.old }
    ensures grows { Grows circuit.old circuit.new }
{
    if n == 0 {
        Ok(rest)
    } else {
        circuit.constant(true)
    }
}

fn below_wires(circuit: &mut Circuit, wires: &[Wire], n: u64) -> Result<Wire, NoMemory>
    requires wires { AreWires circuit.old wires.now }
    ensures wire { IfOk result (λ w. w.0 < length circuit.new) }
    ensures value { IfOk result (λ w. (v : Valuation)
        → wire_value circuit.new v w.0 ≡ nat_lt (number (wire_value circuit.old v) wires.now) n) }
    ensures inputs { input_count circuit.new ≡ input_count circuit.old }
    ensures grows { Grows circuit.old circuit.new }
{
    let zero = circuit.constant(false)?;
    less_with(circuit, zero, wires, n, zero)
}

/// Whether the code's number is less.
pub fn is_below(sym: &mut Sym, code: &Seq<Wire>, n: u64) -> Result<Wire, NoMemory>
    requires code { AreWires sym.old code.now }
    ensures wire { IfOk result (λ w. w.0 < length sym.new) }
    ensures value { IfOk result (λ w. (v : Valuation) → wire_value sym.new v w.0 ≡ nat_lt (number (wire_value sym.old v) code.now) n) }
    ensures inputs { input_count sym.new ≡ input_count sym.old }
    ensures grows { Grows sym.old sym.new }
{
    below_wires(&mut sym.circuit, code.as_slice(), n)
}
