//! Rows of inputs.

ghost use Rattle.std.specs.Prelude.{◌≡◌, ℕ, ◌+◌, ◌*◌, ◌<◌, ◌≤◌, List, Some, length, slice_get, IfOk, OnOk};
ghost use Rattle.std.specs.List.{AllByRecursion};
ghost use Rattle.bool_circuit.specs.Gates.{Grows, input_count, wire_value};
ghost use Rattle.bool_circuit.specs.declared.gate.Wire.{Wire};
ghost use Rattle.fs_interpreter.specs.Meanings.{Valuation};
ghost use Rattle.sym_run.specs.Inputs.{AreInputs, AreInputRows, AgreeOutside};
ghost use Rattle.sym_run.specs.Wires.{number, AreWires};
ghost use Rattle.sym_run.specs.Numbers.{twice};

use crate::sym::Sym;
use bool_circuit::Wire;
use rh_base::{NoMemory, Seq};
use std::alloc::Global;

/// So many bits tell each number up to m, and fewer don't.
#[tactic(auto, using(crate::proofs::NumberLaws::width_more, crate::proofs::NumberLaws::width_least))]
pub fn width_for(m: u64) -> u64
    ensures enough { m < twice result }
    ensures least { (w : ℕ) → m < twice w → result ≤ w }
    ensures small { result ≤ m }
{
    if m == 0 { 0 } else { width_for(m / 2) + 1 }
}

/// So many new inputs.
pub(crate) fn new_inputs(alloc: Global, sym: &mut Sym, n: u64) -> Result<Seq<Wire>, NoMemory>
    ensures long { IfOk result (λ ws. length ws ≡ n) }
    ensures inputs { IfOk result (λ ws. AreInputs sym.new (input_count sym.old) ws) }
    ensures count { OnOk result (input_count sym.new ≡ input_count sym.old + n) }
    ensures grows { Grows sym.old sym.new }
{
    let mut wires = Seq::new(alloc);
    for _turn in 0..n {
        let wire = sym.input()?;
        wires.push(wire)?;
    }
    Ok(wires)
}

/// So many rows of new inputs, each of this width.
pub(crate) fn new_rows(
    alloc: Global,
    sym: &mut Sym,
    n: u64,
    width: u64,
) -> Result<Seq<Seq<Wire>>, NoMemory>
    ensures long { IfOk result (λ rows. length rows ≡ n) }
    ensures rows { IfOk result (λ rows. AreInputRows sym.new width (input_count sym.old) rows) }
    ensures count { OnOk result (input_count sym.new ≡ input_count sym.old + n * width) }
    ensures grows { Grows sym.old sym.new }
{
    let mut rows = Seq::new(alloc);
    for _turn in 0..n {
        let row = new_inputs(alloc, sym, width)?;
        rows.push(row)?;
    }
    Ok(rows)
}

/// A code of new inputs, which can tell each number of its width, whatever the other inputs are, and tells the same wherever
/// these inputs are the same.
pub fn new_code(alloc: Global, sym: &mut Sym, width: u64) -> Result<Seq<Wire>, NoMemory>
    ensures wires { IfOk result (AreWires sym.new) }
    ensures every { IfOk result (λ ws. (u : Valuation) (x : ℕ) → x < twice width → (v : Valuation)
        × AgreeOutside (input_count sym.old) (input_count sym.new) u v × (number (wire_value sym.new v) ws ≡ x)) }
    ensures same { IfOk result (λ ws. (u v : Valuation)
        → ((i : ℕ) → input_count sym.old ≤ i → i < input_count sym.new → u i ≡ v i)
        → number (wire_value sym.new u) ws ≡ number (wire_value sym.new v) ws) }
    ensures grows { Grows sym.old sym.new }
{
    let code = new_inputs(alloc, sym, width)?;
    Ok(code)
}

/// So many codes of new inputs, which can tell all numbers of their width, whatever the other inputs are, and tell the same
/// wherever these inputs are the same.
pub fn new_codes(
    alloc: Global,
    sym: &mut Sym,
    n: u64,
    width: u64,
) -> Result<Seq<Seq<Wire>>, NoMemory>
    ensures long { IfOk result (λ rows. length rows ≡ n) }
    ensures wires { IfOk result (λ rows. AllByRecursion (AreWires sym.new) rows) }
    ensures every { IfOk result (λ rows. (u : Valuation) (want : ℕ → ℕ) → ((i : ℕ) → i < n → want i < twice width)
        → (v : Valuation) × AgreeOutside (input_count sym.old) (input_count sym.new) u v
        × ((i : ℕ) (ws : List Wire) → slice_get rows i ≡ Some ws → number (wire_value sym.new v) ws ≡ want i)) }
    ensures same { IfOk result (λ rows. (u v : Valuation)
        → ((i : ℕ) → input_count sym.old ≤ i → i < input_count sym.new → u i ≡ v i) → (i : ℕ) (ws : List Wire)
        → slice_get rows i ≡ Some ws → number (wire_value sym.new u) ws ≡ number (wire_value sym.new v) ws) }
    ensures grows { Grows sym.old sym.new }
{
    let codes = new_rows(alloc, sym, n, width)?;
    Ok(codes)
}
