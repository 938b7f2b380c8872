//! The codes with two neighbours exchanged.

ghost use Rattle.std.specs.Prelude.{◌≡◌, ◌∷◌, [], IfOk};
ghost use Rattle.fs_interpreter.specs.Meanings.{Valuation, Grows};
ghost use Rattle.order_places.specs.Places.{exchanged};
ghost use Rattle.sym_run.specs.Wires.{AreWires, circuit_meanings};
ghost use Rattle.order_circuit.specs.Codes.{AreRows, node, nodes};

use crate::picks::tells;
use bool_circuit::Wire;
use fs_interpreter::Bits;
use rh_base::{NoMemory, Seq};
use std::alloc::Global;
use sym_run::Sym;

/// The same code once more. No gate is added but a constant.
fn copy(sym: &mut Sym, code: &Seq<Wire>) -> Result<Seq<Wire>, NoMemory>
    requires { AreWires sym.old code.now }
    ensures wires { IfOk result (AreWires sym.new) }
    ensures value { IfOk result (λ same. (v : Valuation) → node sym.new v same ≡ node sym.old v code.now) }
    ensures grows { Grows (circuit_meanings sym.old) (circuit_meanings sym.new) }
{
    let sure = sym.constant(true)?;
    sym.pick(&sure, code, code)
}

/// The one that is held, or the next, comes at each place; the other is held on.
fn exchanged_behind(
    alloc: Global,
    sym: &mut Sym,
    first: &Seq<Wire>,
    rest: &[Seq<Wire>],
    place: &Seq<Wire>,
) -> Result<Seq<Seq<Wire>>, NoMemory>
    requires first { AreWires sym.old first.now }
    requires rest { AreRows sym.old rest.now }
    requires place { AreWires sym.old place.now }
    ensures rows { IfOk result (AreRows sym.new) }
    ensures value { IfOk result (λ codes. (v : Valuation)
        → nodes sym.new v codes ≡ exchanged (node sym.old v place.now)
        (node sym.old v first.now ∷ nodes sym.old v rest.now)) }
    ensures grows { Grows (circuit_meanings sym.old) (circuit_meanings sym.new) }
{
    let mut held = copy(sym, first)?;
    let mut codes = Seq::new(alloc);
    for k in 0..rest.len() {
        let here = tells(sym, k as u64, place)?;
        let next = sym.pick(&here, &rest[k], &held)?;
        held = sym.pick(&here, &held, &rest[k])?;
        codes.push(next)?;
    }
    codes.push(held)?;
    Ok(codes)
}

/// The codes with those at the place and the next exchanged.
pub fn exchanged_codes(
    alloc: Global,
    sym: &mut Sym,
    codes: &[Seq<Wire>],
    place: &Seq<Wire>,
) -> Result<Seq<Seq<Wire>>, NoMemory>
    requires codes { AreRows sym.old codes.now }
    requires place { AreWires sym.old place.now }
    ensures rows { IfOk result (AreRows sym.new) }
    ensures value { IfOk result (λ other. (v : Valuation)
        → nodes sym.new v other ≡ exchanged (node sym.old v place.now) (nodes sym.old v codes.now)) }
    ensures grows { Grows (circuit_meanings sym.old) (circuit_meanings sym.new) }
{
    match codes.split_first() {
        Some((first, rest)) => exchanged_behind(alloc, sym, first, rest, place),
        None => no_codes(alloc, sym),
    }
}

/// No codes at all.
fn no_codes(alloc: Global, sym: &mut Sym) -> Result<Seq<Seq<Wire>>, NoMemory>
    ensures none { IfOk result (λ codes. codes ≡ []) }
    ensures grows { Grows (circuit_meanings sym.old) (circuit_meanings sym.new) }
{
    let _sure = sym.constant(true)?;
    Ok(Seq::new(alloc))
}
