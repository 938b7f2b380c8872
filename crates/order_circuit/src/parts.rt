//! The node at a place of an order, and what stands ahead of the place or from it on. A code outside of the part gives way to a
//! number that no program has, so that nothing runs there.

ghost use Rattle.std.specs.Prelude.{◌≡◌, ◌<◌, map, length, slice_index_or, if◌then◌else◌, IfOk};
ghost use Rattle.bool_circuit.specs.Gates.{wire_value};
ghost use Rattle.fs_semantics.specs.Programs.{Outcome, and_then};
ghost use Rattle.fs_semantics.specs.Orders.{outcome};
ghost use Rattle.fs_lang.specs.Meaning.{program_of, programs_in};
ghost use Rattle.fs_interpreter.specs.Meanings.{Valuation, Grows};
ghost use Rattle.fs_interpreter.specs.Places.{CoversSteps};
ghost use Rattle.fs_interpreter.specs.Standing.{StandsFor};
ghost use Rattle.fs_interpreter.specs.States.{AreCells, state_of};
ghost use Rattle.sym_run.specs.Wires.{AreWires, circuit_meanings};
ghost use Rattle.order_circuit.specs.Codes.{AreRows, node, nodes, part_of, kept_from};

use crate::picks::tells;
use crate::runs::run_in_order;
use bool_circuit::Wire;
use fs_interpreter::{Bits, Cells};
use fs_lang::Program;
use path_domain::Domain;
use rh_base::{NoMemory, Seq};
use std::alloc::Global;
use sym_run::{Sym, is_below};

/// The codes of an order of which those ahead of a place are meant, or those from it on.
#[derive(Drop)]
pub struct Part<'a> {
    pub codes: &'a [Seq<Wire>],
    pub place: &'a Seq<Wire>,
    pub ahead: bool,
}

/// The code at a place.
pub fn code_at(sym: &mut Sym, codes: &[Seq<Wire>], place: &Seq<Wire>) -> Result<Seq<Wire>, NoMemory>
    requires codes { AreRows sym.old codes.now }
    requires place { AreWires sym.old place.now }
    ensures wires { IfOk result (AreWires sym.new) }
    ensures value { IfOk result (λ code. (v : Valuation)
        → node sym.new v code ≡ slice_index_or (nodes sym.old v codes.now) (node sym.old v place.now) 0) }
    ensures grows { Grows (circuit_meanings sym.old) (circuit_meanings sym.new) }
{
    let mut chosen = sym.code(0)?;
    for k in 0..codes.len() {
        let here = tells(sym, k as u64, place)?;
        chosen = sym.pick(&here, &codes[k], &chosen)?;
    }
    Ok(chosen)
}

/// The code where it is in the part, else one for the number.
fn kept_code(
    sym: &mut Sym,
    code: &Seq<Wire>,
    reached: &Wire,
    blank: u64,
    ahead: bool,
) -> Result<Seq<Wire>, NoMemory>
    requires code { AreWires sym.old code.now }
    requires reached { reached.now.0 < length sym.old }
    ensures wires { IfOk result (AreWires sym.new) }
    ensures value { IfOk result (λ kept. (v : Valuation)
        → node sym.new v kept ≡ (if wire_value sym.old v reached.now.0 then
        (if ahead then blank else node sym.old v code.now) else (if ahead then node sym.old v code.now else blank))) }
    ensures grows { Grows (circuit_meanings sym.old) (circuit_meanings sym.new) }
{
    let none = sym.code(blank)?;
    if ahead {
        sym.pick(reached, &none, code)
    } else {
        sym.pick(reached, code, &none)
    }
}

/// The codes, of which those that aren't in the part give way to one for the number.
fn kept_codes(
    alloc: Global,
    sym: &mut Sym,
    part: &Part<'_>,
    blank: u64,
) -> Result<Seq<Seq<Wire>>, NoMemory>
    requires codes { AreRows sym.old part.now.codes.now }
    requires place { AreWires sym.old part.now.place.now }
    ensures rows { IfOk result (AreRows sym.new) }
    ensures value { IfOk result (λ kept. (v : Valuation) → nodes sym.new v kept ≡ kept_from part.now.ahead blank
        (node sym.old v part.now.place.now) 0 (nodes sym.old v part.now.codes.now)) }
    ensures grows { Grows (circuit_meanings sym.old) (circuit_meanings sym.new) }
{
    let codes = part.codes;
    let mut kept = Seq::new(alloc);
    for k in 0..codes.len() {
        let reached = is_below(sym, part.place, k as u64 + 1)?;
        let one = kept_code(sym, &codes[k], &reached, blank, part.ahead)?;
        kept.push(one)?;
    }
    Ok(kept)
}

/// What the programs make of the cells in the part of an order.
pub fn run_part(
    alloc: Global,
    sym: &mut Sym,
    domain: &Domain,
    programs: &[Program],
    part: &Part<'_>,
    start: &Cells<Sym>,
) -> Result<Cells<Sym>, NoMemory>
    requires codes { AreRows sym.old part.now.codes.now }
    requires place { AreWires sym.old part.now.place.now }
    requires cells { AreCells (circuit_meanings sym.old) start.now }
    requires places { length start.now.present ≡ length domain.now.table.paths }
    requires covers { CoversSteps domain.now.table (programs_in programs.now) }
    ensures cells { IfOk result (AreCells (circuit_meanings sym.new)) }
    ensures places { IfOk result (λ made. length made.present ≡ length domain.now.table.paths) }
    ensures stands { IfOk result (λ made. (v : Valuation) (o : Outcome)
        → StandsFor domain.now.table (state_of (circuit_meanings sym.old) v start.now) o
        → StandsFor domain.now.table (state_of (circuit_meanings sym.new) v made)
        (and_then o (outcome (map program_of programs.now)
        (part_of part.now.ahead (node sym.old v part.now.place.now) (nodes sym.old v part.now.codes.now))))) }
    ensures grows { Grows (circuit_meanings sym.old) (circuit_meanings sym.new) }
{
    let kept = kept_codes(alloc, sym, part, programs.len() as u64)?;
    run_in_order(alloc, sym, domain, programs, kept.as_slice(), start)
}
