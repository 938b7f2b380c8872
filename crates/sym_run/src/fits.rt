//! When cells stand for a tree over a table.

ghost use Rattle.std.specs.Prelude.{◌≡◌, ◌<◌, length, IfOk, IfSome};
ghost use Rattle.fs_interpreter.specs.Meanings.{Grows, IsBit};
ghost use Rattle.fs_interpreter.specs.States.{AreCells, cell_at};
ghost use Rattle.sym_run.specs.Fitting.{fits, fits_at, all_fit};
ghost use Rattle.sym_run.specs.Wires.{circuit_meanings};

use crate::below::is_below;
use crate::bitwise::{dir_at, unless_holds, where_holds};
use crate::sym::Sym;
use bool_circuit::Wire;
use fs_interpreter::{Bits, Cells, Table};
use rh_base::NoMemory;
use std::alloc::Global;

/// Whether the cell of a place fits, below what is above it.
fn fits<B: Bits>(
    bits: &mut B,
    cells: &Cells<B>,
    i: usize,
    above: Option<u64>,
    known: &B::Bit,
) -> Result<B::Bit, NoMemory>
    requires cells { AreCells (B.meanings bits.old) cells.now }
    requires place { i < length cells.now.present }
    requires above { IfSome above (λ j. j < length cells.now.present) }
    requires known { (B.meanings bits.old).owns known.now }
    ensures gives { IfOk result
        (IsBit (B.meanings bits.new)
        (λ v. fits above ((B.meanings bits.old).bit v known.now) (cell_at (B.meanings bits.old) v cells.now i)
        (cell_at (B.meanings bits.old) v cells.now))) }
    ensures grows { Grows (B.meanings bits.old) (B.meanings bits.new) }
{
    let dir = dir_at(bits, cells, above)?;
    let told = unless_holds(bits, cells.folder.at(i), known)?;
    let both = bits.and(&dir, &told)?;
    where_holds(bits, cells.present.at(i), &both)
}

/// Whether the cell of a place fits.
#[tactic(auto, using(fs_interpreter::proofs::SearchLaws::place_below, crate::proofs::CircuitLaws::circuit_grows))]
fn fits_at(
    alloc: Global,
    sym: &mut Sym,
    table: &Table,
    cells: &Cells<Sym>,
    i: u64,
) -> Result<Wire, NoMemory>
    requires cells { AreCells (circuit_meanings sym.old) cells.now }
    requires places { length cells.now.present ≡ length table.now.paths }
    requires place { i < length table.now.paths }
    ensures gives { IfOk result
        (IsBit (circuit_meanings sym.new) (λ v. fits_at table.now (cell_at (circuit_meanings sym.old) v cells.now) i)) }
    ensures grows { Grows (circuit_meanings sym.old) (circuit_meanings sym.new) }
{
    let parent = table.path(i).parent(alloc)?;
    let above = table.place(&parent);
    let known = is_below(sym, cells.content.at(i as usize), table.content_count())?;
    fits(sym, cells, i as usize, above, &known)
}

/// Whether all cells fit.
pub(crate) fn all_fit(
    alloc: Global,
    sym: &mut Sym,
    table: &Table,
    cells: &Cells<Sym>,
) -> Result<Wire, NoMemory>
    requires cells { AreCells (circuit_meanings sym.old) cells.now }
    requires places { length cells.now.present ≡ length table.now.paths }
    ensures gives { IfOk result
        (IsBit (circuit_meanings sym.new)
        (λ v. all_fit table.now (cell_at (circuit_meanings sym.old) v cells.now) (length table.now.paths))) }
    ensures grows { Grows (circuit_meanings sym.old) (circuit_meanings sym.new) }
{
    let mut all = sym.constant(true)?;
    for i in 0..table.path_count() {
        let one = fits_at(alloc, sym, table, cells, i)?;
        all = sym.and(&all, &one)?;
    }
    Ok(all)
}
