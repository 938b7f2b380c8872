//! The comparison of cells. Places with the same wires add no gates, so two runs are compared only where they may differ.

ghost use Rattle.std.specs.Prelude.{◌≡◌, ◌↔◌, ◌<◌, true, length, slice_get, IfOk, IsTrue};
ghost use Rattle.bool_circuit.specs.Gates.{wire_value};
ghost use Rattle.fs_semantics.specs.Programs.{Outcome};
ghost use Rattle.fs_interpreter.specs.Meanings.{Valuation, Grows, IsBit};
ghost use Rattle.fs_interpreter.specs.Standing.{StandsFor};
ghost use Rattle.fs_interpreter.specs.States.{AreCells, cell_at, state_of};
ghost use Rattle.sym_run.specs.Alike.{same_text, same_entry, same_cell, same_cells, same_state, HaveSameWires};
ghost use Rattle.sym_run.specs.Wires.{circuit_meanings};

use crate::bitwise::{same_bit, unless_holds, where_holds};
use crate::sym::Sym;
use bool_circuit::Wire;
use fs_interpreter::{Bits, Cells, states};
use fs_semantics::file_trees;
use path_domain::Domain;
use rh_base::{NoMemory, Seq};

fn same_text<B: Bits>(
    bits: &mut B,
    a: &Cells<B>,
    b: &Cells<B>,
    i: usize,
) -> Result<B::Bit, NoMemory>
    requires a { AreCells (B.meanings bits.old) a.now }
    requires b { AreCells (B.meanings bits.old) b.now }
    requires place { i < length a.now.present }
    requires long { length a.now.present ≡ length b.now.present }
    ensures gives { IfOk result
        (IsBit (B.meanings bits.new)
        (λ v. same_text (cell_at (B.meanings bits.old) v a.now i) (cell_at (B.meanings bits.old) v b.now i))) }
    ensures grows { Grows (B.meanings bits.old) (B.meanings bits.new) }
{
    let link = same_bit(bits, a.link.at(i), b.link.at(i))?;
    let content = bits.same(a.content.at(i), b.content.at(i))?;
    bits.and(&link, &content)
}

fn same_entry<B: Bits>(
    bits: &mut B,
    a: &Cells<B>,
    b: &Cells<B>,
    i: usize,
) -> Result<B::Bit, NoMemory>
    requires a { AreCells (B.meanings bits.old) a.now }
    requires b { AreCells (B.meanings bits.old) b.now }
    requires place { i < length a.now.present }
    requires long { length a.now.present ≡ length b.now.present }
    ensures gives { IfOk result
        (IsBit (B.meanings bits.new)
        (λ v. same_entry (cell_at (B.meanings bits.old) v a.now i) (cell_at (B.meanings bits.old) v b.now i))) }
    ensures grows { Grows (B.meanings bits.old) (B.meanings bits.new) }
{
    let text = same_text(bits, a, b, i)?;
    let below = unless_holds(bits, a.folder.at(i), &text)?;
    let folder = same_bit(bits, a.folder.at(i), b.folder.at(i))?;
    bits.and(&folder, &below)
}

/// Whether the cells of a place tell the same.
fn same_cell<B: Bits>(
    bits: &mut B,
    a: &Cells<B>,
    b: &Cells<B>,
    i: usize,
) -> Result<B::Bit, NoMemory>
    requires a { AreCells (B.meanings bits.old) a.now }
    requires b { AreCells (B.meanings bits.old) b.now }
    requires place { i < length a.now.present }
    requires long { length a.now.present ≡ length b.now.present }
    ensures gives { IfOk result
        (IsBit (B.meanings bits.new)
        (λ v. same_cell (cell_at (B.meanings bits.old) v a.now i) (cell_at (B.meanings bits.old) v b.now i))) }
    ensures grows { Grows (B.meanings bits.old) (B.meanings bits.new) }
{
    let entry = same_entry(bits, a, b, i)?;
    let there = where_holds(bits, a.present.at(i), &entry)?;
    let present = same_bit(bits, a.present.at(i), b.present.at(i))?;
    bits.and(&present, &there)
}

/// Whether the two lists have the same wire at the place.
fn has_same_wire(a: &Seq<Wire>, b: &Seq<Wire>, i: usize) -> bool
    requires a { i < length a.now }
    requires b { i < length b.now }
    ensures { IsTrue result → slice_get a.now i ≡ slice_get b.now i }
{
    *a.at(i) == *b.at(i)
}

/// Whether the two lists have the same code at the place.
fn has_same_code(a: &Seq<Seq<Wire>>, b: &Seq<Seq<Wire>>, i: usize) -> bool
    requires a { i < length a.now }
    requires b { i < length b.now }
    ensures { IsTrue result → slice_get a.now i ≡ slice_get b.now i }
{
    a.at(i).as_slice() == b.at(i).as_slice()
}

/// Whether the cells of a place have the same wires.
fn has_same_wires(a: &Cells<Sym>, b: &Cells<Sym>, i: usize) -> bool
    requires a { i < length a.now.present }
    requires a_folder { i < length a.now.folder }
    requires a_link { i < length a.now.link }
    requires a_content { i < length a.now.content }
    requires b { i < length b.now.present }
    requires b_folder { i < length b.now.folder }
    requires b_link { i < length b.now.link }
    requires b_content { i < length b.now.content }
    ensures { IsTrue result → HaveSameWires a.now b.now i }
{
    let present = has_same_wire(&a.present, &b.present, i);
    let folder = has_same_wire(&a.folder, &b.folder, i);
    let link = has_same_wire(&a.link, &b.link, i);
    let content = has_same_code(&a.content, &b.content, i);
    present && folder && link && content
}

/// Whether the cells of a place tell the same. Where they have the same wires, no gate is added but a constant.
#[tactic(auto, using(crate::proofs::AlikeLaws::same_wires))]
fn same_place(sym: &mut Sym, a: &Cells<Sym>, b: &Cells<Sym>, i: usize) -> Result<Wire, NoMemory>
    requires a { AreCells (circuit_meanings sym.old) a.now }
    requires b { AreCells (circuit_meanings sym.old) b.now }
    requires place { i < length a.now.present }
    requires long { length a.now.present ≡ length b.now.present }
    ensures gives { IfOk result
        (IsBit (circuit_meanings sym.new)
        (λ v. same_cell (cell_at (circuit_meanings sym.old) v a.now i)
        (cell_at (circuit_meanings sym.old) v b.now i))) }
    ensures grows { Grows (circuit_meanings sym.old) (circuit_meanings sym.new) }
{
    if has_same_wires(a, b, i) {
        sym.constant(true)
    } else {
        same_cell(sym, a, b, i)
    }
}

/// Whether all cells tell the same.
fn same_cells(sym: &mut Sym, a: &Cells<Sym>, b: &Cells<Sym>) -> Result<Wire, NoMemory>
    requires a { AreCells (circuit_meanings sym.old) a.now }
    requires b { AreCells (circuit_meanings sym.old) b.now }
    requires long { length a.now.present ≡ length b.now.present }
    ensures gives { IfOk result
        (IsBit (circuit_meanings sym.new)
        (λ v. same_cells (cell_at (circuit_meanings sym.old) v a.now) (cell_at (circuit_meanings sym.old) v b.now)
        (length a.now.present))) }
    ensures grows { Grows (circuit_meanings sym.old) (circuit_meanings sym.new) }
{
    let mut all = sym.constant(true)?;
    for i in 0..a.present.len() {
        let same = same_place(sym, a, b, i)?;
        all = sym.and(&all, &same)?;
    }
    Ok(all)
}

/// Whether both are Error, or neither is and all cells tell the same.
fn same_state(sym: &mut Sym, a: &Cells<Sym>, b: &Cells<Sym>) -> Result<Wire, NoMemory>
    requires a { AreCells (circuit_meanings sym.old) a.now }
    requires b { AreCells (circuit_meanings sym.old) b.now }
    requires long { length a.now.present ≡ length b.now.present }
    ensures gives { IfOk result
        (IsBit (circuit_meanings sym.new)
        (λ v. same_state (state_of (circuit_meanings sym.old) v a.now) (state_of (circuit_meanings sym.old) v b.now)
        (length a.now.present))) }
    ensures grows { Grows (circuit_meanings sym.old) (circuit_meanings sym.new) }
{
    let cells = same_cells(sym, a, b)?;
    let either = unless_holds(sym, &a.error, &cells)?;
    let error = same_bit(sym, &a.error, &b.error)?;
    sym.and(&error, &either)
}

/// Whether both cells stand for Error, or both for the same tree.
pub fn alike(
    sym: &mut Sym,
    domain: &Domain,
    a: &Cells<Sym>,
    b: &Cells<Sym>,
) -> Result<Wire, NoMemory>
    requires a { AreCells (circuit_meanings sym.old) a.now }
    requires b { AreCells (circuit_meanings sym.old) b.now }
    requires a_places { length a.now.present ≡ length domain.now.table.paths }
    requires b_places { length b.now.present ≡ length domain.now.table.paths }
    ensures wire { IfOk result (λ w. w.0 < length sym.new) }
    ensures exact { IfOk result (λ w. (v : Valuation) (o u : Outcome)
        → StandsFor domain.now.table (state_of (circuit_meanings sym.old) v a.now) o
        → StandsFor domain.now.table (state_of (circuit_meanings sym.old) v b.now) u → (wire_value sym.new v w.0 ≡ true)
        ↔ (o ≡ u)) }
    ensures grows { Grows (circuit_meanings sym.old) (circuit_meanings sym.new) }
{
    domain.table.is_table();
    states();
    file_trees();
    same_state(sym, a, b)
}
