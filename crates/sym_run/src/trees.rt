//! Cells that stand for any tree over a domain: new inputs, and a wire that tells whether they make a tree, in which each entry
//! lies in a folder and each content is one of the domain.

ghost use Rattle.std.specs.Prelude.{◌≡◌, ◌↔◌, ◌<◌, true, ℕ, List, length, slice_get, Some, IfOk};
ghost use Rattle.std.specs.List.{AllByRecursion};
ghost use Rattle.bool_circuit.specs.Gates.{input_count, wire_value};
ghost use Rattle.fs_semantics.specs.FileTree.{Tree, Path as Segments, IsSegment, IsBytes};
ghost use Rattle.fs_interpreter.specs.Meanings.{Valuation, Grows};
ghost use Rattle.fs_interpreter.specs.Standing.{Stands};
ghost use Rattle.fs_interpreter.specs.States.{AreCells, state_of};
ghost use Rattle.sym_run.specs.Inputs.{AgreeBelow};
ghost use Rattle.sym_run.specs.Trees.{IsTreeOver};
ghost use Rattle.sym_run.specs.Wires.{circuit_meanings};

use crate::cells::input_cells;
use crate::fits::all_fit;
use crate::inputs::width_for;
use crate::sym::Sym;
use bool_circuit::Wire;
use fs_interpreter::{Cells, Table, searches, states};
use fs_semantics::file_trees;
use path_domain::Domain;
use rh_base::{NoMemory, Text};
use std::alloc::Global;

/// Each path of a table is made of segments.
pub(crate) fn paths_are_proper(table: &Table)
    ensures { (i : ℕ) (p : Segments) → slice_get table.now.paths i ≡ Some p → AllByRecursion IsSegment p }
{
    for i in 0..table.path_count() {
        let _segments = table.path(i).segments();
    }
}

/// Each byte of a text is below 256.
#[tactic(auto, using(fs_lang::proofs::Bytes::utf8_bytes))]
fn text_is_bytes(text: &Text)
    ensures { IsBytes text.now }
{
    let _text = text.as_str();
}

/// Each content of a table is of bytes.
pub(crate) fn contents_are_bytes(table: &Table)
    ensures { (i : ℕ) (c : List ℕ) → slice_get table.now.contents i ≡ Some c → IsBytes c }
{
    for i in 0..table.content_count() {
        text_is_bytes(table.content(i));
    }
}

/// Cells of new inputs, and a wire that is true under just the valuations under which they stand for a tree over the
/// domain. They can stand for each such tree, whatever the earlier inputs are.
pub fn any_tree(
    alloc: Global,
    sym: &mut Sym,
    domain: &Domain,
) -> Result<(Cells<Sym>, Wire), NoMemory>
    ensures cells { IfOk result (λ r. AreCells (circuit_meanings sym.new) r.0) }
    ensures places { IfOk result (λ r. length r.0.present ≡ length domain.now.table.paths) }
    ensures wire { IfOk result (λ r. r.1.0 < length sym.new) }
    ensures exact { IfOk result (λ r. (v : Valuation) → (wire_value sym.new v r.1.0 ≡ true)
        ↔ ((t : Tree) × IsTreeOver domain.now t
        × Stands domain.now.table (state_of (circuit_meanings sym.new) v r.0) t)) }
    ensures every { IfOk result (λ r. (u : Valuation) (t : Tree) → IsTreeOver domain.now t → (v : Valuation)
        × AgreeBelow (input_count sym.old) u v
        × Stands domain.now.table (state_of (circuit_meanings sym.new) v r.0) t) }
    ensures grows { Grows (circuit_meanings sym.old) (circuit_meanings sym.new) }
{
    domain.table.is_table();
    paths_are_proper(&domain.table);
    contents_are_bytes(&domain.table);
    searches();
    states();
    file_trees();
    let width = width_for(domain.table.content_count().saturating_sub(1));
    let cells = input_cells(alloc, sym, domain.table.path_count(), width)?;
    let well = all_fit(alloc, sym, &domain.table, &cells)?;
    Ok((cells, well))
}
