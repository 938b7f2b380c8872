//! What wires and codes tell, once the values of all wires are known.

ghost use Rattle.std.specs.Prelude.{◌≡◌, ◌<◌, ◌^◌, length, Option, Some, slice_get, option_map, IfOk};
ghost use Rattle.std.specs.List.{AllByRecursion};
ghost use Rattle.fs_semantics.specs.FileTree.{Entry as E};
ghost use Rattle.fs_lang.specs.Meaning.{entry_of};
ghost use Rattle.fs_interpreter.specs.Standing.{Tells};
ghost use Rattle.fs_interpreter.specs.States.{AreCells};
ghost use Rattle.bool_circuit.specs.Gates.{truth_at};
ghost use Rattle.sym_run.specs.Wires.{bit_number, number, value_meanings, told_state};

use crate::sym::Sym;
use bool_circuit::Wire;
use fs_interpreter::{Cells, Table};
use fs_lang::Entry;
use rh_base::{NoMemory, Text};
use std::alloc::Global;

/// The value of a wire as a digit.
fn digit_of(values: &[bool], wire: Wire) -> u64
    requires { wire.0 < length values.now }
    ensures { result ≡ bit_number (truth_at values.now wire.0) }
{
    if values[wire.0 as usize] { 1 } else { 0 }
}

/// The number that wires tell.
#[tactic(auto, using(crate::proofs::CircuitLaws::on_more))]
pub fn number_of(values: &[bool], wires: &[Wire]) -> u64
    requires wires { AllByRecursion (λ w. w.0 < length values.now) wires.now }
    requires small { number (truth_at values.now) wires.now < 2 ^ 64 }
    ensures { result ≡ number (truth_at values.now) wires.now }
{
    let mut n = 0;
    for wire in wires {
        n = 2 * n + digit_of(values, *wire);
    }
    n
}

/// The content with the number that wires tell.
fn text_of(alloc: Global, table: &Table, values: &[bool], wires: &[Wire]) -> Result<Text, NoMemory>
    requires wires { AllByRecursion (λ w. w.0 < length values.now) wires.now }
    requires known { number (truth_at values.now) wires.now < length table.now.contents }
    ensures { IfOk result (λ text. slice_get table.now.contents (number (truth_at values.now) wires.now) ≡ Some text) }
{
    let _count = table.content_count();
    table.content(number_of(values, wires)).copy(alloc)
}

/// The entry that the cell of a place tells.
pub(crate) fn entry_at(
    alloc: Global,
    table: &Table,
    values: &[bool],
    cells: &Cells<Sym>,
    i: usize,
) -> Result<Option<Entry>, NoMemory>
    requires cells { AreCells (value_meanings values.now) cells.now }
    requires place { i < length cells.now.present }
    requires tells { (x : Option E) × Tells table.now.contents ((told_state values.now cells.now).cell i) x }
    ensures { IfOk result (λ e. Tells table.now.contents ((told_state values.now cells.now).cell i) (option_map entry_of e)) }
{
    if !values[cells.present.at(i).0 as usize] {
        return Ok(None);
    }
    if values[cells.folder.at(i).0 as usize] {
        return Ok(Some(Entry::Folder));
    }
    let text = text_of(alloc, table, values, cells.content.at(i).as_slice())?;
    if values[cells.link.at(i).0 as usize] {
        Ok(Some(Entry::Link(text)))
    } else {
        Ok(Some(Entry::File(text)))
    }
}
