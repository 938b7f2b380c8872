//! The tree for which cells stand, once the inputs are known.

ghost use Rattle.std.specs.Prelude.{◌≡◌, length, option_map, IfSome, IfOk, OnOk};
ghost use Rattle.bool_circuit.specs.Gates.{truth_at, input_count, wire_values};
ghost use Rattle.fs_semantics.specs.FileTree.{Tree as FileTree, HasParents, IsTree, parent};
ghost use Rattle.fs_semantics.specs.Entries.{IsFreeAt, IsFolderAt};
ghost use Rattle.fs_lang.specs.Meaning.{entry_of};
ghost use Rattle.fs_interpreter.specs.Standing.{Stands};
ghost use Rattle.fs_interpreter.specs.States.{AreCells, state_of};
ghost use Rattle.fs_replay.specs.Told.{with_entry};
ghost use Rattle.sym_run.specs.Wires.{circuit_meanings, value_meanings, told_state};

use crate::sym::Sym;
use crate::values::entry_at;
use bool_circuit::Circuit;
use fs_interpreter::{Cells, Table, searches, states};
use fs_lang::{Entry, Path, Tree};
use fs_semantics::file_trees;
use path_domain::Domain;
use rh_base::NoMemory;
use std::alloc::Global;

/// Adds what stands at a path.
fn add_entry(alloc: Global, p: &Path, entry: Option<Entry>, tree: &mut Tree) -> Result<(), NoMemory>
    requires free { IsFreeAt tree.old p.now }
    requires above { IfSome entry (λ e. IsFolderAt tree.old (parent p.now)) }
    ensures { OnOk result (tree.new ≡ with_entry tree.old p.now (option_map entry_of entry)) }
{
    match entry {
        Some(entry) => tree.add(p.copy(alloc)?, entry),
        None => Ok(()),
    }
}

/// The tree for which the cells stand by these values.
fn tree_by(
    alloc: Global,
    table: &Table,
    values: &[bool],
    cells: &Cells<Sym>,
) -> Result<Tree, NoMemory>
    requires cells { AreCells (value_meanings values.now) cells.now }
    requires places { length cells.now.present ≡ length table.now.paths }
    requires stands { (t : FileTree) × Stands table.now (told_state values.now cells.now) t × HasParents t }
    ensures { IfOk result (λ tree. Stands table.now (told_state values.now cells.now) tree) }
{
    table.is_table();
    searches();
    states();
    file_trees();
    let mut tree = Tree::empty(alloc)?;
    for i in 0..table.path_count() {
        let entry = entry_at(alloc, table, values, cells, i as usize)?;
        add_entry(alloc, table.path(i), entry, &mut tree)?;
    }
    Ok(tree)
}

/// The values of all wires.
pub(crate) fn values_of(
    alloc: Global,
    circuit: &Circuit,
    inputs: &[bool],
) -> Result<Vec<bool>, NoMemory>
    requires { length inputs.now ≡ input_count circuit.now }
    ensures values { IfOk result (λ values. values.items ≡ wire_values (truth_at inputs.now) circuit.now) }
    ensures long { IfOk result (λ values. length values.items ≡ length circuit.now) }
{
    let mut values = vec![in alloc; false; circuit.wires() as usize]?;
    circuit.value(inputs, &mut values);
    Ok(values)
}

impl Sym {
    /// The tree for which the cells stand by these inputs.
    pub fn tree(
        &self,
        domain: &Domain,
        state: &Cells<Sym>,
        inputs: &[bool],
    ) -> Result<Tree, NoMemory>
        requires inputs { length inputs.now ≡ input_count self.now }
        requires cells { AreCells (circuit_meanings self.now) state.now }
        requires places { length state.now.present ≡ length domain.now.table.paths }
        requires stands { (t : FileTree) × IsTree t
            × Stands domain.now.table (state_of (circuit_meanings self.now) (truth_at inputs.now) state.now) t }
        ensures { IfOk result (λ tree. Stands domain.now.table
            (state_of (circuit_meanings self.now) (truth_at inputs.now) state.now) tree) }
    {
        let values = values_of(self.alloc, &self.circuit, inputs)?;
        tree_by(self.alloc, &domain.table, &values, state)
    }
}
