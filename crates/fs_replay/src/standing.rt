//! Cells that stand for a tree, made of it and read back.

ghost use Rattle.std.specs.Prelude.{◌≡◌, ◌<◌, ◌++◌, ◌∷◌, [], false, length, option_map, IfSome, IfOk, OnOk};
ghost use Rattle.fs_semantics.specs.FileTree.{Tree as FileTree, HasParents, parent};
ghost use Rattle.fs_semantics.specs.Entries.{IsFreeAt, IsFolderAt};
ghost use Rattle.fs_lang.specs.Meaning.{entry_of};
ghost use Rattle.fs_interpreter.specs.Meanings.{plain_meanings};
ghost use Rattle.fs_interpreter.specs.States.{AreCells};
ghost use Rattle.fs_interpreter.specs.Standing.{Stands};
ghost use Rattle.fs_replay.specs.Told.{HasTree, plain_state, with_entry};

use crate::told::{Told, entry_told, told_at, told_of};
use fs_interpreter::{Cells, Plain, Table, searches, states};
use fs_lang::{Entry, Path, Tree};
use fs_semantics::file_trees;
use rh_base::{NoMemory, Seq};
use std::alloc::Global;

fn push_told(cells: &mut Cells<Plain>, told: Told) -> Result<(), NoMemory>
    ensures present { OnOk result (cells.new.present ≡ cells.old.present ++ told.present ∷ []) }
    ensures folder { OnOk result (cells.new.folder ≡ cells.old.folder ++ told.folder ∷ []) }
    ensures link { OnOk result (cells.new.link ≡ cells.old.link ++ told.link ∷ []) }
    ensures content { OnOk result (cells.new.content ≡ cells.old.content ++ told.content ∷ []) }
    ensures error { OnOk result (cells.new.error ≡ cells.old.error) }
{
    cells.present.push(told.present)?;
    cells.folder.push(told.folder)?;
    cells.link.push(told.link)?;
    cells.content.push(told.content)
}

/// Cells that stand for a tree whose paths and contents are in the table.
pub(crate) fn cells_of(alloc: Global, table: &Table, tree: &Tree) -> Result<Cells<Plain>, NoMemory>
    requires { HasTree table.now tree.now }
    ensures cells { IfOk result (λ cells. AreCells plain_meanings cells) }
    ensures places { IfOk result (λ cells. length cells.present ≡ length table.now.paths) }
    ensures stands { IfOk result (λ cells. Stands table.now (plain_state cells) tree.now) }
{
    tree.is_tree();
    let mut cells = Cells {
        present: Seq::new(alloc),
        folder: Seq::new(alloc),
        link: Seq::new(alloc),
        content: Seq::new(alloc),
        error: false,
    };
    for i in 0..table.path_count() {
        let told = told_of(table, tree, table.path(i));
        push_told(&mut cells, told)?;
    }
    Ok(cells)
}

/// Adds what stands at a path.
fn add_entry(alloc: Global, p: &Path, entry: Option<Entry>, tree: &mut Tree) -> Result<(), NoMemory>
    requires free { IsFreeAt tree.old p.now }
    requires above { IfSome entry (λ e. IsFolderAt tree.old (parent p.now)) }
    ensures { OnOk result (tree.new ≡ with_entry tree.old p.now (option_map entry_of entry)) }
{
    match entry {
        Some(entry) => tree.add(p.copy(alloc)?, entry),
        None => Ok(()),
    }
}

/// The tree for which the cells stand.
pub(crate) fn tree_of(alloc: Global, table: &Table, cells: &Cells<Plain>) -> Result<Tree, NoMemory>
    requires cells { AreCells plain_meanings cells.now }
    requires places { length cells.now.present ≡ length table.now.paths }
    requires stands { (t : FileTree) × Stands table.now (plain_state cells.now) t × HasParents t }
    ensures { IfOk result (λ tree. Stands table.now (plain_state cells.now) tree) }
{
    table.is_table();
    searches();
    states();
    file_trees();
    let mut tree = Tree::empty(alloc)?;
    for i in 0..table.path_count() {
        let entry = entry_told(alloc, table, told_at(cells, i as usize))?;
        add_entry(alloc, table.path(i), entry, &mut tree)?;
    }
    Ok(tree)
}
