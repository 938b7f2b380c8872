//! The tree of given folders alone.

ghost use Rattle.std.specs.Prelude.{◌↔◌, length, IsTrue, IfOk, OnOk};
ghost use Rattle.fs_semantics.specs.FileTree.{parent};
ghost use Rattle.fs_semantics.specs.Entries.{IsFolderAt, IsFreeAt};
ghost use Rattle.explained_runs.specs.GivenTree.{HasOnlyFolders, IsGrown, IsOfGiven};

use fs_lang::{Entry, Path, Tree};
use rh_base::NoMemory;
use std::alloc::Global;

/// Whether nothing stands at a path other than the root.
fn is_free(tree: &Tree, p: &Path) -> bool
    ensures { IsTrue result ↔ IsFreeAt tree.now p.now }
{
    let is_root = p.segments().is_empty();
    let is_there = tree.get(p).is_some();
    !is_root && !is_there
}

/// Adds a folder below one, unless it stands.
fn add_folder(p: Path, tree: &mut Tree) -> Result<(), NoMemory>
    requires above { IsFolderAt tree.old (parent p) }
    requires folders { HasOnlyFolders tree.old }
    ensures { OnOk result (IsGrown (length p) p tree.old tree.new) }
{
    let free = is_free(tree, &p);
    if free {
        return tree.add(p, Entry::Folder);
    }
    Ok(())
}

/// Adds the folders down to a path.
fn add_down(alloc: Global, p: &Path, tree: &mut Tree) -> Result<(), NoMemory>
    requires { HasOnlyFolders tree.old }
    ensures { OnOk result (IsGrown (length p.now) p.now tree.old tree.new) }
{
    for n in 0..p.segments().len() {
        add_folder(p.front(alloc, n + 1)?, tree)?;
    }
    Ok(())
}

/// The tree in which the given folders stand, with those above them, and nothing else.
pub(crate) fn given_tree(alloc: Global, given: &[Path]) -> Result<Tree, NoMemory>
    ensures { IfOk result (IsOfGiven given.now) }
{
    let mut tree = Tree::empty(alloc)?;
    for p in given {
        add_down(alloc, p, &mut tree)?;
    }
    tree.is_tree();
    Ok(tree)
}
