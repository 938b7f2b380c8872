//! The trees that are tried first, for questions other than that of order.

ghost use Rattle.std.specs.Prelude.{◌≡◌, ◌∷◌, ◌++◌, List, IfOk, OnOk};
ghost use Rattle.std.specs.FinMap as map_of;
ghost use Rattle.fs_semantics.specs.FileTree.{Tree as FileTree};

use crate::standing::{Trees, trees_of};
use fs_lang::{Program, Tree};
use rh_base::{NoMemory, Seq};
use std::alloc::Global;

/// Adds trees.
#[tactic(auto, using(crate::proofs::FirstLaws::one_behind))]
fn add_all(more: Seq<Tree>, trees: &mut Seq<Tree>) -> Result<(), NoMemory>
    ensures { OnOk result (trees.new ≡ trees.old ++ more) }
{
    for tree in more.into_vec() {
        trees.push(tree)?;
    }
    Ok(())
}

/// A few trees to try: the empty one; the one with what the programs use and none of them makes; that with each folder above a path
/// of theirs; that with all that they change; and others.
pub fn first_trees(alloc: Global, programs: &[Program]) -> Result<Seq<Tree>, NoMemory>
    ensures { IfOk result (λ trees. (more : List FileTree) × (trees ≡ map_of.empty ∷ more)) }
{
    let Trees { first, others } = trees_of(alloc, programs)?;
    let mut trees = Seq::new(alloc);
    trees.push(Tree::empty(alloc)?)?;
    add_all(first, &mut trees)?;
    add_all(others, &mut trees)?;
    Ok(trees)
}
