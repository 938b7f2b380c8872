//! The tree from which a run ends in a tree, among a few.

ghost use Rattle.std.specs.Prelude.{◌↔◌, ◌<◌, length, map, IsTrue, IsSome, IfSome, IfOk, MatchOption};
ghost use Rattle.std.specs.List.{AllByRecursion};
ghost use Rattle.fs_semantics.specs.Orders.{outcome};
ghost use Rattle.fs_lang.specs.Meaning.{program_of};
ghost use Rattle.tried_trees.specs.Ending.{EndsFrom, Fails};

use fs_lang::{Outcome, Program, Tree};
use fs_replay::replay;
use rh_base::NoMemory;
use std::alloc::Global;

/// Whether the run from the tree ends in a tree.
fn ends(alloc: Global, programs: &[Program], order: &[u32], tree: &Tree) -> Result<bool, NoMemory>
    requires { AllByRecursion (λ k. k < length programs.now) order.now }
    ensures { IfOk result (λ told. IsTrue told ↔ IsSome (outcome (map program_of programs.now) order.now tree.now)) }
{
    let outcome = replay(alloc, programs, order, tree)?;
    Ok(matches!(outcome, Outcome::Ended(_)))
}

/// The first of the trees from which the run ends in a tree.
pub fn first_end(
    alloc: Global,
    programs: &[Program],
    order: &[u32],
    trees: &[Tree],
) -> Result<Option<Tree>, NoMemory>
    requires { AllByRecursion (λ k. k < length programs.now) order.now }
    ensures found { IfOk result (λ found. IfSome found (EndsFrom (map program_of programs.now) order.now)) }
    // Where none is found, the run ends in Error from each of them.
    ensures none { IfOk result
        (λ found. MatchOption found (AllByRecursion (Fails (map program_of programs.now) order.now) trees.now)
        (λ t. Unit)) }
{
    for tree in trees {
        tree.is_tree();
        let told = ends(alloc, programs, order, tree)?;
        if told {
            return Ok(Some(tree.copy(alloc)?));
        }
    }
    Ok(None)
}
