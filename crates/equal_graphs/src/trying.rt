//! Runs of both graphs from a few trees, before any formula is made.

ghost use Rattle.std.specs.Prelude.{◌↔◌, ◌<◌, length, map, IsTrue, IfSome, IfOk};
ghost use Rattle.std.specs.List.{AllByRecursion};
ghost use Rattle.fs_lang.specs.Meaning.{program_of};
ghost use Rattle.plans.specs.Plans.{meant_by};
ghost use Rattle.order_encode.specs.Parting.{EndDifferently};
ghost use Rattle.equal_graphs.specs.Equal.{FirstsPart};
ghost use Rattle.equal_graphs.specs.Tried.{PartsFrom};

use crate::joining::joined;
use fs_lang::{Program, Tree};
use fs_replay::{replay, same_outcome};
use plans::Plan;
use rh_base::{NoMemory, Seq};
use std::alloc::Global;
use tried_trees::first_trees;

/// Whether the two orders end differently from the tree.
fn end_differently(
    alloc: Global,
    left: &[Program],
    order: &[u32],
    right: &[Program],
    other: &[u32],
    tree: &Tree,
) -> Result<bool, NoMemory>
    requires nodes { AllByRecursion (λ k. k < length left.now) order.now }
    requires others { AllByRecursion (λ k. k < length right.now) other.now }
    ensures { IfOk result (λ apart. IsTrue apart
        ↔ EndDifferently (map program_of left.now) order.now (map program_of right.now) other.now tree.now) }
{
    let one = replay(alloc, left, order, tree)?;
    let second = replay(alloc, right, other, tree)?;
    Ok(!same_outcome(&one, &second))
}

/// The first of the trees from which the two orders end differently.
fn first_parting(
    alloc: Global,
    left: &[Program],
    order: &[u32],
    right: &[Program],
    other: &[u32],
    trees: &[Tree],
) -> Result<Option<Tree>, NoMemory>
    requires nodes { AllByRecursion (λ k. k < length left.now) order.now }
    requires others { AllByRecursion (λ k. k < length right.now) other.now }
    ensures { IfOk result
        (λ found. IfSome found (PartsFrom (map program_of left.now) order.now (map program_of right.now) other.now)) }
{
    for tree in trees {
        tree.is_tree();
        let apart = end_differently(alloc, left, order, right, other, tree)?;
        if apart {
            let found = tree.copy(alloc)?;
            return Ok(Some(found));
        }
    }
    Ok(None)
}

/// A few trees over the paths of both.
fn trees_of_both(
    alloc: Global,
    left: &[Program],
    right: &[Program],
) -> Result<Seq<Tree>, NoMemory> {
    let all = joined(alloc, left, right)?;
    first_trees(alloc, all.as_slice())
}

/// Runs both first extensions from a few trees.
pub(crate) fn try_runs(
    alloc: Global,
    left: &Plan<'_>,
    right: &Plan<'_>,
) -> Result<Option<Tree>, NoMemory>
    ensures { IfOk result
        (λ found. IfSome found (FirstsPart (meant_by left.now) left.now.order.now (meant_by right.now) right.now.order.now)) }
{
    let one = left.order.first_extension()?;
    let second = right.order.first_extension()?;
    let trees = trees_of_both(alloc, left.programs, right.programs)?;
    first_parting(
        alloc,
        left.programs,
        one.as_slice(),
        right.programs,
        second.as_slice(),
        trees.as_slice(),
    )
}
