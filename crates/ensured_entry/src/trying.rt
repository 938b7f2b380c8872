//! Runs from a few trees, before any formula is made.

ghost use Rattle.std.specs.Prelude.{◌↔◌, ◌<◌, length, map, IsTrue, IfSome, IfOk};
ghost use Rattle.std.specs.List.{AllByRecursion};
ghost use Rattle.fs_lang.specs.Meaning.{program_of};
ghost use Rattle.plans.specs.Plans.{meant_by};
ghost use Rattle.order_encode.specs.Missing.{EndsMissing};
ghost use Rattle.ensured_entry.specs.Tried.{MissesFrom, IsTried};

use fs_lang::{Outcome, Program, Tree};
use fs_replay::replay;
use order_encode::Witness;
use plans::Plan;
use rh_base::NoMemory;
use std::alloc::Global;
use tried_trees::{first_end, first_trees};
use wanted_entry::Wanted;

/// What runs from a few trees show.
#[derive(Drop)]
pub(crate) enum Tried {
    /// One ends without the entry.
    Missed(Witness),
    /// None does, and one ends in a tree.
    Ended(Witness),
    /// None ends in a tree.
    Nothing,
}

/// Whether the run from the tree ends in one without the entry.
fn misses(
    alloc: Global,
    programs: &[Program],
    order: &[u32],
    wanted: &Wanted,
    tree: &Tree,
) -> Result<bool, NoMemory>
    requires { AllByRecursion (λ k. k < length programs.now) order.now }
    ensures { IfOk result (λ told. IsTrue told ↔ EndsMissing (map program_of programs.now) order.now wanted.now tree.now) }
{
    match replay(alloc, programs, order, tree)? {
        Outcome::Ended(after) => Ok(!wanted.is_in(&after)),
        Outcome::Error => Ok(false),
    }
}

/// The first of the trees from which the run ends in one without the entry.
fn first_missed(
    alloc: Global,
    programs: &[Program],
    order: &[u32],
    wanted: &Wanted,
    trees: &[Tree],
) -> Result<Option<Tree>, NoMemory>
    requires { AllByRecursion (λ k. k < length programs.now) order.now }
    ensures { IfOk result (λ found. IfSome found (MissesFrom (map program_of programs.now) order.now wanted.now)) }
{
    for tree in trees {
        tree.is_tree();
        let told = misses(alloc, programs, order, wanted, tree)?;
        if told {
            let found = tree.copy(alloc)?;
            return Ok(Some(found));
        }
    }
    Ok(None)
}

/// Runs the first extension from a few trees.
pub(crate) fn try_runs(alloc: Global, plan: &Plan<'_>, wanted: &Wanted) -> Result<Tried, NoMemory>
    ensures { IfOk result (IsTried (meant_by plan.now) plan.now.order.now wanted.now) }
{
    let first = plan.order.first_extension()?;
    let trees = first_trees(alloc, plan.programs)?;
    let missed = first_missed(
        alloc,
        plan.programs,
        first.as_slice(),
        wanted,
        trees.as_slice(),
    )?;
    if let Some(tree) = missed {
        return Ok(Tried::Missed(Witness::Ends { tree, order: first }));
    }
    let ended = first_end(alloc, plan.programs, first.as_slice(), trees.as_slice())?;
    match ended {
        Some(tree) => Ok(Tried::Ended(Witness::Ends { tree, order: first })),
        None => Ok(Tried::Nothing),
    }
}
