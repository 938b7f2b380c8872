//! The shortest front of an order that ends in Error, found by halves.

ghost use Rattle.std.specs.Prelude.{◌≡◌, ◌<◌, length, map, None, IfOk};
ghost use Rattle.std.specs.List.{AllByRecursion};
ghost use Rattle.fs_semantics.specs.Orders.{outcome};
ghost use Rattle.fs_lang.specs.Meaning.{program_of};
ghost use Rattle.failure_search.specs.Found.{IsSearched};

use fs_lang::{Outcome, Program, Tree};
use fs_replay::replay;
use rh_base::NoMemory;
use std::alloc::Global;

/// How a run in an order ends: in a tree, or in Error at a place of the order, with the tree that what stands ahead of it
/// leaves.
#[derive(Drop)]
pub(crate) enum Searched {
    Ends(Tree),
    Fails(usize, Tree),
}

/// The place at which an order that ends in Error does so. Each turn halves the part of the order in which it lies.
#[tactic(auto, using(crate::proofs::PlaceLaws::all_ahead, crate::proofs::PlaceLaws::long_enough, crate::proofs::PlaceLaws::take_whole))]
fn narrowed(
    alloc: Global,
    programs: &[Program],
    order: &[u32],
    tree: &Tree,
) -> Result<Searched, NoMemory>
    requires below { AllByRecursion (λ i. i < length programs.now) order.now }
    requires fails { outcome (map program_of programs.now) order.now tree.now ≡ None }
    ensures { IfOk result (IsSearched (map program_of programs.now) order.now tree.now) }
{
    let mut low = 0;
    let mut high = order.len();
    let mut reached = tree.copy(alloc)?;
    'halves: while high - low > 1 {
        let middle = low + (high - low) / 2;
        match replay(alloc, programs, &order[..middle], tree)? {
            Outcome::Ended(ended) => {
                reached = ended;
                low = middle;
            }
            Outcome::Error => high = middle,
        }
    }
    Ok(Searched::Fails(low, reached))
}

/// How the run in an order ends.
pub(crate) fn search(
    alloc: Global,
    programs: &[Program],
    order: &[u32],
    tree: &Tree,
) -> Result<Searched, NoMemory>
    requires { AllByRecursion (λ i. i < length programs.now) order.now }
    ensures { IfOk result (IsSearched (map program_of programs.now) order.now tree.now) }
{
    match replay(alloc, programs, order, tree)? {
        Outcome::Ended(ended) => Ok(Searched::Ends(ended)),
        Outcome::Error => narrowed(alloc, programs, order, tree),
    }
}
