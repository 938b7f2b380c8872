//! Counterexamples of the kept graph, tried on the whole.

ghost use Rattle.std.specs.Prelude.{◌≡◌, ◌↔◌, ◌<◌, length, map, IsTrue, IfSome, IfOk, MatchOption};
ghost use Rattle.std.specs.List.{AllByRecursion};
ghost use Rattle.fs_semantics.specs.Orders.{IsLinearExtension, IsExchange, outcome};
ghost use Rattle.fs_lang.specs.Meaning.{program_of};
ghost use Rattle.orders.specs.Relation.{Comes};
ghost use Rattle.plans.specs.Plans.{meant_by};
ghost use Rattle.kept_graph.specs.Kept.{IsKept};
ghost use Rattle.kept_graph.specs.Completed.{IsCompleted, AgreeCompleted};

use crate::completing::{complete, completions};
use crate::kept::Kept;
use commute_prune::are_proper;
use fs_lang::{Program, Tree};
use fs_replay::{replay, same_outcome};
use plans::Plan;
use rh_base::{NoMemory, Seq};
use std::alloc::Global;

/// Two orders of all programs.
#[derive(Debug, Drop)]
pub struct Completed {
    pub left: Seq<u32>,
    pub right: Seq<u32>,
}

/// Whether two orders end alike from a tree.
pub fn end_alike(
    alloc: Global,
    programs: &[Program],
    tree: &Tree,
    left: &[u32],
    right: &[u32],
) -> Result<bool, NoMemory>
    requires left { AllByRecursion (λ i. i < length programs.now) left.now }
    requires right { AllByRecursion (λ i. i < length programs.now) right.now }
    ensures { IfOk result (λ alike. IsTrue alike
        ↔ (outcome (map program_of programs.now) left.now tree.now ≡ outcome (map program_of programs.now) right.now tree.now)) }
{
    let first = replay(alloc, programs, left, tree)?;
    let second = replay(alloc, programs, right, tree)?;
    Ok(same_outcome(&first, &second))
}

/// Completes two orders of the kept programs, and runs both. Where they end differently from the tree, they are answered;
/// and where the two differ by one exchange of free neighbours, so do these.
pub fn refute(
    alloc: Global,
    plan: &Plan<'_>,
    kept: &Kept,
    tree: &Tree,
    left: &[u32],
    right: &[u32],
) -> Result<Option<Completed>, NoMemory>
    requires kept { IsKept (meant_by plan.now) plan.now.order.now kept.now }
    requires left { IsLinearExtension kept.now.order.count (Comes kept.now.order) left.now }
    requires right { IsLinearExtension kept.now.order.count (Comes kept.now.order) right.now }
    ensures found { IfOk result
        (λ found. IfSome found (IsCompleted
        (meant_by plan.now) plan.now.order.now kept.now.pruned tree.now left.now right.now)) }
    ensures exchange { IsExchange (Comes kept.now.order) left.now right.now
        → IfOk result (λ found. IfSome found (λ c. IsExchange (Comes plan.now.order.now) c.left c.right)) }
    // Nothing is answered exactly where they end alike.
    ensures agree { IfOk result
        (λ found. MatchOption found
        (AgreeCompleted (meant_by plan.now) kept.now.pruned tree.now left.now right.now) (λ c. Unit)) }
{
    completions();
    are_proper(plan.programs);
    tree.is_tree();
    let first = complete(alloc, &kept.pruned, left)?;
    let second = complete(alloc, &kept.pruned, right)?;
    let alike = end_alike(
        alloc,
        plan.programs,
        tree,
        first.as_slice(),
        second.as_slice(),
    )?;
    if alike {
        return Ok(None);
    }
    Ok(Some(Completed {
        left: first,
        right: second,
    }))
}
