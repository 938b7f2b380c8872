//! One arrow that is missing. Of two runs that differ by one exchange the one is followed that ends in a tree; where both do,
//! and in different ones, the first is, since nothing tells which arrow is meant.

ghost use Rattle.std.specs.Prelude.{◌≡◌, ◌≤◌, IfOk};
ghost use Rattle.fs_semantics.specs.Orders.{Told, IsExchange, IsCounterexample};
ghost use Rattle.orders.specs.Relation.{comes};
ghost use Rattle.plans.specs.Plans.{meant_by};
ghost use Rattle.determinism.specs.First.{IsDifference};
ghost use Rattle.repair.specs.Missing.{first_apart, IsMissing, IsLook};

use cnf::{Cnf, Log};
use determinism::{First, judge_order};
use fs_lang::{Outcome, Tree};
use fs_replay::replay;
use order_encode::Witness;
use plans::Plan;
use rh_base::NoMemory;
use std::alloc::Global;

/// What a look at a graph tells.
#[derive(Drop)]
pub(crate) enum Look {
    /// It is deterministic.
    Sure,
    /// This arrow is missing.
    Missing((u32, u32)),
    /// The budget was spent on this formula, with this log.
    Spent(Cnf, Log),
}

/// What two lists have where they first differ.
fn first_apart(left: &[u32], right: &[u32]) -> Option<(u32, u32)>
    ensures { result ≡ first_apart left.now right.now }
{
    for (k, node) in left.iter().enumerate() {
        if k >= right.len() {
            return None;
        }
        let other = right[k];
        if *node != other {
            return Some((*node, other));
        }
    }
    None
}

/// Of two runs that differ by one exchange and end differently, the arrow that one of them follows, which ends in a tree.
fn arrow_between(
    alloc: Global,
    plan: &Plan<'_>,
    tree: &Tree,
    left: &[u32],
    right: &[u32],
) -> Result<(u32, u32), NoMemory>
    requires differ { IsCounterexample (meant_by plan.now) (Told (comes plan.now.order.now)) tree.now left.now right.now }
    requires exchange { IsExchange (Told (comes plan.now.order.now)) left.now right.now }
    ensures { IfOk result (IsMissing (meant_by plan.now) plan.now.order.now) }
{
    let Some((a, b)) = first_apart(left, right) else {
        unreachable!();
    };
    let ended = replay(alloc, plan.programs, left, tree)?;
    match ended {
        Outcome::Ended(_) => Ok((a, b)),
        Outcome::Error => Ok((b, a)),
    }
}

/// The arrow that is missing where a graph isn't deterministic.
fn arrow_in(alloc: Global, plan: &Plan<'_>, witness: Witness) -> Result<(u32, u32), NoMemory>
    requires { IsDifference (meant_by plan.now) (Told (comes plan.now.order.now)) witness }
    ensures { IfOk result (IsMissing (meant_by plan.now) plan.now.order.now) }
{
    match witness {
        Witness::Orders { tree, left, right } => arrow_between(
            alloc,
            plan,
            &tree,
            left.as_slice(),
            right.as_slice(),
        ),
        Witness::Twice { .. } | Witness::Ends { .. } => unreachable!(),
    }
}

/// Asks whether a graph is deterministic. Where it isn't, the arrow is answered that a run follows which ends in a tree.
pub(crate) fn look_at(alloc: Global, plan: &Plan<'_>, budget: u64) -> Result<Look, NoMemory>
    requires { 1 ≤ budget }
    ensures { IfOk result (IsLook (meant_by plan.now) plan.now.order.now budget) }
{
    let first = judge_order(alloc, plan, budget)?;
    match first {
        First::Sure { .. } => Ok(Look::Sure),
        First::Differs { witness, .. } => {
            let arrow = arrow_in(alloc, plan, witness)?;
            Ok(Look::Missing(arrow))
        }
        First::Spent { cnf, log, .. } => Ok(Look::Spent(cnf, log)),
    }
}
