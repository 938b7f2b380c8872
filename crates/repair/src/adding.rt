//! Adding arrows until none is missing. Each graph is judged by itself: between two questions only the pairs of the order are
//! kept.

ghost use Rattle.std.specs.Prelude.{◌≡◌, ◌≤◌, IfOk};
ghost use Rattle.orders.specs.Relation.{comes};
ghost use Rattle.plans.specs.Plans.{meant_by};
ghost use Rattle.commute_prune.specs.Pairs.{pairs_of};
ghost use Rattle.repair.specs.Steps.{IsAdded};

use crate::missing::{Look, look_at};
use crate::repaired::Repaired;
use crate::with::with_arrows;
use plans::Plan;
use rh_base::{NoMemory, Seq};
use std::alloc::Global;

/// Adds arrows, one by one, until the graph with them is deterministic or the budget is spent on one of them.
pub(crate) fn add_arrows(
    alloc: Global,
    plan: &Plan<'_>,
    pairs: &[(u32, u32)],
    budget: u64,
) -> Result<Repaired, NoMemory>
    requires pairs { pairs.now ≡ pairs_of (comes plan.now.order.now) plan.now.order.now.count plan.now.order.now.count }
    requires budget { 1 ≤ budget }
    ensures { IfOk result (IsAdded (meant_by plan.now) plan.now.order.now budget) }
{
    plan.order.count();
    let mut arrows = Seq::new(alloc);
    let mut now = with_arrows(alloc, plan.order, pairs, arrows.as_slice())?;
    'looks: loop {
        let with = Plan {
            programs: plan.programs,
            order: &now,
        };
        match look_at(alloc, &with, budget)? {
            Look::Sure => return Ok(Repaired::Done { added: arrows }),
            Look::Missing(arrow) => arrows.push(arrow)?,
            Look::Spent(cnf, log) => {
                return Ok(Repaired::Spent {
                    added: arrows,
                    cnf,
                    log,
                });
            }
        }
        now = with_arrows(alloc, plan.order, pairs, arrows.as_slice())?;
    }
}
