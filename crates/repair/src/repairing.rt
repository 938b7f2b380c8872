//! Repairing a graph.

ghost use Rattle.std.specs.Prelude.{◌≤◌, IfOk};
ghost use Rattle.plans.specs.Plans.{meant_by};
ghost use Rattle.repair.specs.Answers.{IsRepaired};

use crate::adding::add_arrows;
use crate::leaving::leave_out;
use crate::repaired::Repaired;
use crate::with::order_pairs;
use plans::Plan;
use rh_base::NoMemory;
use std::alloc::Global;

/// Arrows that are missing from a graph, however large it is: with them it is deterministic, and without any one of them it isn't. That
/// they are the fewest isn't said. Each question has the whole budget; a budget of `u64::MAX` stands for none.
pub fn repair(alloc: Global, plan: &Plan<'_>, budget: u64) -> Result<Repaired, NoMemory>
    requires { 1 ≤ budget }
    ensures { IfOk result (IsRepaired (meant_by plan.now) plan.now.order.now budget) }
{
    let pairs = order_pairs(alloc, plan.order)?;
    match add_arrows(alloc, plan, pairs.as_slice(), budget)? {
        Repaired::Done { added } => leave_out(
            alloc,
            plan,
            pairs.as_slice(),
            added.as_slice(),
            budget,
        ),
        Repaired::Spent { added, cnf, log } => Ok(Repaired::Spent { added, cnf, log }),
    }
}
