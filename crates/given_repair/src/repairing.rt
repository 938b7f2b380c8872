//! Repairing a graph, where folders are given.

ghost use Rattle.std.specs.Prelude.{◌≢◌, ◌≤◌, [], IfOk, IfErr};
ghost use Rattle.rh_base.specs.Refused.{IfRefused};
ghost use Rattle.plans.specs.Plans.{meant_by};
ghost use Rattle.question_terms.specs.Terms.{budget_of};
ghost use Rattle.given_verdict.specs.Limits.{HasFewPathsWith, IsLightWith, IsTooLargeWith};
ghost use Rattle.given_repair.specs.Repairs.{IsRepairedFrom};

use fs_lang::Path;
use given_verdict::check_size_with;
use guarded_graph::with_guard;
use plans::Plan;
use question_terms::Terms;
use repair::{Repaired, arrows, repair};
use rh_base::{Fault, NoMemory};
use std::alloc::Global;

/// The arrows of the graph with the guard in front.
fn repaired_behind(
    alloc: Global,
    plan: &Plan<'_>,
    given: &[Path],
    budget: u64,
) -> Result<Repaired, NoMemory>
    requires budget { 1 ≤ budget }
    requires given { given.now ≢ [] }
    ensures { IfOk result (IsRepairedFrom given.now (meant_by plan.now) plan.now.order.now budget) }
{
    arrows();
    let graph = with_guard(alloc, plan, given)?;
    // Only that both are orders.
    plan.order.count();
    graph.order.count();
    let asked = Plan {
        programs: graph.programs.as_slice(),
        order: &graph.order,
    };
    let repaired = repair(alloc, &asked, budget)?;
    Ok(repaired)
}

/// The arrows that are missing, however large the graph is. Where no folder is given the graph itself is asked.
fn repaired_from(
    alloc: Global,
    plan: &Plan<'_>,
    given: &[Path],
    budget: u64,
) -> Result<Repaired, NoMemory>
    requires { 1 ≤ budget }
    ensures { IfOk result (IsRepairedFrom given.now (meant_by plan.now) plan.now.order.now budget) }
{
    if given.is_empty() {
        let repaired = repair(alloc, plan, budget)?;
        return Ok(repaired);
    }
    repaired_behind(alloc, plan, given, budget)
}

/// Arrows that are missing from a graph: with them it is deterministic from the trees in which the given folders stand, and without
/// any one of them it isn't. That they are the fewest isn't said. Each question has the whole budget.
pub fn repair_from(alloc: Global, plan: &Plan<'_>, terms: &Terms) -> Result<Repaired, Fault>
    // It is refused exactly where the graph is too large to be asked about; arrows change nothing of that.
    ensures paths { IfOk result (λ repaired. HasFewPathsWith terms.now.limits terms.now.given (meant_by plan.now)) }
    ensures weight { IfOk result (λ repaired. IsLightWith terms.now.limits (meant_by plan.now)) }
    ensures refused { IfErr result (λ e. IfRefused e (IsTooLargeWith terms.now.limits terms.now.given (meant_by plan.now))) }
    ensures only { HasFewPathsWith terms.now.limits terms.now.given (meant_by plan.now)
        → IsLightWith terms.now.limits (meant_by plan.now) → IfErr result (λ e. IfRefused e (λ r. ⊥)) }
    ensures repaired { IfOk result
        (IsRepairedFrom terms.now.given (meant_by plan.now) plan.now.order.now (budget_of terms.now.conflicts)) }
{
    let given = terms.given.as_slice();
    check_size_with(alloc, plan.programs, given, terms.limits)?;
    let repaired = repaired_from(alloc, plan, given, terms.budget())?;
    Ok(repaired)
}
