//! Answering whether a graph ensures an entry.

ghost use Rattle.std.specs.Prelude.{◌≢◌, ◌≤◌, [], IfOk, IfErr};
ghost use Rattle.rh_base.specs.Refused.{IfRefused};
ghost use Rattle.plans.specs.Plans.{meant_by};
ghost use Rattle.question_terms.specs.Terms.{budget_of};
ghost use Rattle.given_verdict.specs.Limits.{HasFewPathsWith, IsLightWith};
ghost use Rattle.given_entry.specs.Sizes.{HasFewPathsProbed, IsTooLargeProbed};
ghost use Rattle.given_entry.specs.Answers.{IsEnsuredFrom};

use crate::limits::check_size_probed;
use crate::without::ensured_without;
use commute_prune::pruning;
use ensured_entry::{Ensured, judge_entry};
use fs_lang::Path;
use guarded_graph::{guard_is_pruned, with_guard};
use order_extensions::has_first_extension;
use plans::Plan;
use question_terms::Terms;
use rh_base::{Fault, NoMemory};
use std::alloc::Global;
use wanted_entry::Wanted;

/// Asks about the graph with the guard in front. What pruning keeps is what it keeps of the programs, whatever is given.
fn guarded_entry(
    alloc: Global,
    plan: &Plan<'_>,
    given: &[Path],
    wanted: &Wanted,
    budget: u64,
) -> Result<Ensured, NoMemory>
    requires budget { 1 ≤ budget }
    requires given { given.now ≢ [] }
    ensures { IfOk result (IsEnsuredFrom given.now (meant_by plan.now) plan.now.order.now wanted.now budget) }
{
    pruning();
    guard_is_pruned();
    let graph = with_guard(alloc, plan, given)?;
    // First extensions stand for all orders.
    has_first_extension(plan.order);
    has_first_extension(&graph.order);
    let asked = Plan {
        programs: graph.programs.as_slice(),
        order: &graph.order,
    };
    let answered = judge_entry(alloc, &asked, wanted, budget)?;
    ensured_without(alloc, plan.order, answered)
}

/// The answer, however large the graph is. Where no folder is given the graph itself is asked.
fn entry_from(
    alloc: Global,
    plan: &Plan<'_>,
    given: &[Path],
    wanted: &Wanted,
    budget: u64,
) -> Result<Ensured, NoMemory>
    requires { 1 ≤ budget }
    ensures { IfOk result (IsEnsuredFrom given.now (meant_by plan.now) plan.now.order.now wanted.now budget) }
{
    if given.is_empty() {
        return judge_entry(alloc, plan, wanted, budget);
    }
    guarded_entry(alloc, plan, given, wanted, budget)
}

/// Whether every run that ends has the wanted entry, of those from the trees in which the given folders stand: the question of the graph
/// with a guard in front, which ends in Error elsewhere. Each question has the whole budget.
pub fn judge_entry_from(
    alloc: Global,
    plan: &Plan<'_>,
    wanted: &Wanted,
    terms: &Terms,
) -> Result<Ensured, Fault>
    // It is refused exactly where the graph is too large to be asked about, or the domain with the probe is.
    ensures paths { IfOk result (λ e. HasFewPathsWith terms.now.limits terms.now.given (meant_by plan.now)) }
    ensures probed { IfOk result (λ e. HasFewPathsProbed terms.now.limits terms.now.given (meant_by plan.now) wanted.now) }
    ensures weight { IfOk result (λ e. IsLightWith terms.now.limits (meant_by plan.now)) }
    ensures refused { IfErr result
        (λ e. IfRefused e (IsTooLargeProbed terms.now.limits terms.now.given
        (meant_by plan.now) wanted.now)) }
    ensures only { HasFewPathsWith terms.now.limits terms.now.given (meant_by plan.now)
        → HasFewPathsProbed terms.now.limits terms.now.given (meant_by plan.now) wanted.now
        → IsLightWith terms.now.limits (meant_by plan.now) → IfErr result (λ e. IfRefused e (λ r. ⊥)) }
    ensures ensured { IfOk result
        (IsEnsuredFrom terms.now.given (meant_by plan.now) plan.now.order.now wanted.now
        (budget_of terms.now.conflicts)) }
{
    let given = terms.given.as_slice();
    check_size_probed(alloc, plan.programs, given, wanted, terms.limits)?;
    let ensured = entry_from(alloc, plan, given, wanted, terms.budget())?;
    Ok(ensured)
}
