//! Whether a second run changes anything.

ghost use Rattle.std.specs.Prelude.{◌≡◌, ◌≢◌, ℕ, Bool, [], length, map, IfOk, IfSome};
ghost use Rattle.fs_lang.specs.Meaning.{program_of};
ghost use Rattle.given_hosts.specs.Guard.{guarded, GoesFirst};
ghost use Rattle.orders.specs.Relation.{comes};
ghost use Rattle.apart_groups.specs.Groups.{AreGroups};
ghost use Rattle.given_verdict.specs.Asks.{AnswersAgainOn, IsDeterministicOn, IsSecondProofOn, IsSettledOn, NeverChangedOn};

use crate::asking::Asking;
use crate::behind::ask_others;
use crate::keeping::all_keep;
use crate::second::ask_second_from;
use answering::Answer;
use apart_groups::{groups_beside, groups_of};
use commute_prune::are_proper;
use fs_lang::{Path, Program};
use given_hosts::{guarded_graphs, guards, none_given, second_runs};
use guarded_graph::{Guarded, with_guard};
use order_extensions::has_first_extension;
use plans::Plan;
use proof_check::Verified;
use rh_base::{NoMemory, Seq};
use second_runs::{ask_second, same_in_groups};
use std::alloc::Global;

/// Whether a second run in another order changes anything, where one in the first extension doesn't. It doesn't where no program
/// removes a given folder: all orders then end alike from what the first run left, too.
fn ask_on(alloc: Global, asked: &Asking<'_>, same: Verified) -> Result<Answer, NoMemory>
    requires given { asked.now.given.now ≢ [] }
    requires deterministic { IsDeterministicOn asked.now }
    requires never { NeverChangedOn asked.now }
    requires same { IsSecondProofOn asked.now same.formula }
    ensures { IfOk result (AnswersAgainOn asked.now) }
{
    second_runs();
    are_proper(asked.plan.programs);
    // The first extension stands for all orders.
    has_first_extension(asked.plan.order);
    if all_keep(asked.plan.programs, asked.given) {
        return Ok(Answer::Refuted(same));
    }
    ask_others(alloc, asked, same)
}

/// The programs and the guard in groups. Where no program removes a given folder the guard does nothing behind any of them, so that
/// it touches none.
fn groups_from(
    alloc: Global,
    programs: &[Program],
    graph: &Guarded,
    given: &[Path],
) -> Result<Seq<Seq<u32>>, NoMemory>
    requires programs { map program_of graph.now.programs ≡ guarded given.now (map program_of programs.now) }
    requires count { length graph.now.programs ≡ graph.now.order.count }
    requires first { (before : ℕ → ℕ → Bool) × GoesFirst (length (map program_of programs.now)) before (comes graph.now.order) }
    ensures { IfOk result (AreGroups (map program_of graph.now.programs) (comes graph.now.order)) }
{
    let whole = Plan {
        programs: graph.programs.as_slice(),
        order: &graph.order,
    };
    if !all_keep(programs, given) {
        return groups_of(alloc, &whole);
    }
    let guard = graph.order.count() - 1;
    let groups = groups_beside(alloc, &whole, guard)?;
    Ok(groups)
}

/// A refuted formula, where a second run changes nothing since it does so in no group of the programs and the guard. The guard may
/// stand ahead of the second run too: where that ends as the first did, the given folders stand still.
fn same_from_groups(alloc: Global, asked: &Asking<'_>) -> Result<Option<Verified>, NoMemory>
    requires deterministic { IsDeterministicOn asked.now }
    ensures { IfOk result (λ found. IfSome found (λ v. IsSettledOn asked.now v.formula)) }
{
    guards();
    guarded_graphs();
    let graph = with_guard(alloc, asked.plan, asked.given)?;
    let groups = groups_from(alloc, asked.plan.programs, &graph, asked.given)?;
    let whole = Plan {
        programs: graph.programs.as_slice(),
        order: &graph.order,
    };
    let found = same_in_groups(alloc, &whole, groups.as_slice(), asked.budget)?;
    Ok(found)
}

/// Asks whether a second run changes anything: of groups that don't touch one another, then in the first extension, and then in any
/// order.
fn again_guarded(alloc: Global, asked: &Asking<'_>) -> Result<Answer, NoMemory>
    requires given { asked.now.given.now ≢ [] }
    requires deterministic { IsDeterministicOn asked.now }
    ensures { IfOk result (AnswersAgainOn asked.now) }
{
    if let Some(same) = same_from_groups(alloc, asked)? {
        return Ok(Answer::Refuted(same));
    }
    let found = ask_second_from(alloc, asked)?;
    match found {
        Answer::Refuted(same) => ask_on(alloc, asked, same),
        Answer::Shown(witness) => Ok(Answer::Shown(witness)),
        Answer::Spent(cnf, log) => Ok(Answer::Spent(cnf, log)),
    }
}

/// Asks whether a second run changes anything. Where no folder is given the graph itself is asked.
pub(crate) fn ask_again_from(alloc: Global, asked: &Asking<'_>) -> Result<Answer, NoMemory>
    requires deterministic { IsDeterministicOn asked.now }
    ensures { IfOk result (AnswersAgainOn asked.now) }
{
    none_given();
    if asked.given.is_empty() {
        return ask_second(alloc, asked.plan, asked.budget);
    }
    again_guarded(alloc, asked)
}
