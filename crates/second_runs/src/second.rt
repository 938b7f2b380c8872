//! Whether a second run changes anything.

ghost use Rattle.std.specs.Prelude.{◌≤◌, IfOk};
ghost use Rattle.fs_semantics.specs.Orders.{Told, IsDeterministic, IsIdempotent};
ghost use Rattle.orders.specs.Relation.{comes};
ghost use Rattle.plans.specs.Plans.{meant_by};
ghost use Rattle.proof_check.specs.Refuted.{HasNoModel};
ghost use Rattle.order_encode.specs.Asked.{CanShow};
ghost use Rattle.order_encode.specs.declared.witness.Witness.{Witness};
ghost use Rattle.second_runs.specs.Questions.{StatesSecond, IsSecondChange};
ghost use Rattle.second_runs.specs.Answers.{AnswersSecond};

use crate::groups::same_by_groups;
use answering::{Answer, answer_to};
use commute_prune::are_proper;
use finite_domain::{domains, witnesses_over_the_domain};
use fs_semantics::{constructs, counterexamples};
use order_encode::{Question, ask_twice};
use order_extensions::has_first_extension;
use path_domain::domain;
use plans::Plan;
use rh_base::NoMemory;
use std::alloc::Global;

/// The question whether a second run changes anything. Where its formula has no model, none does: the programs are deterministic,
/// so that the first extension stands for all allowed orders.
fn second_question(alloc: Global, plan: &Plan<'_>) -> Result<Question, NoMemory>
    requires { IsDeterministic (meant_by plan.now) (Told (comes plan.now.order.now)) }
    ensures states { IfOk result (λ q. StatesSecond (meant_by plan.now) plan.now.order.now q.formula) }
    ensures same { IfOk result (λ q. HasNoModel q.formula → IsIdempotent (meant_by plan.now) (Told (comes plan.now.order.now))) }
    ensures models { IfOk result (λ q. (w : Witness) → CanShow q w → IsSecondChange (meant_by plan.now) plan.now.order.now w) }
{
    constructs();
    counterexamples();
    domains();
    witnesses_over_the_domain();
    are_proper(plan.programs);
    has_first_extension(plan.order);
    let d = domain(alloc, plan.programs)?;
    ask_twice(alloc, plan.programs, plan.order, &d)
}

/// Asks whether a second run changes anything: of groups that don't touch one another, and of all where that doesn't tell.
pub fn ask_second(alloc: Global, plan: &Plan<'_>, budget: u64) -> Result<Answer, NoMemory>
    requires budget { 1 ≤ budget }
    requires deterministic { IsDeterministic (meant_by plan.now) (Told (comes plan.now.order.now)) }
    ensures { IfOk result (AnswersSecond (meant_by plan.now) plan.now.order.now budget) }
{
    if let Some(same) = same_by_groups(alloc, plan, budget)? {
        return Ok(Answer::Refuted(same));
    }
    let question = second_question(alloc, plan)?;
    answer_to(alloc, question, budget)
}
