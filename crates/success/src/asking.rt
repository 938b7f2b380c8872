//! Whether the graph succeeds from some tree. Runs from a few trees come before the formula: mostly one of them ends, and
//! nothing is left to be solved.

ghost use Rattle.std.specs.Prelude.{◌≤◌, IfOk, IfSome};
ghost use Rattle.fs_semantics.specs.Orders.{Told, IsDeterministic, Succeeds};
ghost use Rattle.orders.specs.Relation.{comes};
ghost use Rattle.plans.specs.Plans.{meant_by};
ghost use Rattle.proof_check.specs.Refuted.{HasNoModel};
ghost use Rattle.order_encode.specs.Asked.{CanShow};
ghost use Rattle.order_encode.specs.declared.witness.Witness.{Witness};
ghost use Rattle.success.specs.Questions.{StatesEnd, IsEnd};
ghost use Rattle.success.specs.Answers.{AnswersEnd};

use answering::{Answer, answer_to};
use finite_domain::{domains, shadows};
use order_encode::{Question, Witness, ask_some};
use order_extensions::has_first_extension;
use path_domain::domain;
use plans::Plan;
use rh_base::NoMemory;
use std::alloc::Global;
use tried_trees::{first_end, first_trees};

/// The question whether the graph succeeds. Where its formula has no model, it fails from every tree: the programs are
/// deterministic, so that the first extension stands for all allowed orders.
fn end_question(alloc: Global, plan: &Plan<'_>) -> Result<Question, NoMemory>
    requires { IsDeterministic (meant_by plan.now) (Told (comes plan.now.order.now)) }
    ensures states { IfOk result (λ q. StatesEnd (meant_by plan.now) plan.now.order.now q.formula) }
    ensures never { IfOk result (λ q. HasNoModel q.formula → Succeeds (meant_by plan.now) (Told (comes plan.now.order.now)) → ⊥) }
    ensures models { IfOk result (λ q. (w : Witness) → CanShow q w → IsEnd (meant_by plan.now) plan.now.order.now w) }
{
    domains();
    shadows();
    has_first_extension(plan.order);
    let d = domain(alloc, plan.programs)?;
    ask_some(alloc, plan.programs, plan.order, &d)
}

/// The first of a few trees from which the first extension ends in a tree, before any formula is made.
fn try_end(alloc: Global, plan: &Plan<'_>) -> Result<Option<Witness>, NoMemory>
    ensures { IfOk result (λ found. IfSome found (IsEnd (meant_by plan.now) plan.now.order.now)) }
{
    let first = plan.order.first_extension()?;
    let trees = first_trees(alloc, plan.programs)?;
    let ended = first_end(alloc, plan.programs, first.as_slice(), trees.as_slice())?;
    match ended {
        Some(tree) => Ok(Some(Witness::Ends { tree, order: first })),
        None => Ok(None),
    }
}

/// Asks whether a deterministic graph succeeds: what is shown is a tree from which the first extension ends in a tree.
pub fn ask_end(alloc: Global, plan: &Plan<'_>, budget: u64) -> Result<Answer, NoMemory>
    requires budget { 1 ≤ budget }
    requires deterministic { IsDeterministic (meant_by plan.now) (Told (comes plan.now.order.now)) }
    ensures { IfOk result (AnswersEnd (meant_by plan.now) plan.now.order.now budget) }
{
    if let Some(witness) = try_end(alloc, plan)? {
        return Ok(Answer::Shown(witness));
    }
    let question = end_question(alloc, plan)?;
    answer_to(alloc, question, budget)
}
