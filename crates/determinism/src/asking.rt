//! A question of order, and what comes of it.
//!
//! A domain is made for the programs that are asked about. The formulas of one verdict are mostly about others (what pruning keeps,
//! a pair, a group, the whole graph), so none is made ahead; the two that are about the same programs share theirs.

ghost use Rattle.std.specs.Prelude.{◌≤◌, IfOk};
ghost use Rattle.fs_semantics.specs.Orders.{Told, IsDeterministic};
ghost use Rattle.finite_domain.specs.Layouts.{IsLayout};
ghost use Rattle.fs_lang.specs.Meaning.{programs_in};
ghost use Rattle.fs_interpreter.specs.Places.{CoversSteps};
ghost use Rattle.path_domain.specs.declared.listed.Domain.{Domain as LaidOut};
ghost use Rattle.path_domain.specs.Laid.{layout_of};
ghost use Rattle.orders.specs.Relation.{comes};
ghost use Rattle.plans.specs.Plans.{meant_by};
ghost use Rattle.order_encode.specs.Asked.{CanShow};
ghost use Rattle.order_encode.specs.declared.witness.Witness.{Witness};
ghost use Rattle.determinism.specs.Questions.{States};
ghost use Rattle.determinism.specs.First.{IsDifference};
ghost use Rattle.determinism.specs.Answers.{AnswersOrder};
ghost use Rattle.proof_check.specs.Refuted.{HasNoModel};

use crate::pairs::all_commute;
use answering::{Answer, answer_to};
use finite_domain::{domains, witnesses_over_the_domain};
use fs_semantics::counterexamples;
use order_encode::{Question, ask_order};
use path_domain::{Domain, domain};
use plans::Plan;
use rh_base::NoMemory;
use std::alloc::Global;

/// The question of order of these programs, over their domain. Where its formula has no model, they are deterministic.
fn question_over(alloc: Global, plan: &Plan<'_>, d: &Domain) -> Result<Question, NoMemory>
    requires layout { IsLayout (meant_by plan.now) (layout_of d.now) }
    requires covers { CoversSteps d.now.table (programs_in plan.now.programs.now) }
    ensures states { IfOk result (λ q. States (meant_by plan.now) (Told (comes plan.now.order.now)) q.formula) }
    ensures sure { IfOk result (λ q. HasNoModel q.formula → IsDeterministic (meant_by plan.now) (Told (comes plan.now.order.now))) }
    ensures models { IfOk result (λ q. (w : Witness) → CanShow q w
        → IsDifference (meant_by plan.now) (Told (comes plan.now.order.now)) w) }
{
    counterexamples();
    domains();
    witnesses_over_the_domain();
    ask_order(alloc, plan.programs, plan.order, d)
}

/// The same, with a domain of its own.
pub(crate) fn question(alloc: Global, plan: &Plan<'_>) -> Result<Question, NoMemory>
    ensures laid { IfOk result (λ q. (d : LaidOut) × IsLayout (meant_by plan.now) (layout_of d)) }
    ensures states { IfOk result (λ q. States (meant_by plan.now) (Told (comes plan.now.order.now)) q.formula) }
    ensures sure { IfOk result (λ q. HasNoModel q.formula → IsDeterministic (meant_by plan.now) (Told (comes plan.now.order.now))) }
    ensures models { IfOk result (λ q. (w : Witness) → CanShow q w
        → IsDifference (meant_by plan.now) (Told (comes plan.now.order.now)) w) }
{
    let d = domain(alloc, plan.programs)?;
    question_over(alloc, plan, &d)
}

/// Asks whether allowed orders have different outcomes.
fn ask_orders(alloc: Global, plan: &Plan<'_>, d: &Domain, budget: u64) -> Result<Answer, NoMemory>
    requires layout { IsLayout (meant_by plan.now) (layout_of d.now) }
    requires covers { CoversSteps d.now.table (programs_in plan.now.programs.now) }
    requires budget { 1 ≤ budget }
    ensures { IfOk result (AnswersOrder (meant_by plan.now) plan.now.order.now budget) }
{
    let question = question_over(alloc, plan, d)?;
    answer_to(alloc, question, budget)
}

/// The same, over a domain that both questions have: the programs commute of which neither comes before the other, or orders are asked
/// about.
fn ask_over(alloc: Global, plan: &Plan<'_>, d: &Domain, budget: u64) -> Result<Answer, NoMemory>
    requires layout { IsLayout (meant_by plan.now) (layout_of d.now) }
    requires covers { CoversSteps d.now.table (programs_in plan.now.programs.now) }
    requires budget { 1 ≤ budget }
    ensures { IfOk result (AnswersOrder (meant_by plan.now) plan.now.order.now budget) }
{
    match all_commute(alloc, plan, d, budget)? {
        Some(verified) => Ok(Answer::Refuted(verified)),
        None => ask_orders(alloc, plan, d, budget),
    }
}

/// Asks whether allowed orders have different outcomes. They have not where all programs commute of which neither comes before the
/// other, which is asked first, with the same budget: a formula without an order is far smaller.
pub(crate) fn ask(alloc: Global, plan: &Plan<'_>, budget: u64) -> Result<Answer, NoMemory>
    requires { 1 ≤ budget }
    ensures { IfOk result (AnswersOrder (meant_by plan.now) plan.now.order.now budget) }
{
    let both = domain(alloc, plan.programs)?;
    ask_over(alloc, plan, &both, budget)
}
