//! Whether two deterministic graphs do the same. Which two orders are run isn't said, only that the formula has a model exactly
//! where the first extensions end apart. What is told of a yes is a checked refutation all the same.

ghost use Rattle.std.specs.Prelude.{◌≤◌, IfOk};
ghost use Rattle.fs_semantics.specs.Orders.{Told, IsDeterministic};
ghost use Rattle.orders.specs.Relation.{comes};
ghost use Rattle.plans.specs.Plans.{meant_by};
ghost use Rattle.proof_check.specs.Refuted.{HasNoModel};
ghost use Rattle.order_encode.specs.Asked.{CanShow};
ghost use Rattle.order_encode.specs.declared.witness.Witness.{Witness};
ghost use Rattle.equal_graphs.specs.Equal.{AreEqual};
ghost use Rattle.equal_graphs.specs.Questions.{StatesParting, IsParting, AnswersParting};

use crate::joining::domain_of_both;
use crate::matching::{Turns, common_turns};
use answering::{Answer, answer_to};
use finite_domain::{domains, shadows};
use order_encode::{Question, ask_parting};
use order_extensions::has_first_extension;
use plans::Plan;
use rh_base::NoMemory;
use std::alloc::Global;

/// The question whether the graphs do the same, over the domain of the programs of both. Each is deterministic, so that one allowed
/// order stands for all. Where the formula has no model, they do.
fn parting_question(alloc: Global, left: &Plan<'_>, right: &Plan<'_>) -> Result<Question, NoMemory>
    requires left_sure { IsDeterministic (meant_by left.now) (Told (comes left.now.order.now)) }
    requires right_sure { IsDeterministic (meant_by right.now) (Told (comes right.now.order.now)) }
    ensures states { IfOk result
        (λ q. StatesParting (meant_by left.now) left.now.order.now (meant_by right.now) right.now.order.now q.formula) }
    ensures equal { IfOk result (λ q. HasNoModel q.formula
        → AreEqual (meant_by left.now) (Told (comes left.now.order.now)) (meant_by right.now)
        (Told (comes right.now.order.now))) }
    ensures models { IfOk result (λ q. (w : Witness) → CanShow q w
        → IsParting (meant_by left.now) left.now.order.now (meant_by right.now) right.now.order.now w) }
{
    domains();
    shadows();
    has_first_extension(left.order);
    has_first_extension(right.order);
    let domain = domain_of_both(alloc, left.programs, right.programs)?;
    let asked = common_turns(alloc, left, right)?;
    let Turns {
        left: one,
        right: second,
    } = asked;
    ask_parting(
        alloc,
        left.programs,
        one,
        right.programs,
        second.as_slice(),
        &domain,
    )
}

/// Asks whether the graphs do the same.
pub(crate) fn ask_equal(
    alloc: Global,
    left: &Plan<'_>,
    right: &Plan<'_>,
    budget: u64,
) -> Result<Answer, NoMemory>
    requires budget { 1 ≤ budget }
    requires left_sure { IsDeterministic (meant_by left.now) (Told (comes left.now.order.now)) }
    requires right_sure { IsDeterministic (meant_by right.now) (Told (comes right.now.order.now)) }
    ensures { IfOk result (AnswersParting (meant_by left.now) left.now.order.now (meant_by right.now) right.now.order.now budget) }
{
    let question = parting_question(alloc, left, right)?;
    answer_to(alloc, question, budget)
}
