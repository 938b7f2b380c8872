//! Whether a run of a deterministic graph ends without the wanted entry.

ghost use Rattle.std.specs.Prelude.{◌≤◌, IfOk};
ghost use Rattle.fs_semantics.specs.Orders.{Told, IsDeterministic};
ghost use Rattle.orders.specs.Relation.{comes};
ghost use Rattle.plans.specs.Plans.{meant_by};
ghost use Rattle.proof_check.specs.Refuted.{HasNoModel};
ghost use Rattle.order_encode.specs.Asked.{CanShow};
ghost use Rattle.order_encode.specs.declared.witness.Witness.{Witness};
ghost use Rattle.wanted_entry.specs.Entries.{Ensures};
ghost use Rattle.ensured_entry.specs.Questions.{StatesMissing, IsMissed, AnswersMissing};

use crate::probing::domain_with_probe;
use answering::{Answer, answer_to};
use finite_domain::domains;
use order_encode::{Question, ask_missing};
use order_extensions::has_first_extension;
use plans::Plan;
use rh_base::NoMemory;
use std::alloc::Global;
use wanted_entry::{Wanted, wanted_entries};

/// The question whether a run ends without the entry, over the domain of the programs and the probe. Where its formula has no
/// model, the graph ensures the entry: the programs are deterministic, so that the first extension stands for all allowed orders.
fn missing_question(alloc: Global, plan: &Plan<'_>, wanted: &Wanted) -> Result<Question, NoMemory>
    requires deterministic { IsDeterministic (meant_by plan.now) (Told (comes plan.now.order.now)) }
    ensures states { IfOk result (λ q. StatesMissing (meant_by plan.now) plan.now.order.now wanted.now q.formula) }
    ensures ensured { IfOk result (λ q. HasNoModel q.formula → Ensures (meant_by plan.now) (Told (comes plan.now.order.now)) wanted.now) }
    ensures models { IfOk result (λ q. (w : Witness) → CanShow q w → IsMissed (meant_by plan.now) plan.now.order.now wanted.now w) }
{
    domains();
    wanted_entries();
    has_first_extension(plan.order);
    let domain = domain_with_probe(alloc, plan.programs, wanted)?;
    ask_missing(alloc, plan.programs, plan.order, &domain, wanted)
}

/// Asks whether a run ends without the entry.
pub(crate) fn ask_run(
    alloc: Global,
    plan: &Plan<'_>,
    wanted: &Wanted,
    budget: u64,
) -> Result<Answer, NoMemory>
    requires budget { 1 ≤ budget }
    requires deterministic { IsDeterministic (meant_by plan.now) (Told (comes plan.now.order.now)) }
    ensures { IfOk result (AnswersMissing (meant_by plan.now) plan.now.order.now wanted.now budget) }
{
    let question = missing_question(alloc, plan, wanted)?;
    answer_to(alloc, question, budget)
}
