//! Whether all programs commute of which neither comes before the other. Then no order matters, so a refutation of this formula
//! answers the first question as one of the formula of orders does, and stands in its place in a proof.

ghost use Rattle.std.specs.Prelude.{◌≤◌, IfOk, IfNone, IfSome};
ghost use Rattle.fs_semantics.specs.Orders.{Told};
ghost use Rattle.fs_lang.specs.Meaning.{programs_in};
ghost use Rattle.fs_interpreter.specs.Places.{CoversSteps};
ghost use Rattle.finite_domain.specs.Layouts.{IsLayout};
ghost use Rattle.path_domain.specs.Laid.{layout_of};
ghost use Rattle.orders.specs.Relation.{comes};
ghost use Rattle.plans.specs.Plans.{meant_by};
ghost use Rattle.determinism.specs.Answers.{IsNo, StatesCommuting, MayNotCommute};

use answering::refuted;
use cnf::{Cnf, Lit};
use commute_prune::are_proper;
use finite_domain::{domains, shadows};
use fs_semantics::neighbours;
use order_encode::ask_pairs;
use path_domain::{Domain, domain};
use plans::Plan;
use proof_check::Verified;
use rh_base::{NoMemory, Seq};
use std::alloc::Global;

/// A formula that has no model exactly where all programs commute of which neither comes before the other, and literals that a
/// solver may try first. It is over the domain of these programs.
fn question_over(alloc: Global, plan: &Plan<'_>, d: &Domain) -> Result<(Cnf, Seq<Lit>), NoMemory>
    requires layout { IsLayout (meant_by plan.now) (layout_of d.now) }
    requires covers { CoversSteps d.now.table (programs_in plan.now.programs.now) }
    ensures states { IfOk result (λ r. StatesCommuting (meant_by plan.now) (Told (comes plan.now.order.now)) r.0) }
{
    domains();
    shadows();
    ask_pairs(alloc, plan.programs, plan.order, d)
}

/// The same, with a domain of its own.
pub(crate) fn question(alloc: Global, plan: &Plan<'_>) -> Result<(Cnf, Seq<Lit>), NoMemory>
    ensures states { IfOk result (λ r. StatesCommuting (meant_by plan.now) (Told (comes plan.now.order.now)) r.0) }
{
    let d = domain(alloc, plan.programs)?;
    question_over(alloc, plan, &d)
}

/// A refuted formula, where all programs commute of which neither comes before the other. There is none where some don't, or
/// where the budget was spent.
pub(crate) fn all_commute(
    alloc: Global,
    plan: &Plan<'_>,
    d: &Domain,
    budget: u64,
) -> Result<Option<Verified>, NoMemory>
    requires layout { IsLayout (meant_by plan.now) (layout_of d.now) }
    requires covers { CoversSteps d.now.table (programs_in plan.now.programs.now) }
    requires budget { 1 ≤ budget }
    ensures sure { IfOk result (λ found. IfSome found (λ v. IsNo (meant_by plan.now) (Told (comes plan.now.order.now)) v.formula)) }
    ensures none { IfOk result (λ found. IfNone found (MayNotCommute (meant_by plan.now) (Told (comes plan.now.order.now)) budget)) }
{
    are_proper(plan.programs);
    neighbours();
    let (cnf, firsts) = question_over(alloc, plan, d)?;
    let found = refuted(alloc, cnf, firsts.as_slice(), budget)?;
    Ok(found)
}
