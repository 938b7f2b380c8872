//! Whether a second run changes anything, asked of each of several groups of programs by itself.
//!
//! Compositional reasoning: programs of different groups commute, so where each group leaves what it left, all do
//! (`settled_groups`). The formula of the whole grows faster than the graph, and packages with their files and services mostly
//! don't touch one another. Also programs that come one before the other are of one group, if they touch: what comes behind may
//! undo what settles by itself. A group that doesn't settle says nothing, since it may never meet the tree from which it
//! doesn't; then the whole graph is asked, and what the groups took till then is lost. All groups have one refutation together,
//! so that one proof is printed.

ghost use Rattle.std.specs.Prelude.{◌≤◌, ◌<◌, ◌^◌, map, length, IfOk, IfSome};
ghost use Rattle.std.specs.List.{AllByRecursion};
ghost use Rattle.fs_semantics.specs.Orders.{Told, IsDeterministic, IsIdempotent};
ghost use Rattle.fs_lang.specs.Meaning.{program_of};
ghost use Rattle.orders.specs.Relation.{comes};
ghost use Rattle.plans.specs.Plans.{meant_by};
ghost use Rattle.proof_check.specs.Refuted.{HasNoModel};
ghost use Rattle.settled_groups.specs.Groups.{GroupSettles};
ghost use Rattle.apart_groups.specs.Groups.{AreGroups};
ghost use Rattle.second_runs.specs.Questions.{IsSecondProof};

use answering::{Answer, answer_to};
use apart_groups::groups_of;
use commute_prune::{are_proper, unordered};
use determinism::joined;
use finite_domain::{domains, witnesses_over_the_domain};
use fs_lang::Program;
use fs_semantics::linear_extensions;
use kept_graph::chosen;
use order_encode::{Question, ask_twice};
use path_domain::domain;
use plans::Plan;
use proof_check::Verified;
use rh_base::{NoMemory, Seq};
use settled_groups::settled_groups;
use std::alloc::Global;

/// The question whether a second run of these programs alone, in this order, changes anything.
fn group_question(alloc: Global, programs: &[Program], group: &[u32]) -> Result<Question, NoMemory>
    requires below { AllByRecursion (λ k. k < length programs.now) group.now }
    requires few { length group.now < 2 ^ 32 }
    ensures { IfOk result (λ q. HasNoModel q.formula → GroupSettles (map program_of programs.now) group.now) }
{
    domains();
    linear_extensions();
    witnesses_over_the_domain();
    let some = chosen(alloc, programs, group)?;
    let order = unordered(alloc, group.len() as u32)?;
    let d = domain(alloc, some.as_slice())?;
    ask_twice(alloc, some.as_slice(), &order, &d)
}

/// A refuted formula, where these programs alone settle. There is none where they don't, or where the budget was spent.
fn group_settles(
    alloc: Global,
    programs: &[Program],
    group: &[u32],
    budget: u64,
) -> Result<Option<Verified>, NoMemory>
    requires below { AllByRecursion (λ k. k < length programs.now) group.now }
    requires budget { 1 ≤ budget }
    ensures { IfOk result (λ found. IfSome found (λ v. GroupSettles (map program_of programs.now) group.now)) }
{
    if group.len() > u32::MAX as usize {
        return Ok(None);
    }
    let question = group_question(alloc, programs, group)?;
    match answer_to(alloc, question, budget)? {
        Answer::Refuted(verified) => Ok(Some(verified)),
        Answer::Shown(_) => Ok(None),
        Answer::Spent(_, _) => Ok(None),
    }
}

/// Refuted formulas, where each group settles by itself.
fn each_settles(
    alloc: Global,
    programs: &[Program],
    groups: &[Seq<u32>],
    budget: u64,
) -> Result<Option<Vec<Verified>>, NoMemory>
    requires below { AllByRecursion (AllByRecursion (λ k. k < length programs.now)) groups.now }
    requires budget { 1 ≤ budget }
    ensures { IfOk result (λ found. IfSome found (λ parts. AllByRecursion (GroupSettles (map program_of programs.now)) groups.now)) }
{
    let mut parts = Vec::new(alloc);
    for group in groups {
        match group_settles(alloc, programs, group.as_slice(), budget)? {
            Some(verified) => parts.push(verified)?,
            None => return Ok(None),
        }
    }
    Ok(Some(parts))
}

/// A refuted formula, where a second run changes nothing since it does so in none of these groups. There is none where all is one
/// group, or where some group doesn't tell.
pub fn same_in_groups(
    alloc: Global,
    plan: &Plan<'_>,
    groups: &[Seq<u32>],
    budget: u64,
) -> Result<Option<Verified>, NoMemory>
    requires budget { 1 ≤ budget }
    requires deterministic { IsDeterministic (meant_by plan.now) (Told (comes plan.now.order.now)) }
    requires groups { AreGroups (meant_by plan.now) (comes plan.now.order.now) groups.now }
    ensures same { IfOk result (λ found. IfSome found (λ v. IsIdempotent (meant_by plan.now) (Told (comes plan.now.order.now)))) }
    ensures proved { IfOk result (λ found. IfSome found (λ v. IsSecondProof (meant_by plan.now) plan.now.order.now v.formula)) }
{
    are_proper(plan.programs);
    settled_groups();
    if groups.len() < 2 {
        return Ok(None);
    }
    match each_settles(alloc, plan.programs, groups, budget)? {
        Some(parts) => joined(alloc, &parts),
        None => Ok(None),
    }
}

/// The same of groups of programs that don't touch one another.
pub(crate) fn same_by_groups(
    alloc: Global,
    plan: &Plan<'_>,
    budget: u64,
) -> Result<Option<Verified>, NoMemory>
    requires budget { 1 ≤ budget }
    requires deterministic { IsDeterministic (meant_by plan.now) (Told (comes plan.now.order.now)) }
    ensures same { IfOk result (λ found. IfSome found (λ v. IsIdempotent (meant_by plan.now) (Told (comes plan.now.order.now)))) }
    ensures proved { IfOk result (λ found. IfSome found (λ v. IsSecondProof (meant_by plan.now) plan.now.order.now v.formula)) }
{
    let groups = groups_of(alloc, plan)?;
    same_in_groups(alloc, plan, groups.as_slice(), budget)
}
