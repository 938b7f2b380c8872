//! Finding groups: programs that touch one another are in one.

ghost use Rattle.std.specs.Prelude.{◌≡◌, ◌<◌, ◌++◌, ℕ, [], ◌∷◌, IfOk, OnOk};
ghost use Rattle.fs_semantics.specs.Orders.{Told};
ghost use Rattle.orders.specs.Relation.{comes};
ghost use Rattle.plans.specs.Plans.{meant_by};
ghost use Rattle.settled_groups.specs.Groups.{CommuteWhereSure};
ghost use Rattle.apart_groups.specs.Groups.{AreGroups, MeetIn, other_pair, other_pairs};

use crate::labels::{by_labels, labels_of, sort_labels};
use crate::testing::are_groups;
use commute_prune::{are_proper, sure_pairs, touching_pairs};
use orders::Order;
use plans::Plan;
use rh_base::{NoMemory, Seq};
use std::alloc::Global;

/// All in one group.
fn one_group(alloc: Global, programs: Seq<u32>) -> Result<Seq<Seq<u32>>, NoMemory>
    ensures { IfOk result (λ groups. groups ≡ programs ∷ []) }
{
    let mut groups = Seq::new(alloc);
    groups.push(programs)?;
    Ok(groups)
}

/// Groups by which pairs touch, as far as they are found.
fn proposed(
    alloc: Global,
    order: &Order,
    pairs: &[(u32, u32)],
    programs: &[u32],
) -> Result<Seq<Seq<u32>>, NoMemory> {
    let mut labels = labels_of(alloc, order.count(), pairs)?;
    match sort_labels(alloc, order, labels.as_mut_slice())? {
        Some(sorted) => by_labels(alloc, &labels, sorted.as_slice(), programs),
        None => Ok(Seq::new(alloc)),
    }
}

/// Groups by these pairs, if the order allows them; else all in one.
fn tested(alloc: Global, plan: &Plan<'_>, pairs: &[(u32, u32)]) -> Result<Seq<Seq<u32>>, NoMemory>
    requires { MeetIn (meant_by plan.now) (comes plan.now.order.now) pairs.now }
    ensures { IfOk result (AreGroups (meant_by plan.now) (comes plan.now.order.now)) }
{
    let first = plan.order.first_extension()?;
    let groups = proposed(alloc, plan.order, pairs, first.as_slice())?;
    if are_groups(alloc, plan, pairs, groups.as_slice())? {
        return Ok(groups);
    }
    one_group(alloc, first)
}

/// The programs in groups, which one after the other make an allowed order. Those of different groups commute where the folders
/// stand that are sure before them.
pub fn groups_of(alloc: Global, plan: &Plan<'_>) -> Result<Seq<Seq<u32>>, NoMemory>
    ensures { IfOk result (AreGroups (meant_by plan.now) (comes plan.now.order.now)) }
{
    are_proper(plan.programs);
    sure_pairs();
    let pairs = touching_pairs(alloc, plan.programs, plan.order)?;
    let groups = tested(alloc, plan, pairs.as_slice())?;
    Ok(groups)
}

/// Adds a pair, unless this number is its second.
fn push_other(pairs: &mut Seq<(u32, u32)>, pair: (u32, u32), second: u32) -> Result<(), NoMemory>
    ensures { OnOk result (pairs.new ≡ pairs.old ++ other_pair second pair) }
{
    if pair.1 == second {
        return Ok(());
    }
    pairs.push(pair)
}

/// The pairs of which this number isn't the second.
fn other_pairs(
    alloc: Global,
    pairs: &[(u32, u32)],
    second: u32,
) -> Result<Seq<(u32, u32)>, NoMemory>
    ensures { IfOk result (λ others. others ≡ other_pairs second pairs.now) }
{
    let mut others = Seq::new(alloc);
    for pair in pairs {
        push_other(&mut others, *pair, second)?;
    }
    Ok(others)
}

/// The same where a program commutes with each of lesser number: that it touches them doesn't count.
pub fn groups_beside(alloc: Global, plan: &Plan<'_>, last: u32) -> Result<Seq<Seq<u32>>, NoMemory>
    requires { (k : ℕ) → k < last → CommuteWhereSure (meant_by plan.now) (Told (comes plan.now.order.now)) k last }
    ensures { IfOk result (AreGroups (meant_by plan.now) (comes plan.now.order.now)) }
{
    are_proper(plan.programs);
    sure_pairs();
    let touching = touching_pairs(alloc, plan.programs, plan.order)?;
    let others = other_pairs(alloc, touching.as_slice(), last)?;
    let groups = tested(alloc, plan, others.as_slice())?;
    Ok(groups)
}
