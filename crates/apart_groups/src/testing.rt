//! Whether groups are in an allowed order, and no program of one touches one of another.

ghost use Rattle.std.specs.Prelude.{◌≡◌, IfOk};
ghost use Rattle.std.specs.Bool.{OnTrue};
ghost use Rattle.std.specs.List.{AllByRecursion};
ghost use Rattle.orders.specs.Relation.{comes};
ghost use Rattle.plans.specs.Plans.{meant_by};
ghost use Rattle.settled_groups.specs.Groups.{in_turn};
ghost use Rattle.apart_groups.specs.Groups.{AreGroups, group_of, AreNumbered, IsWithin, MeetIn};

use plans::Plan;
use rh_base::{NoMemory, Seq};
use std::alloc::Global;

/// The programs of all groups, one group after the other.
fn in_turn(alloc: Global, groups: &[Seq<u32>]) -> Result<Vec<u32>, NoMemory>
    ensures { IfOk result (λ whole. whole.items ≡ in_turn groups.now) }
{
    let mut whole = Vec::new(alloc);
    for group in groups {
        whole.extend_from_slice(group.as_slice())?;
    }
    Ok(whole)
}

/// Gives the programs of a group its number.
fn number_group(numbers: &mut [usize], group: &[u32], i: usize) {
    for k in group {
        if let Some(number) = numbers.get_mut(*k as usize) {
            *number = i;
        }
    }
}

/// The number of each program's group.
fn numbers_of(alloc: Global, count: u32, groups: &[Seq<u32>]) -> Result<Vec<usize>, NoMemory> {
    let mut numbers = vec![in alloc; 0; count as usize]?;
    for (i, group) in groups.iter().enumerate() {
        number_group(&mut numbers, group.as_slice(), i);
    }
    Ok(numbers)
}

/// The number of a program's group.
fn group_of(numbers: &[usize], k: u32) -> usize
    ensures { result ≡ group_of numbers.now k }
{
    match numbers.get(k as usize) {
        Some(number) => *number,
        None => 0,
    }
}

/// Whether the programs of a group have its number.
fn has_number(numbers: &[usize], group: &[u32], i: usize) -> bool
    ensures { OnTrue result (AllByRecursion (λ k. group_of numbers.now k ≡ i) group.now) }
{
    for k in group {
        if group_of(numbers, *k) != i {
            return false;
        }
    }
    true
}

/// Whether the programs of each group have its number.
fn are_numbered(numbers: &[usize], groups: &[Seq<u32>]) -> bool
    ensures { OnTrue result (AreNumbered numbers.now groups.now) }
{
    for (i, group) in groups.iter().enumerate() {
        if !has_number(numbers, group.as_slice(), i) {
            return false;
        }
    }
    true
}

/// Whether the programs of each pair are of one group.
fn are_within(numbers: &[usize], pairs: &[(u32, u32)]) -> bool
    ensures { OnTrue result (AllByRecursion (IsWithin numbers.now) pairs.now) }
{
    for pair in pairs {
        if group_of(numbers, pair.0) != group_of(numbers, pair.1) {
            return false;
        }
    }
    true
}

/// Whether these are groups of an allowed order, where programs commute that are no pair of these.
pub(crate) fn are_groups(
    alloc: Global,
    plan: &Plan<'_>,
    pairs: &[(u32, u32)],
    groups: &[Seq<u32>],
) -> Result<bool, NoMemory>
    requires { MeetIn (meant_by plan.now) (comes plan.now.order.now) pairs.now }
    ensures { IfOk result (λ found. OnTrue found (AreGroups (meant_by plan.now) (comes plan.now.order.now) groups.now)) }
{
    let whole = in_turn(alloc, groups)?;
    let mut marks = vec![in alloc; false; plan.order.count() as usize]?;
    if !plan.order.is_extension(&whole, marks.as_mut_slice()) {
        return Ok(false);
    }
    let numbers = numbers_of(alloc, plan.order.count(), groups)?;
    if !are_numbered(&numbers, groups) {
        return Ok(false);
    }
    Ok(are_within(&numbers, pairs))
}
