//! The order with one more node, which comes before all others.

ghost use Rattle.std.specs.Prelude.{◌≡◌, ◌+◌, ◌≤◌, ◌<◌, ◌^◌, ◌++◌, IfOk, OnOk};
ghost use Rattle.orders.specs.Relation.{comes};
ghost use Rattle.commute_prune.specs.Pairs.{pair_if, row_of, pairs_of};
ghost use Rattle.given_hosts.specs.Guard.{guard_before};

use orders::{Order, OrderFault};
use rh_base::{NoMemory, Seq};
use std::alloc::Global;

/// Whether the one comes before the other, or is the new node.
#[tactic(auto, using(crate::proofs::GuardLaws::told_by, crate::proofs::GuardLaws::told_last, crate::proofs::GuardLaws::told_first))]
fn comes_first(order: &Order, a: u32, b: u32) -> bool
    requires a { a ≤ order.now.count }
    requires b { b ≤ order.now.count }
    ensures { result ≡ guard_before order.now.count (comes order.now) a b }
{
    let n = order.count();
    if b == n {
        return false;
    }
    if a == n {
        return true;
    }
    order.before(a, b)
}

fn push_pair(order: &Order, i: u32, j: u32, pairs: &mut Seq<(u32, u32)>) -> Result<(), NoMemory>
    requires i { i ≤ order.now.count }
    requires j { j ≤ order.now.count }
    ensures { OnOk result (pairs.new ≡ pairs.old ++ pair_if (guard_before order.now.count (comes order.now) i j) i j) }
{
    if comes_first(order, i, j) {
        return pairs.push((i, j));
    }
    Ok(())
}

/// Adds the pairs of one node with those that come after it.
fn push_row(order: &Order, i: u32, pairs: &mut Seq<(u32, u32)>) -> Result<(), NoMemory>
    requires i { i ≤ order.now.count }
    requires fits { order.now.count + 1 < 2 ^ 32 }
    ensures { OnOk result (pairs.new ≡ pairs.old ++ row_of (guard_before order.now.count (comes order.now)) i (order.now.count + 1)) }
{
    let n = order.count() + 1;
    for j in 0..n {
        push_pair(order, i, j, pairs)?;
    }
    Ok(())
}

fn pairs_of(alloc: Global, order: &Order) -> Result<Seq<(u32, u32)>, NoMemory>
    requires { order.now.count + 1 < 2 ^ 32 }
    ensures { IfOk result (λ pairs. pairs ≡ pairs_of (guard_before order.now.count (comes order.now))
        (order.now.count + 1) (order.now.count + 1)) }
{
    let n = order.count() + 1;
    let mut pairs = Seq::new(alloc);
    for i in 0..n {
        push_row(order, i, &mut pairs)?;
    }
    Ok(pairs)
}

/// The order with the new node, whose edges are all pairs of which the one comes before the other.
fn order_of(alloc: Global, order: &Order) -> Result<Order, NoMemory>
    requires { order.now.count + 1 < 2 ^ 32 }
    ensures count { IfOk result (λ more. more.count ≡ order.now.count + 1) }
    ensures before { IfOk result (λ more. comes more ≡ guard_before order.now.count (comes order.now)) }
{
    let n = order.count() + 1;
    let pairs = pairs_of(alloc, order)?;
    match Order::from_edges(alloc, n, pairs.as_slice()) {
        Ok(more) => Ok(more),
        Err(OrderFault::Cycle(_)) => unreachable!(),
        Err(OrderFault::Memory(m)) => Err(m),
    }
}

/// The same. So many nodes that no number is left for one more are more than memory holds.
pub(crate) fn order_behind(alloc: Global, order: &Order) -> Result<Order, NoMemory>
    ensures count { IfOk result (λ more. more.count ≡ order.now.count + 1) }
    ensures before { IfOk result (λ more. comes more ≡ guard_before order.now.count (comes order.now)) }
{
    if order.count() >= u32::MAX - 1 {
        return Err(NoMemory);
    }
    order_of(alloc, order)
}
