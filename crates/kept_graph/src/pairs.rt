//! The order of some nodes alone, by the pairs of which one comes before the other.

ghost use Rattle.std.specs.Prelude.{◌≡◌, ◌↔◌, ◌<◌, ◌≤◌, ◌++◌, ℕ, length, slice_index_or, IfOk, OnOk};
ghost use Rattle.std.specs.List.{AllByRecursion};
ghost use Rattle.orders.specs.Relation.{Comes};
ghost use Rattle.sure_folders.specs.Pruning.{between};
ghost use Rattle.commute_prune.specs.Pairs.{pair_if, row_of, pairs_of};
ghost use Rattle.kept_graph.specs.Pairs.{comes_at};

use orders::{Order, OrderFault};
use rh_base::{NoMemory, Seq};
use std::alloc::Global;

fn number_at(nodes: &[u32], i: u32) -> u32
    ensures { result ≡ slice_index_or nodes.now i 0 }
{
    match nodes.get(i as usize) {
        Some(k) => *k,
        None => 0,
    }
}

/// Whether the node at one place comes before that at another.
#[tactic(auto, using(crate::proofs::PairLaws::told_by, crate::proofs::PairLaws::below_at))]
fn comes_at(order: &Order, nodes: &[u32], i: u32, j: u32) -> bool
    requires within { AllByRecursion (λ k. k < order.now.count) nodes.now }
    requires i { i < length nodes.now }
    requires j { j < length nodes.now }
    ensures { result ≡ comes_at order.now nodes.now i j }
{
    order.before(number_at(nodes, i), number_at(nodes, j))
}

fn push_pair(
    order: &Order,
    nodes: &[u32],
    i: u32,
    j: u32,
    pairs: &mut Seq<(u32, u32)>,
) -> Result<(), NoMemory>
    requires within { AllByRecursion (λ k. k < order.now.count) nodes.now }
    requires i { i < length nodes.now }
    requires j { j < length nodes.now }
    ensures { OnOk result (pairs.new ≡ pairs.old ++ pair_if (comes_at order.now nodes.now i j) i j) }
{
    if comes_at(order, nodes, i, j) {
        return pairs.push((i, j));
    }
    Ok(())
}

/// Adds the pairs of one place with those that come after it.
fn push_row(
    order: &Order,
    nodes: &[u32],
    i: u32,
    pairs: &mut Seq<(u32, u32)>,
) -> Result<(), NoMemory>
    requires within { AllByRecursion (λ k. k < order.now.count) nodes.now }
    requires few { length nodes.now ≤ order.now.count }
    requires i { i < length nodes.now }
    ensures { OnOk result (pairs.new ≡ pairs.old ++ row_of (comes_at order.now nodes.now) i (length nodes.now)) }
{
    order.count();
    for j in 0..nodes.len() as u32 {
        push_pair(order, nodes, i, j, pairs)?;
    }
    Ok(())
}

pub(crate) fn pairs_of(
    alloc: Global,
    order: &Order,
    nodes: &[u32],
) -> Result<Seq<(u32, u32)>, NoMemory>
    requires within { AllByRecursion (λ k. k < order.now.count) nodes.now }
    requires few { length nodes.now ≤ order.now.count }
    ensures { IfOk result (λ pairs. pairs ≡ pairs_of (comes_at order.now nodes.now) (length nodes.now) (length nodes.now)) }
{
    order.count();
    let mut pairs = Seq::new(alloc);
    for i in 0..nodes.len() as u32 {
        push_row(order, nodes, i, &mut pairs)?;
    }
    Ok(pairs)
}

/// The order of the nodes in the list, numbered by their places.
pub(crate) fn order_between(alloc: Global, order: &Order, nodes: &[u32]) -> Result<Order, NoMemory>
    requires within { AllByRecursion (λ k. k < order.now.count) nodes.now }
    requires few { length nodes.now ≤ order.now.count }
    ensures count { IfOk result (λ part. part.count ≡ length nodes.now) }
    ensures before { IfOk result (λ part. (a b : ℕ) → a < length nodes.now → b < length nodes.now
        → Comes part a b ↔ between (Comes order.now) nodes.now a b) }
{
    order.count();
    let pairs = pairs_of(alloc, order, nodes)?;
    match Order::from_edges(alloc, nodes.len() as u32, pairs.as_slice()) {
        Ok(part) => Ok(part),
        Err(OrderFault::Cycle(_)) => unreachable!(),
        Err(OrderFault::Memory(m)) => Err(m),
    }
}
