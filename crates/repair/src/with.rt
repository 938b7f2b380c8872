//! The order with arrows. It is made of all pairs of the order, and not of the edges that the graph began with: `repair` is
//! lent the order alone.

ghost use Rattle.std.specs.Prelude.{◌≡◌, ◌<◌, ◌++◌, IfOk, OnOk};
ghost use Rattle.orders.specs.Relation.{comes};
ghost use Rattle.commute_prune.specs.Pairs.{pair_if, row_of, pairs_of};
ghost use Rattle.repair.specs.Arrows.{CanBeAdded, IsOrderWith};

use orders::{Order, OrderFault};
use rh_base::{NoMemory, Seq};
use std::alloc::Global;

/// Adds the pair, if the first comes before the second.
#[tactic(auto, using(crate::proofs::WithLaws::told_by))]
fn push_pair(order: &Order, a: u32, b: u32, pairs: &mut Seq<(u32, u32)>) -> Result<(), NoMemory>
    requires a { a < order.now.count }
    requires b { b < order.now.count }
    ensures { OnOk result (pairs.new ≡ pairs.old ++ pair_if (comes order.now a b) a b) }
{
    if order.before(a, b) {
        return pairs.push((a, b));
    }
    Ok(())
}

/// Adds the pairs of one resource with those that come after it.
fn push_row(order: &Order, a: u32, pairs: &mut Seq<(u32, u32)>) -> Result<(), NoMemory>
    requires { a < order.now.count }
    ensures { OnOk result (pairs.new ≡ pairs.old ++ row_of (comes order.now) a order.now.count) }
{
    for b in 0..order.count() {
        push_pair(order, a, b, pairs)?;
    }
    Ok(())
}

/// The pairs of which the first comes before the second.
pub(crate) fn order_pairs(alloc: Global, order: &Order) -> Result<Seq<(u32, u32)>, NoMemory>
    ensures { IfOk result (λ pairs. pairs ≡ pairs_of (comes order.now) order.now.count order.now.count) }
{
    let mut pairs = Seq::new(alloc);
    for a in 0..order.count() {
        push_row(order, a, &mut pairs)?;
    }
    Ok(pairs)
}

/// The order with these arrows. The pairs are those of the order.
pub(crate) fn with_arrows(
    alloc: Global,
    order: &Order,
    pairs: &[(u32, u32)],
    arrows: &[(u32, u32)],
) -> Result<Order, NoMemory>
    requires pairs { pairs.now ≡ pairs_of (comes order.now) order.now.count order.now.count }
    requires added { CanBeAdded order.now arrows.now }
    ensures { IfOk result (IsOrderWith order.now arrows.now) }
{
    let mut edges = Vec::from_slice(alloc, pairs)?;
    edges.extend_from_slice(arrows)?;
    match Order::from_edges(alloc, order.count(), edges.as_slice()) {
        Ok(made) => Ok(made),
        Err(OrderFault::Cycle(_)) => unreachable!(),
        Err(OrderFault::Memory(m)) => Err(m),
    }
}
