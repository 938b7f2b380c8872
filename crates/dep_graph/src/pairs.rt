//! The order of the plain resources alone.

ghost use Rattle.std.specs.Prelude.{◌≡◌, ◌↔◌, ◌<◌, ◌≤◌, ◌*◌, ◌++◌, ℕ, length, slice_index, IfOk, OnOk};
ghost use Rattle.std.specs.List.{All};
ghost use Rattle.catalog_semantics.specs.States.{declared_bound};
ghost use Rattle.orders.specs.Relation.{comes, Comes};
ghost use Rattle.dep_graph.specs.Pairs.{IsWithin, comes_at, pair_if, pairs_in_row, pairs_below};

use orders::{Order, OrderFault};
use rh_base::{NoMemory, Seq};
use std::alloc::Global;

/// Whether one node comes before another, by their numbers.
pub fn comes(whole: &Order, a: u32, b: u32) -> bool
    requires a { a < whole.now.count }
    requires b { b < whole.now.count }
    ensures { result ≡ comes whole.now a b }
{
    whole.before(a, b)
}

/// Adds a pair, if the one comes before the other.
fn push_pair(
    whole: &Order,
    plain: &[u32],
    i: u32,
    j: u32,
    pairs: &mut Seq<(u32, u32)>,
) -> Result<(), NoMemory>
    requires within { All (IsWithin whole.now.count) plain.now }
    requires i { i < length plain.now }
    requires j { j < length plain.now }
    ensures { OnOk result (pairs.new ≡ pairs.old ++ pair_if (comes_at whole.now plain.now i j) i j) }
{
    let a = 2 * plain[i as usize];
    let b = 2 * plain[j as usize];
    if comes(whole, a, b) {
        return pairs.push((i, j));
    }
    Ok(())
}

/// Adds the pairs of one plain resource with those that come after it.
fn push_row(
    whole: &Order,
    plain: &[u32],
    i: u32,
    pairs: &mut Seq<(u32, u32)>,
) -> Result<(), NoMemory>
    requires within { All (IsWithin whole.now.count) plain.now }
    requires few { length plain.now ≤ declared_bound }
    requires i { i < length plain.now }
    ensures { OnOk result (pairs.new ≡ pairs.old ++ pairs_in_row whole.now plain.now i (length plain.now)) }
{
    for j in 0..plain.len() as u32 {
        push_pair(whole, plain, i, j, pairs)?;
    }
    Ok(())
}

/// The pairs of plain resources of which one comes before the other.
fn pairs_of(alloc: Global, whole: &Order, plain: &[u32]) -> Result<Seq<(u32, u32)>, NoMemory>
    requires within { All (IsWithin whole.now.count) plain.now }
    requires few { length plain.now ≤ declared_bound }
    ensures { IfOk result (λ pairs. pairs ≡ pairs_below whole.now plain.now (length plain.now)) }
{
    let mut pairs = Seq::new(alloc);
    for i in 0..plain.len() as u32 {
        push_row(whole, plain, i, &mut pairs)?;
    }
    Ok(pairs)
}

/// The order between plain resources that an order of all nodes gives.
pub fn plain_order(alloc: Global, whole: &Order, plain: &[u32]) -> Result<Order, NoMemory>
    requires within { All (IsWithin whole.now.count) plain.now }
    requires few { length plain.now ≤ declared_bound }
    ensures count { IfOk result (λ order. order.count ≡ length plain.now) }
    ensures before { IfOk result (λ order. (i j : ℕ) → i < length plain.now → j < length plain.now
        → Comes order i j ↔ Comes whole.now (2 * slice_index plain.now i) (2 * slice_index plain.now j)) }
{
    whole.count();
    let pairs = pairs_of(alloc, whole, plain)?;
    match Order::from_edges(alloc, plain.len() as u32, pairs.as_slice()) {
        Ok(order) => Ok(order),
        Err(OrderFault::Cycle(_)) => unreachable!(),
        Err(OrderFault::Memory(m)) => Err(m),
    }
}
