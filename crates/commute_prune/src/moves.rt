//! Which program lets another one go first or last.

ghost use Rattle.std.specs.Prelude.{◌≡◌, ◌<◌, IfOk};
ghost use Rattle.orders.specs.Relation.{comes};
ghost use Rattle.commute_prune.specs.Matrix.{cell};
ghost use Rattle.sure_folders.specs.Pruning.{without};
ghost use Rattle.commute_prune.specs.Steps.{are_apart, lets_last, lets_first};

use orders::Order;
use rh_base::{NoMemory, Seq};
use std::alloc::Global;

/// Whether the first comes before the second.
#[tactic(auto, using(crate::proofs::StepLaws::told_by))]
pub(crate) fn comes(order: &Order, a: u32, b: u32) -> bool
    requires a { a < order.now.count }
    requires b { b < order.now.count }
    ensures { result ≡ comes order.now a b }
{
    order.before(a, b)
}

fn is_clear_at(clear: &[Seq<bool>], i: u32, j: u32) -> bool
    ensures { result ≡ cell clear.now i j }
{
    match clear.get(i as usize) {
        Some(row) => match row.as_slice().get(j as usize) {
            Some(cell) => *cell,
            None => false,
        },
        None => false,
    }
}

/// Whether neither program changes what the other one looks at.
pub(crate) fn are_apart(clear: &[Seq<bool>], i: u32, j: u32) -> bool
    ensures { result ≡ are_apart clear.now i j }
{
    if is_clear_at(clear, i, j) {
        is_clear_at(clear, j, i)
    } else {
        false
    }
}

/// Whether a program lets another one go last.
pub(crate) fn lets_last(order: &Order, clear: &[Seq<bool>], k: u32, j: u32) -> bool
    requires k { k < order.now.count }
    requires j { j < order.now.count }
    ensures { result ≡ lets_last order.now clear.now k j }
{
    if comes(order, k, j) {
        return false;
    }
    if j == k {
        return true;
    }
    if comes(order, j, k) {
        return true;
    }
    are_apart(clear, k, j)
}

/// Whether a program lets another one go first.
pub(crate) fn lets_first(order: &Order, clear: &[Seq<bool>], k: u32, j: u32) -> bool
    requires k { k < order.now.count }
    requires j { j < order.now.count }
    ensures { result ≡ lets_first order.now clear.now k j }
{
    if comes(order, j, k) {
        return false;
    }
    if j == k {
        return true;
    }
    if comes(order, k, j) {
        return true;
    }
    are_apart(clear, k, j)
}

/// The numbers without one of them.
pub(crate) fn without(alloc: Global, kept: &[u32], k: u32) -> Result<Seq<u32>, NoMemory>
    ensures { IfOk result (λ left. left ≡ without k kept.now) }
{
    let mut left = Seq::new(alloc);
    for j in kept {
        if *j != k {
            left.push(*j)?;
        }
    }
    Ok(left)
}
