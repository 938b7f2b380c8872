//! The pairs of programs whose order may matter, and those that touch one another.
//!
//! These are the dependent pairs of partial-order reduction, the former those alone of which neither has to come first. What
//! predecessors leave counts, too: a file in /etc looks at /etc, but its own package has made sure of that.

ghost use Rattle.std.specs.Prelude.{◌≡◌, ◌<◌, ◌++◌, ℕ, map, length, IfOk, OnOk};
ghost use Rattle.fs_lang.specs.Meaning.{program_of};
ghost use Rattle.orders.specs.Relation.{comes, Comes};
ghost use Rattle.commute_prune.specs.Pairs.{pair_if, row_of, pairs_of};
ghost use Rattle.commute_prune.specs.Doubtful.{is_doubtful, AreDoubtful, AreTouching};

use crate::moves::{are_apart, comes};
use crate::sure::clear_where_sure;
use fs_lang::Program;
use orders::{Order, OrderFault};
use rh_base::{NoMemory, Seq};
use std::alloc::Global;

fn is_doubtful(order: &Order, clear: &[Seq<bool>], a: u32, b: u32) -> bool
    requires a { a < order.now.count }
    requires b { b < order.now.count }
    ensures { result ≡ is_doubtful order.now clear.now a b }
{
    if b <= a {
        return false;
    }
    if comes(order, a, b) {
        return false;
    }
    if comes(order, b, a) {
        return false;
    }
    !are_apart(clear, a, b)
}

fn push_pair(
    order: &Order,
    clear: &[Seq<bool>],
    a: u32,
    b: u32,
    pairs: &mut Seq<(u32, u32)>,
) -> Result<(), NoMemory>
    requires a { a < order.now.count }
    requires b { b < order.now.count }
    ensures { OnOk result (pairs.new ≡ pairs.old ++ pair_if (is_doubtful order.now clear.now a b) a b) }
{
    if is_doubtful(order, clear, a, b) {
        return pairs.push((a, b));
    }
    Ok(())
}

/// Adds the doubtful pairs in which this program has the lesser number.
fn push_row(
    order: &Order,
    clear: &[Seq<bool>],
    a: u32,
    pairs: &mut Seq<(u32, u32)>,
) -> Result<(), NoMemory>
    requires a { a < order.now.count }
    ensures { OnOk result (pairs.new ≡ pairs.old ++ row_of (is_doubtful order.now clear.now) a order.now.count) }
{
    for b in 0..order.count() {
        push_pair(order, clear, a, b, pairs)?;
    }
    Ok(())
}

fn pairs_of(alloc: Global, order: &Order, clear: &[Seq<bool>]) -> Result<Seq<(u32, u32)>, NoMemory>
    ensures { IfOk result (λ pairs. pairs ≡ pairs_of (is_doubtful order.now clear.now) order.now.count order.now.count) }
{
    let mut pairs = Seq::new(alloc);
    for a in 0..order.count() {
        push_row(order, clear, a, &mut pairs)?;
    }
    Ok(pairs)
}

/// The pairs of programs of which neither comes before the other and which aren't apart, each where the folders stand that are
/// sure before it. Where there are none, the order doesn't matter.
pub fn doubtful_pairs(
    alloc: Global,
    programs: &[Program],
    order: &Order,
) -> Result<Seq<(u32, u32)>, NoMemory>
    requires { length programs.now ≡ order.now.count }
    ensures { IfOk result (AreDoubtful (map program_of programs.now) (comes order.now)) }
{
    let clear = clear_where_sure(alloc, programs, order)?;
    pairs_of(alloc, order, clear.as_slice())
}

/// Nodes of which none comes before another.
pub fn unordered(alloc: Global, count: u32) -> Result<Order, NoMemory>
    ensures count { IfOk result (λ order. order.count ≡ count) }
    ensures free { IfOk result (λ order. (a b : ℕ) → Comes order a b → ⊥) }
{
    match Order::from_edges(alloc, count, &[]) {
        Ok(order) => Ok(order),
        Err(OrderFault::Cycle(_)) => unreachable!(),
        Err(OrderFault::Memory(m)) => Err(m),
    }
}

/// The pairs of programs that aren't apart, each where the folders stand that are sure before it: in order or not.
pub fn touching_pairs(
    alloc: Global,
    programs: &[Program],
    order: &Order,
) -> Result<Seq<(u32, u32)>, NoMemory>
    requires { length programs.now ≡ order.now.count }
    ensures { IfOk result (AreTouching (map program_of programs.now) (comes order.now)) }
{
    let clear = clear_where_sure(alloc, programs, order)?;
    // As pairs whose order may matter, were none of them in order.
    let free = unordered(alloc, order.count())?;
    pairs_of(alloc, &free, clear.as_slice())
}
