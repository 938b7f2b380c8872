//! The search for the next program that may go first or last.
//!
//! Of each program it is noted up to which other one all that are kept let it go to an end of the order, and the search goes on
//! from there: what is kept gets less with each move, so what let it go lets it go still. So each pair is looked at once for
//! each end, quadratically often; without the notes a thousand programs took a thousand million looks.

ghost use Rattle.std.specs.Prelude.{◌≡◌, ℕ, ◌<◌, ◌≤◌, Bool, true, false, List, length, slice_index_or, IfOk, IfSome};
ghost use Rattle.std.specs.List.{AllByRecursion, find};
ghost use Rattle.orders.specs.Relation.{Relation};
ghost use Rattle.sure_folders.specs.Pruning.{without};
ghost use Rattle.commute_prune.specs.Steps.{lets, may};
ghost use Rattle.commute_prune.specs.Search.{blocks, AreMarked, IsSeen, IsSearch, IsNothingSeen};

use crate::marks::is_marked;
use crate::moves::{lets_first, lets_last};
use orders::Order;
use rh_base::{NoMemory, Seq};
use std::alloc::Global;

/// The end of an order to which a program may go.
#[derive(Clone, Copy, Debug, PartialEq, Eq)]
pub(crate) enum End {
    First,
    Last,
}

/// Whether a program lets another one go to the end.
fn lets(order: &Order, clear: &[Seq<bool>], end: End, k: u32, j: u32) -> bool
    requires k { k < order.now.count }
    requires j { j < order.now.count }
    ensures { result ≡ lets end order.now clear.now k j }
{
    match end {
        End::First => lets_first(order, clear, k, j),
        End::Last => lets_last(order, clear, k, j),
    }
}

/// Whether a program is kept and doesn't let another one go to the end.
fn blocks(order: &Order, clear: &[Seq<bool>], stays: &[bool], end: End, k: u32, j: u32) -> bool
    requires k { k < order.now.count }
    requires j { j < order.now.count }
    ensures { result ≡ blocks (lets end order.now clear.now) stays.now k j }
{
    if !is_marked(stays, j as usize) {
        return false;
    }
    !lets(order, clear, end, k, j)
}

/// The first, from one number on, that is kept and doesn't let k go to the end; the number of all where there is none.
fn stop(order: &Order, clear: &[Seq<bool>], stays: &[bool], end: End, k: u32, from: u32) -> u32
    requires k { k < order.now.count }
    requires from { from ≤ order.now.count }
    ensures few { result ≤ order.now.count }
    ensures passed { (j : ℕ) → from ≤ j → j < result → blocks (lets end order.now clear.now) stays.now k j ≡ false }
    ensures stops { result < order.now.count → blocks (lets end order.now clear.now) stays.now k result ≡ true }
{
    let n = order.count();
    for j in from..n {
        if blocks(order, clear, stays, end, k, j) {
            return j;
        }
    }
    n
}

/// Whether what is kept lets a program go to the end. How far that was seen is noted, and isn't looked at again: what is kept gets
/// less with each move.
fn may_go(
    order: &Order,
    clear: &[Seq<bool>],
    end: End,
    stays: &[bool],
    k: u32,
    seen: &mut [u32],
) -> bool
    requires k { k < order.now.count }
    requires long { length seen.old ≡ order.now.count }
    requires few { slice_index_or seen.old k 0 ≤ order.now.count }
    ensures may { (kept : List ℕ) → AllByRecursion (λ j. j < order.now.count) kept → AreMarked kept stays.now
        → IsSeen (lets end order.now clear.now) order.now.count kept seen.old → result ≡ may end order.now clear.now kept k }
    ensures seen { (kept : List ℕ) → AreMarked kept stays.now → IsSeen (lets end order.now clear.now) order.now.count kept seen.old
        → IsSeen (lets end order.now clear.now) order.now.count kept seen.new }
{
    let at = stop(order, clear, stays, end, k, seen[k as usize]);
    seen[k as usize] = at;
    at == order.count()
}

/// The first of the kept ones that may go to the end.
fn find_at(
    order: &Order,
    clear: &[Seq<bool>],
    end: End,
    kept: &[u32],
    stays: &[bool],
    seen: &mut [u32],
) -> Option<u32>
    requires kept { AllByRecursion (λ j. j < order.now.count) kept.now }
    requires stays { AreMarked kept.now stays.now }
    requires seen { IsSeen (lets end order.now clear.now) order.now.count kept.now seen.old }
    ensures found { result ≡ find (may end order.now clear.now kept.now) kept.now }
    ensures known { IfSome result (λ k. k < order.now.count) }
    ensures seen { IsSeen (lets end order.now clear.now) order.now.count kept.now seen.new }
{
    for k in kept {
        if may_go(order, clear, end, stays, *k, seen) {
            return Some(*k);
        }
    }
    None
}

/// What is kept, as marks, and of each program up to which number it was seen that what is kept lets it go first, and last.
#[derive(Drop)]
pub(crate) struct Search {
    stays: Vec<bool>,
    first: Vec<u32>,
    last: Vec<u32>,
}

impl Search {
    /// All are kept, and nothing was seen.
    pub(crate) fn new(alloc: Global, count: u32) -> Result<Search, NoMemory>
        ensures { IfOk result (IsNothingSeen count) }
    {
        let stays = vec![in alloc; true; count as usize]?;
        let first = vec![in alloc; 0; count as usize]?;
        let last = vec![in alloc; 0; count as usize]?;
        Ok(Search { stays, first, last })
    }

    /// The first of the kept ones that may go to the end.
    pub(crate) fn find(
        &mut self,
        order: &Order,
        clear: &[Seq<bool>],
        end: End,
        kept: &[u32],
    ) -> Option<u32>
        requires kept { AllByRecursion (λ j. j < order.now.count) kept.now }
        requires search { IsSearch order.now clear.now kept.now self.old }
        ensures found { result ≡ find (may end order.now clear.now kept.now) kept.now }
        ensures known { IfSome result (λ k. k < length self.new.stays.items) }
        ensures search { IsSearch order.now clear.now kept.now self.new }
    {
        match end {
            End::First => find_at(order, clear, end, kept, &self.stays, &mut self.first),
            End::Last => find_at(order, clear, end, kept, &self.stays, &mut self.last),
        }
    }

    /// A program isn't kept any more.
    pub(crate) fn take_out(&mut self, k: u32)
        requires { k < length self.old.stays.items }
        ensures { (order : Relation) (rows : List (List Bool)) (kept : List ℕ) → IsSearch order rows kept self.old
            → IsSearch order rows (without k kept) self.new }
    {
        self.stays[k as usize] = false;
    }
}
