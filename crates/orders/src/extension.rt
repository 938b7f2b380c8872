//! Linear extensions of an order.
//!
//! The first one by counting what each node waits for (Kahn 1962), where the least goes of those that wait for none. So it is
//! the first of all in the order of lists, and who speaks of it need not speak of how it is found.
ghost use Rattle.std.specs.Prelude.{◌≡◌, ◌==◌, ℕ, ◌+◌, ◌<◌, ◌≤◌, ◌&&◌, ◌↔◌, [], false, true, length, slice_index, if◌then◌else◌, IfOk, IsTrue, MatchOption};
ghost use Rattle.std.specs.List.{AllByRecursion};
ghost use Rattle.fs_semantics.specs.Orders.{IsLinearExtension, NoneAhead};
ghost use Rattle.orders.specs.Relation.{comes, Comes};
ghost use Rattle.orders.specs.Extensions.{TakesLeast};
ghost use Rattle.orders.specs.Counting.{CanGo, waiting};

use crate::marks::{each_once, unset_marks};
use crate::order::Order;
use rh_base::{NoMemory, Seq};

/// The least node that isn't taken and waits for none.
fn first_ready(taken: &[bool], waits: &[u32], n: u32) -> Option<u32>
    requires taken { length taken.now ≡ n }
    requires waits { length waits.now ≡ n }
    ensures { MatchOption result
        ((k : ℕ) → k < n → CanGo taken.now waits.now k → ⊥)
        (λ k. (k < n) × CanGo taken.now waits.now k
        × ((j : ℕ) → j < k → CanGo taken.now waits.now j → ⊥)) }
{
    for node in 0..n {
        let is_taken = taken[node as usize];
        let wait = waits[node as usize];
        if !is_taken && wait == 0 {
            return Some(node);
        }
    }
    None
}

impl Order {
    /// Whether the list is a linear extension. The marks are overwritten.
    pub fn is_extension(&self, list: &[u32], marks: &mut [bool]) -> bool
        requires { length marks.old ≡ self.now.count }
        ensures { IsTrue result ↔ IsLinearExtension self.now.count (Comes self.now) list.now }
    {
        if !each_once(list, marks) {
            return false;
        }
        self.is_kept(list)
    }

    /// Whether none of these nodes comes before b.
    fn none_before(&self, list: &[u32], b: u32) -> bool
        requires list { AllByRecursion (λ k. k < self.now.count) list.now }
        requires b { b < self.now.count }
        ensures { IsTrue result ↔ AllByRecursion (λ a. Comes self.now a b → ⊥) list.now }
    {
        for a in list {
            if self.comes(*a, b) {
                return false;
            }
        }
        true
    }

    fn is_kept(&self, list: &[u32]) -> bool
        requires { AllByRecursion (λ k. k < self.now.count) list.now }
        ensures { IsTrue result ↔ NoneAhead (Comes self.now) list.now }
    {
        for (k, node) in list.iter().enumerate() {
            if !self.none_before(&list[k + 1..], *node) {
                return false;
            }
        }
        true
    }

    /// For each node how many come before it.
    fn waits(&self) -> Result<Vec<u32>, NoMemory>
        ensures len { IfOk result (λ waits. length waits.items ≡ self.now.count) }
        ensures waits { IfOk result (λ waits. (b : ℕ) → b < self.now.count
            → slice_index waits.items b ≡ waiting (comes self.now) [] self.now.count b) }
    {
        let n = self.count();
        let mut waits = vec![in self.alloc(); 0; n as usize]?;
        for a in 0..n {
            self.hold(a, waits.as_mut_slice());
        }
        Ok(waits)
    }

    /// Those behind a wait for one node more.
    fn hold(&self, a: u32, waits: &mut [u32])
        requires len { length waits.old ≡ self.now.count }
        requires a { a < self.now.count }
        requires few { (b : ℕ) → b < self.now.count → slice_index waits.old b ≤ a }
        ensures { (b : ℕ) → b < self.now.count
            → slice_index waits.new b ≡ (if comes self.now a b then 1 else 0) + slice_index waits.old b }
    {
        for b in 0..self.count() {
            if self.comes(a, b) {
                waits[b as usize] += 1;
            }
        }
    }

    /// Those behind a wait for one node less.
    fn release(&self, a: u32, waits: &mut [u32])
        requires len { length waits.old ≡ self.now.count }
        requires a { a < self.now.count }
        requires some { (b : ℕ) → b < self.now.count → IsTrue (comes self.now a b) → 1 ≤ slice_index waits.old b }
        ensures { (b : ℕ) → b < self.now.count
            → (if comes self.now a b then 1 else 0) + slice_index waits.new b ≡ slice_index waits.old b }
    {
        for b in 0..self.count() {
            if self.comes(a, b) {
                waits[b as usize] -= 1;
            }
        }
    }

    /// The linear extension that takes at each step the least node whose predecessors are all taken.
    pub fn first_extension(&self) -> Result<Seq<u32>, NoMemory>
        ensures allowed { IfOk result (IsLinearExtension self.now.count (Comes self.now)) }
        ensures least { IfOk result (TakesLeast self.now.count (Comes self.now) []) }
    {
        let n = self.count();
        let mut taken = unset_marks(self.alloc(), n)?;
        let mut waits = self.waits()?;
        let mut order = Vec::new(self.alloc());
        while let Some(node) = first_ready(taken.as_slice(), waits.as_slice(), n) {
            taken[node as usize] = true;
            self.release(node, waits.as_mut_slice());
            order.push(node)?;
        }
        Ok(Seq::from_vec(order))
    }
}
