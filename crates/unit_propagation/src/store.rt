//! The clause database: the clauses of the formula and behind them those that were learned, in one array of literals. A clause is
//! named by its index here, which is one less than its number in the log; its first two literals are the watched ones. No clause is
//! ever deleted, since later steps of the log may name it.

ghost use Rattle.std.specs.Prelude.{◌≡◌, ◌+◌, ◌-◌, ◌<◌, ◌^◌, [], ◌∷◌, ◌++◌, length, IfOk, OnOk, slice_index, slice_index_or, slice_set, ◌≤◌};
ghost use Rattle.std.specs.List.{slice_range};

use rh_base::NoMemory;
use std::alloc::Global;
use std::marker::Model;

/// Clauses as literals, one behind the other. The place where each begins, and at last where all end.
#[derive(Drop)]
pub struct Store {
    literals: Vec<u32>,
    starts: Vec<u32>,
}

impl Model for Store {
    ghost use Rattle.std.specs.Prelude.{List, ℕ};
    ghost use Rattle.unit_propagation.specs.Stored.{clauses_of, IsStored};

    ghost Value = { List (List ℕ) };

    ghost view = { λ s. clauses_of s.literals.items s.starts.items };

    ghost invariant = { λ s. IsStored s.literals.items s.starts.items };
}

/// Where a clause begins and ends.
#[inline]
fn bounds(starts: &[u32], n: usize) -> (usize, usize)
    requires { n + 1 < length starts.now }
    ensures start { result.0 ≡ slice_index starts.now n }
    ensures end { result.1 ≡ slice_index starts.now (n + 1) }
{
    (starts[n] as usize, starts[n + 1] as usize)
}

/// The literals from one place to another.
#[inline]
fn part(literals: &[u32], start: usize, end: usize) -> &[u32]
    requires low { start ≤ end }
    requires high { end ≤ length literals.now }
    ensures { result.now ≡ slice_range literals.now start end }
{
    &literals[start..end]
}

/// Exchanges two literals, which are counted from a place.
#[inline]
fn exchange_literals(literals: &mut Vec<u32>, start: usize, j: usize, k: usize)
    requires first { start + j < length literals.old.items }
    requires second { start + k < length literals.old.items }
    ensures { literals.new.items ≡ slice_set
        (slice_set literals.old.items (start + j) (slice_index literals.old.items (start + k))) (start + k)
        (slice_index literals.old.items (start + j)) }
{
    let literal = literals[start + j];
    literals[start + j] = literals[start + k];
    literals[start + k] = literal;
}

impl Store {
    ghost use Rattle.unit_propagation.specs.Stored.{exchanged};

    pub fn new(alloc: Global) -> Result<Store, NoMemory>
        ensures { IfOk result (λ s. s ≡ []) }
    {
        Ok(Store {
            literals: Vec::new(alloc),
            starts: vec![in alloc; 0]?,
        })
    }

    /// The number of clauses.
    #[inline]
    #[tactic(auto, using(crate::proofs::Ranges::count, crate::proofs::Ranges::few))]
    pub fn count(&self) -> usize
        ensures count { result ≡ length self.now }
        ensures small { length self.now < 2 ^ 32 }
    {
        self.starts.len() - 1
    }

    /// The literals of a clause.
    #[inline]
    #[tactic(auto, using(crate::proofs::Ranges::bounds, crate::proofs::Ranges::at))]
    pub fn clause(&self, n: u32) -> &[u32]
        requires { n < length self.now }
        ensures { result.now ≡ slice_index_or self.now n [] }
    {
        let (start, end) = bounds(&self.starts, n as usize);
        part(&self.literals, start, end)
    }

    /// Exchanges two literals of a clause.
    #[inline]
    #[tactic(auto, using(crate::proofs::Ranges::bounds, crate::proofs::Ranges::length_at, crate::proofs::Ranges::written_twice))]
    pub(crate) fn exchange(&mut self, n: u32, j: usize, k: usize)
        requires clause { n < length self.old }
        requires first { j < length (slice_index_or self.old n []) }
        requires second { k < length (slice_index_or self.old n []) }
        ensures { self.new ≡ slice_set self.old n (exchanged (slice_index_or self.old n []) j k) }
    {
        let (start, _) = bounds(&self.starts, n as usize);
        exchange_literals(&mut self.literals, start, j, k);
    }

    /// One more clause.
    #[tactic(auto, using(crate::proofs::Ranges::pushed, crate::proofs::Ranges::stored_more))]
    pub fn push(&mut self, lits: &[u32]) -> Result<(), NoMemory>
        ensures { OnOk result (self.new ≡ self.old ++ lits.now ∷ []) }
    {
        let before = self.literals.len();
        self.literals.extend_from_slice(lits)?;
        let end = self.literals.len();
        let full = end > u32::MAX as usize || self.starts.len() > u32::MAX as usize;
        if full || self.starts.push(end as u32).is_err() {
            self.literals.truncate(before);
            return Err(NoMemory);
        }
        Ok(())
    }
}
