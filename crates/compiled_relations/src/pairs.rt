//! Which resources come before which, by their places.

ghost use Rattle.std.specs.Prelude.{◌≡◌, ◌||◌, ◌++◌, ℕ, [], OnOk};
ghost use Rattle.std.specs.List.{list_any};
ghost use Rattle.compiled_relations.specs.Links.{same_pair, has_pair, stands_between, before_one, each_with};

use indexmap::IndexSet;
use rh_base::NoMemory;
use std::alloc::Global;
use std::marker::Model;

/// Pairs of places, found by their hashes. The first comes before the second.
#[derive(Drop)]
pub struct PlacePairs {
    pairs: IndexSet<(u32, u32)>,
}

impl Model for PlacePairs {
    ghost use Rattle.std.specs.Prelude.{List, ℕ};

    ghost Value = { List (ℕ × ℕ) };

    ghost view = { λ p. p.pairs.keys };
}

impl PlacePairs {
    pub fn new(alloc: Global) -> PlacePairs
        ensures { result ≡ [] }
    {
        PlacePairs {
            pairs: IndexSet::new(alloc),
        }
    }

    fn has(&self, pair: (u32, u32)) -> bool
        ensures { result ≡ has_pair self.now pair }
    {
        self.pairs.contains(&pair)
    }

    /// Whether the one comes before the other, or the other before it.
    pub fn stands_between(&self, pair: (u32, u32)) -> bool
        ensures { result ≡ stands_between self.now pair }
    {
        let there = self.has(pair);
        let back = self.has((pair.1, pair.0));
        there || back
    }

    pub fn insert(&mut self, pair: (u32, u32)) -> Result<(), NoMemory>
        ensures { OnOk result ((p : ℕ × ℕ) → has_pair self.new p ≡ (has_pair self.old p || same_pair p pair)) }
    {
        self.pairs.insert(pair)?;
        Ok(())
    }

    /// Each of some comes before the one.
    fn insert_before(&mut self, firsts: &[u32], second: u32) -> Result<(), NoMemory>
        ensures { OnOk result ((p : ℕ × ℕ) → has_pair self.new p ≡ (has_pair self.old p || has_pair (before_one firsts.now second) p)) }
    {
        for first in firsts {
            self.insert((*first, second))?;
        }
        Ok(())
    }

    /// Each of some comes before each of the others.
    pub fn insert_each(&mut self, firsts: &[u32], seconds: &[u32]) -> Result<(), NoMemory>
        ensures { OnOk result ((p : ℕ × ℕ) → has_pair self.new p ≡ (has_pair self.old p || has_pair (each_with firsts.now seconds.now) p)) }
    {
        for second in seconds {
            self.insert_before(firsts, *second)?;
        }
        Ok(())
    }
}
