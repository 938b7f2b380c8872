//! Watch lists (two watched literals: Chaff, Moskewicz and others 2001): for each literal the clauses that watch it, which are
//! visited once it is false. Each watcher has a blocker beside its clause, as in later versions of MiniSat: a literal of the clause
//! that is looked at first; where it holds the clause isn't touched. Lists that are linked through the clauses themselves would take
//! less memory, and touch each clause.

ghost use Rattle.std.specs.Prelude.{◌≡◌, ℕ, ◌<◌, [], ◌∷◌, ◌++◌, length, IfOk, OnOk, OnErr, slice_index_or, slice_set};

use rh_base::{NoMemory, Seq};
use std::alloc::Global;
use std::marker::Model;
use std::mem;

/// A clause that watches a literal, and some literal of it that may hold.
#[derive(Clone, Copy, Debug)]
pub struct Watcher {
    pub clause: u32,
    pub blocker: u32,
}

/// For each literal the clauses that watch it.
#[derive(Drop)]
pub struct Watches {
    lists: Vec<Seq<Watcher>>,
}

impl Model for Watches {
    ghost use Rattle.std.specs.Prelude.{List};
    ghost use Rattle.unit_propagation.specs.declared.watches.Watcher.{Watcher};

    ghost Value = { List (List Watcher) };

    ghost view = { λ w. w.lists.items };
}

impl Watches {
    /// No clause watches any of these literals.
    pub fn new(alloc: Global, literals: usize) -> Result<Watches, NoMemory>
        ensures long { IfOk result (λ w. length w ≡ literals) }
        ensures none { IfOk result (λ w. (x : ℕ) → slice_index_or w x [] ≡ []) }
    {
        let mut lists = Vec::new(alloc);
        'literals: for _literal in 0..literals {
            lists.push(Seq::new(alloc))?;
        }
        Ok(Watches { lists })
    }

    /// Takes the list of a literal, which is empty then.
    #[inline]
    pub(crate) fn take(&mut self, literal: u32) -> Vec<Watcher>
        requires { literal < length self.old }
        ensures list { result.items ≡ slice_index_or self.old literal [] }
        ensures rest { self.new ≡ slice_set self.old literal [] }
    {
        let alloc = *self.lists.allocator();
        mem::replace(&mut self.lists[literal as usize], Seq::new(alloc)).into_vec()
    }

    /// Gives the list of a literal.
    #[inline]
    pub(crate) fn put(&mut self, literal: u32, list: Vec<Watcher>)
        requires { literal < length self.old }
        ensures { self.new ≡ slice_set self.old literal list.items }
    {
        self.lists[literal as usize] = Seq::from_vec(list);
    }

    /// One more clause that watches a literal.
    #[inline]
    pub fn push(&mut self, literal: u32, watcher: Watcher) -> Result<(), NoMemory>
        requires { literal < length self.old }
        ensures ok { OnOk result (self.new ≡ slice_set self.old literal (slice_index_or self.old literal [] ++ watcher ∷ [])) }
        ensures err { OnErr result (self.new ≡ self.old) }
    {
        self.lists[literal as usize].push(watcher)
    }
}
