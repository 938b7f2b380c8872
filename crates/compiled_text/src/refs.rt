//! References that differ, in order, found by their hashes.

ghost use Rattle.std.specs.Prelude.{◌≡◌, [], not, IfOk, OnOk};
ghost use Rattle.compiled_text.specs.Reading.{place_of, stands_in, with_ref};

use indexmap::IndexSet;
use pp_value::Ref;
use rh_base::NoMemory;
use std::alloc::Global;
use std::marker::Model;

/// References, each once, in the order in which they were added.
#[derive(Drop)]
pub struct Refs {
    refs: IndexSet<Ref>,
}

impl Model for Refs {
    ghost use Rattle.std.specs.Prelude.{List};
    ghost use Rattle.pp_value.specs.declared.value.Ref.{Ref};

    ghost Value = { List Ref };

    ghost view = { λ r. r.refs.keys };
}

impl Refs {
    pub fn new(alloc: Global) -> Refs
        ensures { result ≡ [] }
    {
        Refs {
            refs: IndexSet::new(alloc),
        }
    }

    /// Adds a reference unless it is there, and tells whether it is new.
    pub fn insert(&mut self, r: Ref) -> Result<bool, NoMemory>
        ensures new { IfOk result (λ b. b ≡ not (stands_in r self.old)) }
        ensures refs { OnOk result (self.new ≡ with_ref self.old r) }
    {
        let (_, is_new) = self.refs.insert_full(r)?;
        Ok(is_new)
    }

    /// Where a reference stands.
    pub fn find(&self, r: &Ref) -> Option<usize>
        ensures { result ≡ place_of r.now self.now }
    {
        self.refs.get_index_of(r)
    }
}
