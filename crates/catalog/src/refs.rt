//! References with their places, found by hash.

ghost use Rattle.std.specs.Prelude.{◌≡◌, [], ◌∷◌, ◌++◌, None, OnOk, OnErr};
ghost use Rattle.catalog.specs.Places.{place_among};

use indexmap::IndexMap;
use pp_value::Ref;
use rh_base::NoMemory;
use std::alloc::Global;
use std::marker::Model;

/// References, each with its place.
#[derive(Drop)]
pub struct Refs {
    places: IndexMap<Ref, usize>,
}

impl Model for Refs {
    ghost use Rattle.std.specs.Prelude.{List, ℕ};
    ghost use Rattle.pp_value.specs.declared.value.Ref.{Ref};

    ghost Value = { List (Ref × ℕ) };

    ghost view = { λ r. r.places.entries };
}

impl Refs {
    pub fn new(alloc: Global) -> Refs
        ensures { result ≡ [] }
    {
        Refs {
            places: IndexMap::new(alloc),
        }
    }

    /// Where a reference stands.
    pub fn find(&self, r: &Ref) -> Option<usize>
        ensures { result ≡ place_among r.now self.now }
    {
        self.places.get(r).copied()
    }

    /// Adds a reference that has no place.
    pub fn add(&mut self, r: Ref, place: usize) -> Result<(), NoMemory>
        requires { place_among r self.old ≡ None }
        ensures ok { OnOk result (self.new ≡ self.old ++ (r, place) ∷ []) }
        ensures err { OnErr result (self.new ≡ self.old) }
    {
        self.places.insert(r, place)?;
        Ok(())
    }
}
