//! References, each with the place at which it stood first, found by their hashes.

ghost use Rattle.std.specs.Prelude.{◌≡◌, ℕ, if◌then◌else◌, [], None, Some, OnOk};
ghost use Rattle.pp_value.specs.declared.value.Ref.{Ref};
ghost use Rattle.pp_value.specs.Values.{same_ref};
ghost use Rattle.compiled_relations.specs.Finding.{or_else, is_one};
ghost use Rattle.compiled_relations.specs.Tables.{place_among};

use indexmap::IndexMap;
use pp_value::Ref;
use rh_base::{NoMemory, Seq};
use std::alloc::Global;
use std::marker::Model;

/// References with their places.
#[derive(Drop)]
pub struct Table {
    places: IndexMap<Ref, usize>,
}

impl Model for Table {
    ghost use Rattle.std.specs.Prelude.{List, ℕ};
    ghost use Rattle.pp_value.specs.declared.value.Ref.{Ref};

    ghost Value = { List (Ref × ℕ) };

    ghost view = { λ t. t.places.entries };
}

impl Table {
    pub fn new(alloc: Global) -> Table
        ensures { result ≡ [] }
    {
        Table {
            places: IndexMap::new(alloc),
        }
    }

    /// The place of a reference.
    pub fn find(&self, r: &Ref) -> Option<usize>
        ensures { result ≡ place_among r.now self.now }
    {
        self.places.get(r).copied()
    }

    /// Adds a reference that has no place.
    fn add(&mut self, r: Ref, place: usize) -> Result<(), NoMemory>
        requires { place_among r self.old ≡ None }
        ensures { OnOk result ((q : Ref)
            → place_among q self.new ≡ or_else (place_among q self.old) (if same_ref q r then Some place else None)) }
    {
        self.places.insert(r, place)?;
        Ok(())
    }

    /// Notes that a reference stands at a place, unless it stood at one before.
    fn note(&mut self, r: Ref, place: usize) -> Result<(), NoMemory>
        ensures { OnOk result ((q : Ref)
            → place_among q self.new ≡ or_else (place_among q self.old) (if same_ref q r then Some place else None)) }
    {
        if self.find(&r).is_some() {
            return Ok(());
        }
        self.add(r, place)
    }

    /// Notes that each of these stands at a place.
    pub fn note_all(&mut self, refs: Seq<Ref>, place: usize) -> Result<(), NoMemory>
        ensures { OnOk result ((q : Ref)
            → place_among q self.new ≡ or_else (place_among q self.old) (if is_one q refs then Some place else None)) }
    {
        let mut left = refs.into_vec();
        while let Some(r) = left.pop() {
            self.note(r, place)?;
        }
        Ok(())
    }
}
