//! The places of keys, found by their hashes.

ghost use Rattle.std.specs.Prelude.{◌≡◌, [], ◌∷◌, ◌++◌, None, IfOk, OnOk, OnErr, string_bytes};
ghost use Rattle.pp_value.specs.Keys.{place_among};

use indexmap::IndexMap;
use rh_base::NoMemory;
use std::alloc::Global;
use std::marker::Model;

/// Keys, each with its place.
#[derive(Drop)]
pub struct Places {
    places: IndexMap<String, usize>,
    alloc: Global,
}

impl Model for Places {
    ghost use Rattle.std.specs.Prelude.{List, ℕ, map, string_bytes};
    ghost use Rattle.std.specs.Coded.{coded_list, coded×, coded_ℕ};

    ghost Value = { List (List ℕ × ℕ) };

    ghost coded = { coded_list (coded× (coded_list coded_ℕ) coded_ℕ) };

    ghost view = { λ p. map (λ e. (string_bytes e.0, e.1)) p.places.entries };
}

impl Places {
    pub fn new(alloc: Global) -> Places
        ensures { result ≡ [] }
    {
        Places {
            places: IndexMap::new(alloc),
            alloc,
        }
    }

    /// The place of a key.
    #[tactic(auto, using(crate::proofs::PlaceLaws::found))]
    pub fn find(&self, key: &str) -> Option<usize>
        ensures { result ≡ place_among key.now self.now }
    {
        self.places.get(key).copied()
    }

    /// A copy of a key, which can be added to these places.
    pub fn own(&self, key: &str) -> Result<String, NoMemory>
        ensures { IfOk result (λ s. string_bytes s ≡ key.now) }
    {
        Ok(String::from_str(self.alloc, key)?)
    }

    /// Adds a key that has no place.
    #[tactic(auto, using(crate::proofs::PlaceLaws::added))]
    pub fn add(&mut self, key: String, place: usize) -> Result<(), NoMemory>
        requires { place_among (string_bytes key) self.old ≡ None }
        ensures ok { OnOk result (self.new ≡ self.old ++ (string_bytes key, place) ∷ []) }
        ensures err { OnErr result (self.new ≡ self.old) }
    {
        self.places.insert(key, place)?;
        Ok(())
    }
}
