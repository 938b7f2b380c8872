//! Items by keys: pairs in order of insertion, of which no key stands twice.

ghost use Rattle.std.specs.Prelude.{◌≡◌, ◌↔◌, ◌<◌, [], ◌∷◌, ◌++◌, None, IsTrue, OnOk, OnErr, length, slice_get, option_map};
ghost use Rattle.pp_value.specs.Keys.{HasDistinctKeys, value_at, with_pair, with_item_at, place_among, places_of};

use crate::places::Places;
use rh_base::{NoMemory, Text};
use std::alloc::Global;
use std::marker::Model;

/// Keys, each with its item, in order of insertion. No key stands twice.
#[derive(Drop)]
pub struct Keyed<T> {
    pairs: Vec<(Text, T)>,
    places: Places,
}

impl<T> Model for Keyed<T> {
    ghost use Rattle.std.specs.Prelude.{◌≡◌, List, ℕ};
    ghost use Rattle.std.specs.Coded.{coded_list, coded×, coded_ℕ};
    ghost use Rattle.pp_value.specs.Keys.{HasDistinctKeys, places_of};

    ghost Value = { List (List ℕ × T) };

    ghost coded = { coded_list (coded× (coded_list coded_ℕ) T.code) };

    ghost view = { λ k. k.pairs.items };

    ghost invariant = { λ k. HasDistinctKeys k.pairs.items × (k.places ≡ places_of 0 k.pairs.items) };
}

/// Gives the pair at a place another item.
fn set_item<T: Drop>(pairs: &mut Vec<(Text, T)>, place: usize, item: T)
    requires { place < length pairs.old.items }
    ensures { pairs.new.items ≡ with_item_at place item pairs.old.items }
{
    let pair = &mut pairs[place];
    pair.1 = item;
}

/// Adds a pair of a new key at the end.
fn push_new<T: Drop>(
    pairs: &mut Vec<(Text, T)>,
    places: &mut Places,
    key: Text,
    item: T,
) -> Result<(), NoMemory>
    requires { place_among key places.old ≡ None }
    ensures pairs_ok { OnOk result (pairs.new.items ≡ pairs.old.items ++ (key, item) ∷ []) }
    ensures places_ok { OnOk result (places.new ≡ places.old ++ (key, length pairs.old.items) ∷ []) }
    ensures pairs_err { OnErr result (pairs.new.items ≡ pairs.old.items) }
    ensures places_err { OnErr result (places.new ≡ places.old) }
{
    let place = pairs.len();
    let name = places.own(key.as_str())?;
    pairs.push((key, item))?;
    match places.add(name, place) {
        Ok(()) => Ok(()),
        Err(m) => {
            drop(pairs.pop());
            Err(m)
        }
    }
}

/// Gives a key an item, where the places are those of the pairs' keys.
fn put_pair<T: Drop>(
    pairs: &mut Vec<(Text, T)>,
    places: &mut Places,
    key: Text,
    item: T,
) -> Result<(), NoMemory>
    requires { places.old ≡ places_of 0 pairs.old.items }
    ensures pairs_ok { OnOk result (pairs.new.items ≡ with_pair key item pairs.old.items) }
    ensures places_ok { OnOk result (places.new ≡ places_of 0 pairs.new.items) }
    ensures pairs_err { OnErr result (pairs.new.items ≡ pairs.old.items) }
    ensures places_err { OnErr result (places.new ≡ places.old) }
{
    match places.find(key.as_str()) {
        Some(place) => {
            set_item(pairs, place, item);
            Ok(())
        }
        None => push_new(pairs, places, key, item),
    }
}

/// The item at a place.
fn item_at<T>(pairs: &[(Text, T)], place: usize) -> Option<&T>
    ensures { option_map (λ x. x.now) result ≡ option_map (λ p. p.1) (slice_get pairs.now place) }
{
    match pairs.get(place) {
        Some(pair) => Some(&pair.1),
        None => None,
    }
}

impl<T: Drop> Keyed<T> {
    pub fn new(alloc: Global) -> Keyed<T>
        ensures { result ≡ [] }
    {
        Keyed {
            pairs: Vec::new(alloc),
            places: Places::new(alloc),
        }
    }

    pub fn len(&self) -> usize
        ensures { result ≡ length self.now }
    {
        self.pairs.len()
    }

    pub fn is_empty(&self) -> bool
        ensures { IsTrue result ↔ (self.now ≡ []) }
    {
        self.pairs.is_empty()
    }

    pub fn as_slice(&self) -> &[(Text, T)]
        ensures pairs { result.now ≡ self.now }
        ensures distinct { HasDistinctKeys self.now }
    {
        self.pairs.as_slice()
    }

    /// The item of a key, compared exactly.
    pub fn find(&self, key: &str) -> Option<&T>
        ensures { option_map (λ x. x.now) result ≡ value_at key.now self.now }
    {
        match self.places.find(key) {
            Some(place) => item_at(self.pairs.as_slice(), place),
            None => None,
        }
    }

    /// Gives a key an item: a key that stands already keeps its place, and a new one goes last.
    pub fn put(&mut self, key: Text, item: T) -> Result<(), NoMemory>
        ensures ok { OnOk result (self.new ≡ with_pair key item self.old) }
        ensures err { OnErr result (self.new ≡ self.old) }
    {
        put_pair(&mut self.pairs, &mut self.places, key, item)
    }

    /// Adds a pair of a new key at the end.
    pub fn push(&mut self, key: Text, item: T) -> Result<(), NoMemory>
        requires { value_at key self.old ≡ None }
        ensures ok { OnOk result (self.new ≡ self.old ++ (key, item) ∷ []) }
        ensures err { OnErr result (self.new ≡ self.old) }
    {
        self.put(key, item)
    }
}
