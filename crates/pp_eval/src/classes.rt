//! The places of classes by their names, ASCII case aside.
//!
//! A map by hash, whose keys are names in lower case. A look-up takes no memory, so the name that is sought isn't copied: a
//! type of its own hashes and compares it letter by letter, as if in lower case. No clause sees the map.

ghost use Rattle.std.specs.Prelude.{◌≡◌, ◌∷◌, ◌++◌, [], None, OnOk, OnErr, IfOk, map};
ghost use Rattle.std.specs.Char.{to_ascii_lowercase};
ghost use Rattle.std.specs.Str.{bytes_eq};
ghost use Rattle.std.specs.Hash as fed;
ghost use Rattle.std.specs.Cmp;
ghost use Rattle.std.specs.Cmp.{on_equiv, on_per};
ghost use Rattle.std.specs.Cmp.Lexicographic.{bytes_decides, nat_list_eq_equiv};
ghost use Rattle.std.proofs.Common.{ap};
ghost use Rattle.pp_value.specs.Texts.{lowered};
ghost use Rattle.pp_eval.specs.ClassNames.{place_among};

use indexmap::{Equivalent, IndexMap};
use rh_base::NoMemory;
use std::alloc::Global;
use std::hash::{Hash, Hasher};
use std::marker::Model;

/// A name that stands for itself in lower case.
#[derive(Clone, Copy)]
pub struct CaseFree<'n> {
    name: &'n [u8],
}

impl PartialEq for CaseFree<'_> {
    ghost eq = { λ x y. bytes_eq (lowered x.name.now) (lowered y.name.now) };

    ghost laws = { on_per (λ x. lowered x.name.now) (Cmp.partial_equiv_from_equiv nat_list_eq_equiv) };

    fn eq(&self, other: &Self) -> bool {
        self.name.eq_ignore_ascii_case(other.name)
    }
}

impl Eq for CaseFree<'_> {
    ghost laws = { on_equiv (λ x. lowered x.name.now) nat_list_eq_equiv };
}

impl Hash for CaseFree<'_> {
    ghost hash_input = { λ x. fed.slice fed.u8 (lowered x.name.now) };

    ghost respects_eq = { λ x y h. ap (fed.slice fed.u8) ((bytes_decides (lowered x.name.now) (lowered y.name.now)).0 h) };

    fn hash<H: Hasher>(&self, state: &mut H) {
        state.write_usize(self.name.len());
        for b in self.name {
            state.write_u8(b.to_ascii_lowercase());
        }
    }
}

/// The key is the name in lower case.
fn is_lowered(name: &[u8], key: &[u8]) -> bool
    ensures { result ≡ bytes_eq (lowered name.now) key.now }
{
    let mut rest = key;
    for b in name {
        let Some((c, more)) = rest.split_first() else {
            return false;
        };
        if b.to_ascii_lowercase() != *c {
            return false;
        }
        rest = more;
    }
    rest.is_empty()
}

impl Equivalent<Vec<u8>> for CaseFree<'_> {
    ghost equivalent = { λ x k. bytes_eq (lowered x.name.now) k.items };

    ghost respects_hash = { λ x k h. ap (fed.slice fed.u8) ((bytes_decides (lowered x.name.now) k.items).0 h) };

    ghost respects_eq = { λ q x y. nat_list_eq_equiv.congr (lowered q.name.now) x.items y.items };

    fn equivalent(&self, key: &Vec<u8>) -> bool {
        is_lowered(self.name, key.as_slice())
    }
}

/// The places of classes by their names, ASCII case aside.
#[derive(Drop)]
pub struct Classes {
    places: IndexMap<Vec<u8>, usize>,
    alloc: Global,
}

impl Model for Classes {
    ghost use Rattle.std.specs.Prelude.{List, ℕ, map};
    ghost use Rattle.std.specs.Coded.{coded_list, coded×, coded_ℕ};

    ghost Value = { List (List ℕ × ℕ) };

    ghost coded = { coded_list (coded× (coded_list coded_ℕ) coded_ℕ) };

    ghost view = { λ c. map (λ e. (e.0.items, e.1)) c.places.entries };
}

fn lower(alloc: Global, name: &[u8]) -> Result<Vec<u8>, NoMemory>
    ensures { IfOk result (λ key. key.items ≡ lowered name.now) }
{
    let mut key = Vec::new(alloc);
    for b in name {
        key.push(b.to_ascii_lowercase())?;
    }
    Ok(key)
}

impl Classes {
    pub fn new(alloc: Global) -> Classes
        ensures { result ≡ [] }
    {
        Classes {
            places: IndexMap::new(alloc),
            alloc,
        }
    }

    /// The place of the class of a name.
    #[tactic(auto, using(crate::proofs::ClassNameLaws::found))]
    pub fn find(&self, name: &[u8]) -> Option<usize>
        ensures { result ≡ place_among name.now self.now }
    {
        self.places.get(CaseFree { name }).copied()
    }

    /// Adds a class of a name that has none.
    pub fn add(&mut self, name: &[u8], place: usize) -> Result<(), NoMemory>
        requires { place_among name.now self.old ≡ None }
        ensures ok { OnOk result (self.new ≡ self.old ++ (lowered name.now, place) ∷ []) }
        ensures err { OnErr result (self.new ≡ self.old) }
    {
        let key = lower(self.alloc, name)?;
        self.places.insert(key, place)?;
        Ok(())
    }
}
