//! Shelves in memory.

ghost use Rattle.std.specs.Prelude.{◌≡◌, ◌≤◌, ◌<◌, [], Ok, Err, map, false, true};
ghost use Rattle.std.specs.declared.option.Option.TheVariants.{Some, None};
ghost use Rattle.std.specs.Option.{option_map};
ghost use Rattle.rh_base.specs.Shelf.{Only, ElseEmpty, FetchGives};
ghost use Rattle.rh_base.specs.Kept.{files_of, found, is_failing, one_more, Answers};

use crate::memory::is_failing;
use crate::shelf::{Fetched, Shelf, ShelfFault};
use crate::text::{NoMemory, Text};
use std::marker::Model;

/// Files in memory, of which the calls with the numbers in `failing`, counted from 1, fail. Another call with a missing
/// name fails too, and leaves the count of faults.
#[derive(Debug, Drop)]
pub struct MemoryShelf {
    files: Vec<(Text, Vec<u8>)>,
    failing: Vec<u64>,
    calls: u64,
    count: u64,
}

impl Model for MemoryShelf {
    ghost use Rattle.std.specs.Prelude.{map};
    ghost use Rattle.rh_base.specs.Kept.{ShelfInMemory};

    ghost Value = { ShelfInMemory };

    ghost view = { λ s. record { files = map (λ f. (f.0, f.1.items)) s.files.items; failing = s.failing.items; calls = s.calls; faults = s.count } };
}

impl MemoryShelf {
    pub fn new(files: Vec<(Text, Vec<u8>)>, failing: Vec<u64>) -> MemoryShelf
        ensures { result ≡ record { files = map (λ f. (f.0, f.1.items)) files.items; failing = failing.items; calls = 0; faults = 0 } }
    {
        MemoryShelf {
            files,
            failing,
            calls: 0,
            count: 0,
        }
    }
}

/// What stands under a name.
fn find<'f>(files: &'f [(Text, Vec<u8>)], name: &str) -> Option<&'f Vec<u8>>
    ensures { option_map (λ v. v.now.items) result ≡ found (map (λ f. (f.0, f.1.items)) files.now) name.now }
{
    for f in files {
        if f.0.as_str() == name {
            return Some(&f.1);
        }
    }
    None
}

/// The bytes, where they are within the limit.
fn copy_within(bytes: &Vec<u8>, limit: usize, into: &mut Vec<u8>) -> Result<Fetched, ShelfFault>
    requires { into.old.items ≡ [] }
    ensures answers { Answers (Some bytes.now.items) limit result }
    ensures whole { result ≡ Ok Fetched.Whole → into.new.items ≡ bytes.now.items }
    ensures longer { result ≡ Ok Fetched.Longer → into.new.items ≡ [] }
{
    if bytes.len() > limit {
        return Ok(Fetched::Longer);
    }
    match into.extend_from_slice(bytes) {
        Ok(()) => Ok(Fetched::Whole),
        Err(_) => Err(ShelfFault::Memory(NoMemory)),
    }
}

impl Shelf for MemoryShelf {
    ghost holds = { λ s. Only (files_of s.files) };

    ghost faults = { λ s. s.faults };

    #[tactic(auto, using(crate::proofs::Named::get_found))]
    fn fetch(&mut self, name: &str, limit: usize, into: &mut Vec<u8>) -> Result<Fetched, ShelfFault>
        requires empty { into.old.items ≡ [] }
        requires below { limit < usize.MAX }
        ensures held { Only (files_of self.new.files) ≡ Only (files_of self.old.files) }
        ensures later { self.old.faults ≤ self.new.faults }
        ensures gives { FetchGives (Only (files_of self.old.files)) name.now limit self.old.faults self.new.faults result into.new.items }
        // Each call counts, and one that is to fail fails.
        ensures kept { (self.new.files ≡ self.old.files) × (self.new.failing ≡ self.old.failing) }
        ensures counted { self.new.calls ≡ one_more self.old.calls }
        ensures failing { is_failing self.old.failing self.new.calls ≡ true → (result ≡ Err ShelfFault.Failed)
            × (self.new.faults ≡ one_more self.old.faults) }
        ensures honest { is_failing self.old.failing self.new.calls ≡ false
            → Answers (found self.old.files name.now) limit result × (self.new.faults ≡ self.old.faults) }
    {
        self.calls = self.calls.saturating_add(1);
        if is_failing(&self.failing, self.calls) {
            self.count = self.count.saturating_add(1);
            return Err(ShelfFault::Failed);
        }
        match find(&self.files, name) {
            Some(bytes) => copy_within(bytes, limit, into),
            None => Err(ShelfFault::Failed),
        }
    }
}

/// Files in memory, of which no fetch fails. A missing name reads as empty.
#[derive(Debug, Drop)]
pub struct SureShelf {
    files: Vec<(Text, Vec<u8>)>,
}

impl Model for SureShelf {
    ghost use Rattle.std.specs.Prelude.{List, map};
    ghost use Rattle.rh_base.specs.Kept.{NamedBytes};

    ghost Value = { List NamedBytes };

    ghost view = { λ s. map (λ f. (f.0, f.1.items)) s.files.items };
}

impl SureShelf {
    pub fn new(files: Vec<(Text, Vec<u8>)>) -> SureShelf
        ensures { result ≡ map (λ f. (f.0, f.1.items)) files.items }
    {
        SureShelf { files }
    }
}

impl Shelf for SureShelf {
    ghost holds = { λ s. ElseEmpty (files_of s) };

    ghost faults = { λ _. 0 };

    #[tactic(auto, using(crate::proofs::Named::get_found))]
    fn fetch(&mut self, name: &str, limit: usize, into: &mut Vec<u8>) -> Result<Fetched, ShelfFault>
        requires empty { into.old.items ≡ [] }
        requires below { limit < usize.MAX }
        ensures held { ElseEmpty (files_of self.new) ≡ ElseEmpty (files_of self.old) }
        ensures later { 0 ≤ 0 }
        ensures gives { FetchGives (ElseEmpty (files_of self.old)) name.now limit 0 0 result into.new.items }
        ensures kept { self.new ≡ self.old }
        // A missing name reads as empty.
        ensures missing { found self.old name.now ≡ None → result ≡ Ok Fetched.Whole × (into.new.items ≡ []) }
    {
        match find(&self.files, name) {
            Some(bytes) => copy_within(bytes, limit, into),
            None => Ok(Fetched::Whole),
        }
    }
}
