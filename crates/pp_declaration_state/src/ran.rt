//! The places of the defined resources whose bodies have run.

ghost use Rattle.std.specs.Prelude.{◌≡◌, ◌<◌, ◌==◌, ◌∷◌, ◌++◌, [], ℕ, List, length, OnOk};
ghost use Rattle.std.specs.List.{list_any};
ghost use Rattle.pp_declaration_state.specs.Marking.{AreMarked};

use rh_base::NoMemory;
use std::alloc::Global;
use std::marker::Model;

/// Places in order, each of which is told at once whether it is among them.
#[derive(Drop)]
pub struct Ran {
    places: Vec<u32>,
    /// for each place whether it is among them; what has no mark isn't
    marks: Vec<bool>,
}

impl Model for Ran {
    ghost use Rattle.std.specs.Prelude.{List, ℕ};
    ghost use Rattle.pp_declaration_state.specs.Marking.{AreMarked};

    ghost Value = { List ℕ };

    ghost view = { λ r. r.places.items };

    ghost invariant = { λ r. AreMarked r.marks.items r.places.items };
}

/// Makes marks up to this place.
#[tactic(auto, using(crate::proofs::MarkLaws::still_marked))]
fn grow(marks: &mut Vec<bool>, place: usize) -> Result<(), NoMemory>
    ensures stays { (places : List ℕ) → AreMarked marks.old.items places → AreMarked marks.new.items places }
    ensures grown { OnOk result (place < length marks.new.items) }
{
    while marks.len() <= place {
        marks.push(false)?;
    }
    Ok(())
}

impl Ran {
    pub fn new(alloc: Global) -> Ran
        ensures { result ≡ [] }
    {
        Ran {
            places: Vec::new(alloc),
            marks: Vec::new(alloc),
        }
    }

    pub fn has(&self, place: u32) -> bool
        ensures { result ≡ list_any (λ k. place == k) self.now }
    {
        match self.marks.get(place as usize) {
            Some(mark) => *mark,
            None => false,
        }
    }

    #[tactic(auto, using(crate::proofs::MarkLaws::marked_last))]
    pub fn push(&mut self, place: u32) -> Result<(), NoMemory>
        ensures { OnOk result (self.new ≡ self.old ++ place ∷ []) }
    {
        let i = place as usize;
        grow(&mut self.marks, i)?;
        self.places.push(place)?;
        self.marks[i] = true;
        Ok(())
    }
}
