//! What the functions of a manifest leave in a state.

ghost use Rattle.std.specs.Prelude.{◌≡◌, ◌∷◌, ◌++◌, [], map, slice_get, option_and_then, IfOk, OnOk};
ghost use Rattle.catalog_semantics.specs.States.{place_of, with_pending};
ghost use Rattle.catalog_semantics.specs.Functions.{held_in, before_container};
ghost use Rattle.pp_declaration_state.specs.Wanting.{wanted_at};

use crate::state::State;
use catalog_semantics::{Pending, Side, Tie};
use pp_value::Ref;
use rh_base::{NoMemory, Seq};
use std::alloc::Global;

/// Adds references that are to be realized, all of one place.
fn push_wanted(
    alloc: Global,
    at: u32,
    refs: &[Ref],
    pending: &mut Seq<Pending>,
) -> Result<(), NoMemory>
    ensures { OnOk result (pending.new ≡ pending.old ++ map (wanted_at at) refs.now) }
{
    for r in refs {
        let target = r.copy(alloc)?;
        pending.push(Pending { target, at })?;
    }
    Ok(())
}

fn one_ref(alloc: Global, r: Ref) -> Result<Seq<Ref>, NoMemory>
    ensures { IfOk result (λ refs. refs ≡ r ∷ []) }
{
    let mut refs = Seq::new(alloc);
    refs.push(r)?;
    Ok(refs)
}

impl State {
    /// Notes references that are to be realized, all of one place.
    pub fn want_all(&mut self, at: u32, refs: &[Ref]) -> Result<(), NoMemory>
        ensures { OnOk result (self.new ≡ with_pending (map (wanted_at at) refs.now) self.old) }
    {
        push_wanted(self.alloc, at, refs, &mut self.pending)
    }

    /// The container whose body runs holds a class that is declared.
    pub fn contain(&mut self, class: &Ref) -> Result<(), NoMemory>
        ensures { OnOk result (self.new ≡ held_in self.old.running (place_of class.now self.old.resources) self.old) }
    {
        let Some(outer) = self.running else {
            return Ok(());
        };
        let Some(place) = self.catalog.find(class) else {
            return Ok(());
        };
        self.catalog.hold(outer, place)
    }

    /// A class comes before the container whose body runs.
    pub fn require(&mut self, at: u32, class: Ref) -> Result<(), NoMemory>
        ensures { OnOk result (self.new ≡ before_container at class
            (option_and_then (slice_get self.old.resources) self.old.running) self.old) }
    {
        let Some(place) = self.running else {
            return Ok(());
        };
        if place >= self.catalog.count() {
            return Ok(());
        }
        let container = self.catalog.get(place).id.copy(self.alloc)?;
        let from = Side::Named(one_ref(self.alloc, class)?);
        let to = Side::Named(one_ref(self.alloc, container)?);
        self.ties.push(Tie { from, to, at })
    }
}
