//! Defaults take hold.

ghost use Rattle.std.specs.Prelude.{◌≡◌, ◌<◌, [], length, IfOk, OnOk};
ghost use Rattle.pp_eval.specs.Evaluating.{AnswersBy};
ghost use Rattle.catalog_semantics.specs.States.{with_defaults};
ghost use Rattle.catalog_semantics.specs.Catalogs.{filled_behind, main_ended};
ghost use Rattle.catalog.specs.Adding.{with_attributes};
ghost use Rattle.pp_declaration_state.specs.Defaulting.{AreApart};
ghost use Rattle.pp_declaration_state.specs.Filling.{filled_one};

use crate::adding::is_class;
use crate::defaults::defaults_of;
use crate::state::State;
use catalog::Catalog;
use catalog_semantics::{Default, Resource};
use pp_value::Pairs;
use rh_base::{Fault, NoMemory};
use std::alloc::Global;

/// The defaults of a resource's type; a class has none.
#[tactic(auto, using(crate::proofs::DefaultLaws::kept, crate::proofs::FillingLaws::class_stays, crate::proofs::FillingLaws::others_are_filled))]
fn pairs_for(alloc: Global, defaults: &[Default], r: &Resource) -> Result<Pairs, NoMemory>
    requires { AreApart defaults.now }
    ensures { IfOk result (λ pairs. with_attributes pairs r.now ≡ with_defaults defaults.now r.now) }
{
    if is_class(r) {
        return Ok(Pairs::new(alloc));
    }
    defaults_of(alloc, r.id.kind.as_str(), defaults)
}

/// Gives the resource at a place its defaults.
#[tactic(auto, using(crate::proofs::FillingLaws::filled_as, crate::proofs::FillingLaws::found_in, crate::proofs::FillingLaws::refused_in, crate::proofs::FillingLaws::kept_in))]
fn fill_one(alloc: Global, defaults: &[Default], catalog: &mut Catalog, i: u32) -> Result<(), Fault>
    requires apart { AreApart defaults.now }
    requires below { i < length catalog.old.resources }
    ensures answers { AnswersBy (λ done. catalog.new.resources) (filled_one defaults.now i catalog.old.resources) result }
    ensures others { OnOk result (catalog.new ≡ record catalog.old { resources = catalog.new.resources }) }
    ensures relations { catalog.new.relations ≡ catalog.old.relations }
{
    let pairs = pairs_for(alloc, defaults, catalog.get(i))?;
    catalog.fill(i, &pairs)
}

/// Gives each resource its defaults.
fn fill_all(alloc: Global, defaults: &[Default], catalog: &mut Catalog) -> Result<(), Fault>
    requires { AreApart defaults.now }
    ensures answers { AnswersBy (λ done. catalog.new.resources) (filled_behind defaults.now [] catalog.old.resources) result }
    ensures others { OnOk result (catalog.new ≡ record catalog.old { resources = catalog.new.resources }) }
    ensures relations { catalog.new.relations ≡ catalog.old.relations }
{
    for i in 0..catalog.count() {
        match fill_one(alloc, defaults, catalog, i) {
            Ok(()) => {}
            Err(fault) => return Err(fault),
        }
    }
    Ok(())
}

impl State {
    /// The main code has ended, and defaults take hold.
    pub fn end_main(&mut self) -> Result<(), Fault>
        ensures { AnswersBy (λ done. self.new) (main_ended self.old) result }
    {
        self.main_has_ended = true;
        fill_all(self.alloc, self.defaults.as_slice(), &mut self.catalog)
    }
}
