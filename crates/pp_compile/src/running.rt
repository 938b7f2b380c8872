//! Rounds: what is called for is made real, and the defined resources run.
//!
//! The iteration of a fixpoint, body by body: a body may declare and call for more. It ends, since a body runs once and only so
//! many resources may be declared; as many rounds as these, and one more, are enough.

ghost use Rattle.std.specs.Prelude.{◌≡◌, ◌<◌, Some, None, length, slice_get, MatchOption, OnOk};
ghost use Rattle.pp_eval.specs.Evaluating.{AnswersBy};
ghost use Rattle.pp_eval.specs.Scoping.{defined_scope};
ghost use Rattle.catalog_semantics.specs.declared.catalog.Resource.{Resource as R};
ghost use Rattle.catalog_semantics.specs.Declaring.{body_runs};
ghost use Rattle.catalog_semantics.specs.Effects.{effect_of};
ghost use Rattle.catalog_semantics.specs.Catalogs.{is_due, next_due, resource_runs, rounds};
ghost use Rattle.pp_compile.specs.Rounds.{one_round};
ghost use Rattle.pp_compile.specs.Looking.{AreLooked};

use crate::looking::{Looked, all_looked, none_looked, realize_new};
use catalog_semantics::{Resource, Sort};
use pp_declaration_state::State;
use pp_declarations::run_block;
use pp_declared_bodies::{begin_defined, copy_resource};
use pp_definitions::{Definition, Site};
use rh_base::Fault;
use std::alloc::Global;

/// A real resource of a defined type whose body hasn't run.
fn is_due(state: &State, place: u32, r: &Resource) -> bool
    ensures { result ≡ is_due state.now place r.now }
{
    let defined = r.sort == Sort::Defined;
    defined && !r.is_virtual && !state.has_run(place)
}

/// The place of the first resource that is due.
#[tactic(auto, using(crate::proofs::RoundLaws::due_here, crate::proofs::RoundLaws::not_here, crate::proofs::RoundLaws::none_due))]
fn next_due(state: &State) -> Option<u32>
    ensures { MatchOption result (next_due state.now 0 state.now.resources ≡ None) (λ i. (r : R)
        × ((next_due state.now 0 state.now.resources ≡ Some (i, r)) × (slice_get state.now.resources i ≡ Some r))) }
{
    for i in 0..state.count() {
        if is_due(state, i, state.get(i)) {
            return Some(i);
        }
    }
    None
}

/// The body of a defined resource, which stands at a place.
#[tactic(auto, using(crate::proofs::RunLaws::not_begun, crate::proofs::RunLaws::body_refused, crate::proofs::RunLaws::body_ended, crate::proofs::RunLaws::inner_begun, crate::proofs::RunLaws::inner_still))]
fn run_defined(
    alloc: Global,
    site: &Site<'_>,
    d: &Definition<'_>,
    place: u32,
    r: &Resource,
    state: &mut State,
) -> Result<(), Fault>
    ensures { AnswersBy (λ done. state.new) (body_runs (effect_of site.now) d.now place r.now defined_scope state.old) result }
{
    let before = state.running();
    begin_defined(alloc, d, place, r, state)?;
    run_block(alloc, site, d.body(), state)?;
    state.end_body(before);
    Ok(())
}

/// Runs the body of the defined resource at a place.
pub fn evaluate(alloc: Global, site: &Site<'_>, place: u32, state: &mut State) -> Result<(), Fault>
    requires { place < length state.old.resources }
    ensures { (r : R) → slice_get state.old.resources place ≡ Some r
        → AnswersBy (λ done. state.new) (resource_runs site.now (place, r) state.old) result }
{
    let r = copy_resource(alloc, state.get(place))?;
    state.mark(place)?;
    match site.defined_type(r.id.kind.as_str()) {
        Some(d) => run_defined(alloc, site, d, place, &r, state),
        None => Ok(()),
    }
}

/// One round: what is called for is made real, and the first resource runs that is due. Whether one was.
#[tactic(auto, using(crate::proofs::RoundLaws::runs_due, crate::proofs::RoundLaws::refuses_due, crate::proofs::RoundLaws::nothing_due, crate::proofs::LookLaws::all_are, crate::proofs::LookLaws::due_grows, crate::proofs::LookLaws::still_are))]
fn one_round(
    alloc: Global,
    site: &Site<'_>,
    looked: &mut Looked,
    state: &mut State,
) -> Result<bool, Fault>
    requires { AreLooked looked.old state.old }
    ensures answers { AnswersBy (λ ran. (ran, state.new)) (one_round site.now state.old) result }
    ensures looked { OnOk result (AreLooked looked.new state.new) }
{
    realize_new(*looked, state);
    *looked = all_looked(state);
    let Some(place) = next_due(state) else {
        return Ok(false);
    };
    evaluate(alloc, site, place, state)?;
    Ok(true)
}

/// So many rounds, or fewer where nothing is left to do.
#[tactic(auto, using(crate::proofs::RoundLaws::goes_on, crate::proofs::RoundLaws::is_over, crate::proofs::RoundLaws::is_refused, crate::proofs::LookLaws::none_are))]
pub fn rounds(alloc: Global, site: &Site<'_>, turns: u32, state: &mut State) -> Result<(), Fault>
    ensures { AnswersBy (λ done. state.new) (rounds turns site.now state.old) result }
{
    let mut looked = none_looked();
    for _turn in 0..turns {
        match one_round(alloc, site, &mut looked, state) {
            Ok(true) => {}
            Ok(false) => return Ok(()),
            Err(fault) => return Err(fault),
        }
    }
    Ok(())
}
