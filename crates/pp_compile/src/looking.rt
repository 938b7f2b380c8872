//! What is made real in a round. No pair of a resource with a collector or a realization is looked at twice: the semi-naive
//! evaluation of a fixpoint (Bancilhon and Ramakrishnan 1986), in which only what is new is joined with the rest.

ghost use Rattle.std.specs.Prelude.{◌≡◌, ◌<◌, ◌≤◌, length, drop, slice_get, Some};
ghost use Rattle.std.specs.List.{list_any};
ghost use Rattle.pp_value.specs.Values.{same_ref};
ghost use Rattle.catalog_semantics.specs.declared.catalog.Resource.{Resource as R};
ghost use Rattle.catalog_semantics.specs.Collecting.{matches};
ghost use Rattle.catalog_semantics.specs.Catalogs.{realized};
ghost use Rattle.pp_compile.specs.Rounds.{realized_at};
ghost use Rattle.pp_compile.specs.Looking.{called_by, AreLooked, IsLookedAt};

use catalog_semantics::{Collector, Pending, Resource};
use pp_declaration_state::State;
use pp_declared_catalog::matches;

/// So many collectors, realizations and resources have been looked at, each resource with each of the others.
#[derive(Clone, Copy)]
pub struct Looked {
    collectors: usize,
    pending: usize,
    resources: u32,
}

/// Nothing has been looked at.
pub fn none_looked() -> Looked
    ensures { result ≡ record { collectors = 0; pending = 0; resources = 0 } }
{
    Looked {
        collectors: 0,
        pending: 0,
        resources: 0,
    }
}

/// All has been looked at.
pub fn all_looked(state: &State) -> Looked
    ensures { result ≡ record { collectors = length state.now.collectors; pending = length state.now.pending; resources = length state.now.resources } }
{
    Looked {
        collectors: state.collectors().len(),
        pending: state.pending().len(),
        resources: state.count(),
    }
}

fn any_matches(collectors: &[Collector], r: &Resource) -> bool
    ensures { result ≡ list_any (λ c. matches c r.now) collectors.now }
{
    for c in collectors {
        if matches(c, r) {
            return true;
        }
    }
    false
}

fn any_names(pending: &[Pending], r: &Resource) -> bool
    ensures { result ≡ list_any (λ p. same_ref p.target r.now.id) pending.now }
{
    for p in pending {
        if p.target == r.id {
            return true;
        }
    }
    false
}

/// Whether a resource is called for by one of the collectors or realizations from these places on.
fn is_called_from(state: &State, collectors: usize, pending: usize, r: &Resource) -> bool
    requires collectors { collectors ≤ length state.now.collectors }
    requires pending { pending ≤ length state.now.pending }
    ensures { result ≡ called_by (drop collectors state.now.collectors) (drop pending state.now.pending) r.now }
{
    let matched = any_matches(&state.collectors().as_slice()[collectors..], r);
    matched || any_names(&state.pending().as_slice()[pending..], r)
}

/// Whether a resource is called for, where some of the others have been looked at with it.
fn is_called(looked: Looked, i: u32, state: &State, r: &Resource) -> bool
    requires collectors { looked.collectors ≤ length state.now.collectors }
    requires pending { looked.pending ≤ length state.now.pending }
    ensures old { i < looked.resources
        → result ≡ called_by (drop looked.collectors state.now.collectors)
        (drop looked.pending state.now.pending) r.now }
    ensures new { looked.resources ≤ i → result ≡ called_by state.now.collectors state.now.pending r.now }
{
    if i < looked.resources {
        return is_called_from(state, looked.collectors, looked.pending, r);
    }
    is_called_from(state, 0, 0, r)
}

/// Makes the resource at a place real, where it is called for.
#[tactic(auto, using(crate::proofs::RoundLaws::is_realized, crate::proofs::RoundLaws::not_called, crate::proofs::RoundLaws::not_virtual, crate::proofs::LookLaws::others_call))]
fn realize_at(looked: Looked, i: u32, state: &mut State)
    requires below { i < length state.old.resources }
    requires collectors { looked.collectors ≤ length state.old.collectors }
    requires pending { looked.pending ≤ length state.old.pending }
    requires looked { i < looked.resources → (r : R) → slice_get state.old.resources i ≡ Some r → IsLookedAt looked state.old r }
    ensures { state.new ≡ realized_at i state.old }
{
    let r = state.get(i);
    if r.is_virtual && is_called(looked, i, state, r) {
        state.realize(i);
    }
}

/// Makes all resources real that are called for.
#[tactic(auto, using(crate::proofs::RoundLaws::one_more, crate::proofs::RoundLaws::all_real, crate::proofs::RoundLaws::still_as_many, crate::proofs::LookLaws::still_looked_at))]
pub fn realize_new(looked: Looked, state: &mut State)
    requires { AreLooked looked state.old }
    ensures { state.new ≡ realized state.old }
{
    for i in 0..state.count() {
        realize_at(looked, i, state);
    }
}
