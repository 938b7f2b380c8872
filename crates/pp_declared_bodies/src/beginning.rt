//! How bodies begin.

ghost use Rattle.std.specs.Prelude.{◌≡◌, option_map, IfOk};
ghost use Rattle.pp_eval.specs.Evaluating.{AnswersBy};
ghost use Rattle.pp_eval.specs.Scoping.{class_scope, defined_scope};
ghost use Rattle.catalog_semantics.specs.Declaring.{body_begins};
ghost use Rattle.pp_declared_bodies.specs.Beginning.{class_added, class_begins};

use crate::parameters::{all_known, bind_parameters};
use catalog_semantics::Resource;
use pp_declaration_state::State;
use pp_definitions::Definition;
use pp_eval::refusal;
use pp_value::copy_pairs;
use rh_base::{Fault, NoMemory};
use std::alloc::Global;

/// An equal resource.
pub fn copy_resource(alloc: Global, r: &Resource) -> Result<Resource, NoMemory>
    ensures { IfOk result (λ x. x ≡ r.now) }
{
    let id = r.id.copy(alloc)?;
    let attrs = copy_pairs(alloc, &r.attrs)?;
    Ok(Resource {
        id,
        sort: r.sort,
        is_virtual: r.is_virtual,
        at: r.at,
        holder: r.holder,
        attrs,
    })
}

/// The body of a defined resource begins, which stands at a place.
pub fn begin_defined(
    alloc: Global,
    d: &Definition<'_>,
    place: u32,
    r: &Resource,
    state: &mut State,
) -> Result<(), Fault>
    ensures { AnswersBy (λ done. state.new) (body_begins d.now place r.now defined_scope state.old) result }
{
    all_known(alloc, r.at, d.parameters(), r.attrs.as_slice(), state)?;
    state.enter_defined()?;
    bind_parameters(alloc, r, d.parameters(), state)?;
    state.begin_body(place);
    Ok(())
}

fn parent_of<'s>(d: &'s Definition<'_>) -> Option<&'s str>
    ensures { option_map (λ p. p.now) result ≡ d.now.parent }
{
    match d.parent() {
        Some(parent) => Some(parent.as_str()),
        None => None,
    }
}

/// The body of a class begins, whose resource stands already.
fn begin_body(
    alloc: Global,
    d: &Definition<'_>,
    place: u32,
    r: &Resource,
    state: &mut State,
) -> Result<(), Fault>
    ensures { AnswersBy (λ done. state.new)
        (body_begins d.now place r.now (class_scope state.old.scopes.0 d.now.name d.now.parent) state.old) result }
{
    all_known(alloc, r.at, d.parameters(), r.attrs.as_slice(), state)?;
    state.enter_class(d.name().as_str(), parent_of(d))?;
    bind_parameters(alloc, r, d.parameters(), state)?;
    state.begin_body(place);
    Ok(())
}

/// Adds the resource of a class, where one more body may run.
#[tactic(auto, using(crate::proofs::BeginningLaws::not_new, crate::proofs::BeginningLaws::is_added, crate::proofs::BeginningLaws::may_not))]
fn add_class(alloc: Global, r: &Resource, may_run: bool, state: &mut State) -> Result<(), Fault>
    ensures { AnswersBy (λ done. state.new) (class_added may_run r.now state.old) result }
{
    let copy = copy_resource(alloc, r)?;
    if may_run || state.place_of(&r.id).is_some() {
        return state.add(copy);
    }
    Err(refusal(alloc, 32, r.at, "declared"))
}

/// A class becomes a resource, and its body begins, where one more may run.
#[tactic(auto, using(crate::proofs::BeginningLaws::begins_added))]
pub fn begin_class(
    alloc: Global,
    d: &Definition<'_>,
    r: &Resource,
    may_run: bool,
    state: &mut State,
) -> Result<(), Fault>
    ensures { AnswersBy (λ done. state.new) (class_begins may_run d.now r.now state.old) result }
{
    let place = state.count();
    add_class(alloc, r, may_run, state)?;
    begin_body(alloc, d, place, r, state)
}
