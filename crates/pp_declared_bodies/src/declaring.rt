//! Resources as they are declared.

ghost use Rattle.std.specs.Prelude.{◌≡◌, ◌++◌, map, OnOk};
ghost use Rattle.pp_eval.specs.Evaluating.{AnswersBy};
ghost use Rattle.catalog_semantics.specs.States.{in_turn};
ghost use Rattle.catalog_semantics.specs.Declaring.{sort_of, resource_declared, body_declared, bodies_declared, resources_declared};
ghost use Rattle.pp_declared_bodies.specs.Bodies.{declared_behind, ref_to};
ghost use Rattle.pp_declared_bodies.specs.Untitled.{titled};

use crate::types::known_type;
use catalog_semantics::{Resource, Sort};
use pp_declaration_state::State;
use pp_declared_values::{attributes_at, titles_at};
use pp_definitions::{Site, is_built_in};
use pp_eval::plain_name;
use pp_syntax::Body;
use pp_value::{Pairs, Ref, copy_pairs};
use rh_base::{Fault, NoMemory, Seq, Text};
use std::alloc::Global;

/// A declaration as it stands: its place, whether it is virtual, the type as it is written, and what it declares of it.
#[derive(Clone, Copy)]
pub struct Declaration<'t> {
    pub at: u32,
    pub is_virtual: bool,
    pub kind: &'t str,
    pub bodies: &'t [Body],
}

/// A resource that lacks its title. For each title of a body there is one.
#[derive(Clone, Copy)]
struct Untitled<'b> {
    at: u32,
    is_virtual: bool,
    kind: &'b Text,
    attributes: &'b Pairs,
}

fn sort_of(kind: &str) -> Sort
    ensures { result ≡ sort_of kind.now }
{
    if is_built_in(kind) {
        Sort::Plain
    } else {
        Sort::Defined
    }
}

/// Adds a resource, which the class or defined resource holds whose body runs.
fn declare_one(
    alloc: Global,
    untitled: &Untitled<'_>,
    title: &Text,
    state: &mut State,
) -> Result<(), Fault>
    ensures { AnswersBy (λ done. state.new) (titled untitled.now title.now state.old) result }
{
    let id = Ref {
        kind: untitled.kind.copy(alloc)?,
        title: title.copy(alloc)?,
    };
    let attrs = copy_pairs(alloc, untitled.attributes)?;
    state.add(Resource {
        id,
        sort: sort_of(untitled.kind.as_str()),
        is_virtual: untitled.is_virtual,
        at: untitled.at,
        holder: state.running(),
        attrs,
    })
}

/// Adds a resource for each title.
fn declare_all(
    alloc: Global,
    untitled: &Untitled<'_>,
    titles: &[Text],
    state: &mut State,
) -> Result<(), Fault>
    ensures { AnswersBy (λ done. state.new) (in_turn (map (titled untitled.now) titles.now) state.old) result }
{
    for title in titles {
        match declare_one(alloc, untitled, title, state) {
            Ok(()) => {}
            Err(fault) => return Err(fault),
        }
    }
    Ok(())
}

/// Appends the references to resources of a type.
fn push_refs(
    alloc: Global,
    kind: &Text,
    titles: &[Text],
    refs: &mut Seq<Ref>,
) -> Result<(), NoMemory>
    ensures { OnOk result (refs.new ≡ refs.old ++ map (ref_to kind.now) titles.now) }
{
    for title in titles {
        let kind = kind.copy(alloc)?;
        let title = title.copy(alloc)?;
        refs.push(Ref { kind, title })?;
    }
    Ok(())
}

/// Declares the resources of one body, and appends their references.
fn declare_body(
    alloc: Global,
    is_virtual: bool,
    kind: &Text,
    b: &Body,
    refs: &mut Seq<Ref>,
    state: &mut State,
) -> Result<(), Fault>
    ensures { AnswersBy (λ done. (refs.new, state.new))
        (declared_behind refs.old
        (body_declared (λ here. resource_declared here is_virtual kind.now) (ref_to kind.now) b.now state.old)) result }
{
    let titles = titles_at(alloc, &b.title, state.scopes())?;
    let attributes = attributes_at(alloc, b.attrs.as_slice(), state.scopes())?;
    let untitled = Untitled {
        at: b.title.at,
        is_virtual,
        kind,
        attributes: &attributes,
    };
    let names = titles.as_slice();
    declare_all(alloc, &untitled, names, state)?;
    push_refs(alloc, kind, names, refs)?;
    Ok(())
}

/// Declares the resources of some bodies.
#[tactic(auto, using(crate::proofs::BodyLaws::nothing_declared, crate::proofs::BodyLaws::next_body, crate::proofs::BodyLaws::body_refused))]
fn declare_bodies(
    alloc: Global,
    is_virtual: bool,
    kind: &Text,
    bodies: &[Body],
    state: &mut State,
) -> Result<Seq<Ref>, Fault>
    ensures { AnswersBy (λ refs. (refs, state.new))
        (bodies_declared (λ here. resource_declared here is_virtual kind.now)
        (ref_to kind.now) bodies.now state.old) result }
{
    let mut refs = Seq::new(alloc);
    for b in bodies {
        match declare_body(alloc, is_virtual, kind, b, &mut refs, state) {
            Ok(()) => {}
            Err(fault) => return Err(fault),
        }
    }
    Ok(refs)
}

/// Declares resources of a type, and gives their references.
pub fn declare_resources(
    alloc: Global,
    site: &Site<'_>,
    declaration: &Declaration<'_>,
    state: &mut State,
) -> Result<Seq<Ref>, Fault>
    ensures { AnswersBy (λ refs. (refs, state.new))
        (resources_declared site.now declaration.now.at declaration.now.is_virtual
        declaration.now.kind.now declaration.now.bodies.now state.old) result }
{
    let kind = plain_name(alloc, declaration.kind)?;
    let kind = known_type(alloc, site, declaration.at, kind)?;
    declare_bodies(
        alloc,
        declaration.is_virtual,
        &kind,
        declaration.bodies,
        state,
    )
}
