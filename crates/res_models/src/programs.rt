//! The programs of resources, and their refusals.

ghost use Rattle.std.specs.Prelude.{◌≡◌, ◌++◌, ◌∷◌, ◌<◌, [], length, map, IfOk};
ghost use Rattle.std.specs.List.{AllByRecursion};
ghost use Rattle.rh_base.specs.Refused.{IfRefused};
ghost use Rattle.pp_value.specs.Shown.{shown_ref};
ghost use Rattle.pp_eval.specs.Evaluating.{AnswersBy, refusal};
ghost use Rattle.fs_lang.specs.Meaning.{program_of as meaning};
ghost use Rattle.model_semantics.specs.Names.{Meets};
ghost use Rattle.fs_semantics.specs.FileTree.{is_among};
ghost use Rattle.model_semantics.specs.Models.{refusal_of, program, new_model, programs};
ghost use Rattle.model_names.specs.Seen.{seen};
ghost use Rattle.res_models.specs.Seen.{resources_at, IsFaultOf, AddsProgram};

use crate::models::model_of;
use catalog::Catalog;
use catalog_semantics::Resource;
use fs_lang::{Path, Program};
use model_names::Model;
use model_semantics::{Cause, ModelFault};
use model_words::sequence;
use pkg_listing::{Listing, PathSet};
use pp_eval::refusal;
use pp_value::shown_ref;
use rh_base::{Fault, NoMemory};
use std::alloc::Global;

/// A refusal with the resource's reference.
fn refused_as(alloc: Global, number: u16, r: &Resource) -> Fault
    ensures { IfRefused result (λ x. x ≡ refusal number r.now.at (shown_ref r.now.id)) }
{
    match shown_ref(alloc, &r.id) {
        Ok(name) => refusal(alloc, number, r.at, name.as_str()),
        Err(m) => Fault::Memory(m),
    }
}

/// The refusal of a resource for a cause.
fn refusal_of(alloc: Global, r: &Resource, cause: &Cause) -> Fault
    ensures { IfRefused result (λ x. x ≡ refusal_of r.now cause.now) }
{
    match cause {
        Cause::Unmodelled => refused_as(alloc, 50, r),
        Cause::Attribute(name) => refusal(alloc, 51, r.at, name.as_str()),
        Cause::Name => refused_as(alloc, 52, r),
        Cause::Reserved => refused_as(alloc, 53, r),
        Cause::Unlisted => refused_as(alloc, 54, r),
        Cause::State => refused_as(alloc, 55, r),
        Cause::Twice => refused_as(alloc, 56, r),
    }
}

fn fault_of(alloc: Global, r: &Resource, fault: ModelFault) -> Fault
    ensures { IsFaultOf r.now fault result }
{
    match fault {
        ModelFault::Because(cause) => refusal_of(alloc, r, &cause),
        ModelFault::Memory(m) => Fault::Memory(m),
    }
}

/// The program of a resource of a built-in type.
pub fn program_of(alloc: Global, r: &Resource, listing: &Listing) -> Result<Program, Fault>
    ensures { AnswersBy meaning (program listing.now r.now) result }
{
    match model_of(alloc, listing, r) {
        Ok(m) => Ok(sequence(m.steps)),
        Err(fault) => Err(fault_of(alloc, r, fault)),
    }
}

/// Whether a path is one of these.
fn is_barred(barred: &[Path], p: &Path) -> bool
    ensures { result ≡ is_among p.now barred.now }
{
    for q in barred {
        if p == q {
            return true;
        }
    }
    false
}

/// The model of a resource whose place is neither barred nor that of one before; its place is kept.
fn new_model(
    alloc: Global,
    r: &Resource,
    listing: &Listing,
    barred: &[Path],
    places: &mut PathSet,
) -> Result<Model, ModelFault>
    ensures model { Meets seen (new_model barred.now places.old listing.now r.now) result }
    ensures places { IfOk result (λ m. places.new ≡ places.old ++ m.place ∷ []) }
{
    let m = model_of(alloc, listing, r)?;
    if is_barred(barred, &m.place) {
        return Err(ModelFault::Because(Cause::Reserved));
    }
    let is_new = places.insert(alloc, &m.place)?;
    if !is_new {
        return Err(ModelFault::Because(Cause::Twice));
    }
    Ok(m)
}

/// Adds the program of a resource.
fn push_program(
    alloc: Global,
    r: &Resource,
    listing: &Listing,
    barred: &[Path],
    places: &mut PathSet,
    into: &mut Vec<Program>,
) -> Result<(), Fault>
    ensures { AddsProgram barred.now listing.now r.now result places.old places.new (map meaning into.old.items)
        (map meaning into.new.items) }
{
    match new_model(alloc, r, listing, barred, places) {
        Ok(m) => {
            match into.push(sequence(m.steps)) {
                Ok(()) => Ok(()),
                Err(_) => Err(Fault::Memory(NoMemory)),
            }
        }
        Err(fault) => Err(fault_of(alloc, r, fault)),
    }
}

/// The programs of the resources at these places, in their order; none of them is a file at a barred path.
pub fn programs_of(
    alloc: Global,
    catalog: &Catalog,
    plain: &[u32],
    listing: &Listing,
    barred: &[Path],
) -> Result<Vec<Program>, Fault>
    requires { AllByRecursion (λ i. i < length catalog.now.resources) plain.now }
    ensures { AnswersBy (λ es. map meaning es.items)
        (programs barred.now listing.now (resources_at catalog.now.resources plain.now)) result }
{
    let mut places = PathSet::new(alloc);
    let mut made = Vec::new(alloc);
    for i in plain {
        let r = catalog.get(*i);
        push_program(alloc, r, listing, barred, &mut places, &mut made)?;
    }
    Ok(made)
}
