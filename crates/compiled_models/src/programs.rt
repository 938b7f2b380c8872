//! The programs of native resources.

ghost use Rattle.std.specs.Prelude.{◌≡◌, [], ◌<◌, length, map, Ok, IfOk};
ghost use Rattle.std.specs.List.{AllByRecursion};
ghost use Rattle.pp_eval.specs.Evaluating.{AnswersBy};
ghost use Rattle.fs_lang.specs.Meaning.{program_of as meaning};
ghost use Rattle.fs_semantics.specs.FileTree.{is_among};
ghost use Rattle.given_links.specs.Reading.{program_read_as};
ghost use Rattle.model_names.specs.Seen.{seen};
ghost use Rattle.assumed_models.specs.Edits.{edits_beside, marks_of};
ghost use Rattle.assumed_models.specs.LostEdits.{with_lost_edits};
ghost use Rattle.compiled_models.specs.Programs.{done_by, done_of, model_of, programs_behind, programs, natives_at};
ghost use Rattle.compiled_models.specs.Hosts.{IsSound, setting_of, setting_with, native_of, AddsDone, AddsProgram};

use crate::edits::edits_of;
use crate::host::Host;
use crate::models::model_of;
use crate::natives::{Native, native_at};
use crate::refusals::fault_of;
use crate::told::program_told;
use assumed_models::{Edits, with_lost_edits};
use assumed_text::Assumptions;
use catalog::Catalog;
use compiled_text::CompiledCatalog;
use fs_lang::{Path, Program};
use given_links::{GivenLink, read_program};
use model_names::Model;
use model_semantics::{Cause, ModelFault};
use model_words::{push, sequence};
use pkg_listing::{Listing, PathSet};
use rh_base::{Fault, NoMemory, Seq};
use std::alloc::Global;

/// Whether a path is that of a link.
fn is_barred(links: &[GivenLink], p: &Path) -> bool
    ensures { result ≡ is_among p.now (map (λ l. l.path) links.now) }
{
    for link in links {
        if *p == link.path {
            return true;
        }
    }
    false
}

/// The program of a model whose place is neither that of a link nor taken; its place is taken then.
fn done_by(
    alloc: Global,
    links: &[GivenLink],
    m: Model,
    places: &mut PathSet,
) -> Result<Program, ModelFault>
    ensures { AddsDone (done_by links.now places.old (Ok (seen m))) result places.old places.new }
{
    if is_barred(links, &m.place) {
        return Err(ModelFault::Because(Cause::Reserved));
    }
    let is_new = places.insert(alloc, &m.place)?;
    if !is_new {
        return Err(ModelFault::Because(Cause::Twice));
    }
    Ok(sequence(m.steps))
}

/// What a resource does by its model.
fn modelled(
    alloc: Global,
    host: &Host<'_>,
    edits: &Edits,
    n: &Native<'_>,
    places: &mut PathSet,
) -> Result<Program, ModelFault>
    requires { IsSound host.now }
    ensures { AddsDone (done_by host.now.links.now places.old
        (model_of (setting_of host.now) (edits_beside n.now.place edits.now)
        (native_of n.now))) result places.old places.new }
{
    let m = model_of(alloc, host, edits.as_slice(), n)?;
    done_by(alloc, host.links, m, places)
}

/// What a resource does.
fn done_of(
    alloc: Global,
    host: &Host<'_>,
    edits: &Edits,
    n: &Native<'_>,
    places: &mut PathSet,
) -> Result<Program, ModelFault>
    requires { IsSound host.now }
    ensures { AddsDone (done_of (setting_of host.now) edits.now places.old (native_of n.now)) result places.old places.new }
{
    match program_told(alloc, host, n)? {
        Some(program) => Ok(program),
        None => modelled(alloc, host, edits, n, places),
    }
}

/// The program, read through the links, in which edits by others are lost where the file is written anew.
fn program_among(
    alloc: Global,
    links: &[GivenLink],
    edits: &Edits,
    place: usize,
    program: &Program,
) -> Result<Program, NoMemory>
    ensures { IfOk result (λ e. meaning e ≡ with_lost_edits (marks_of (edits_beside place edits.now))
        (program_read_as links.now (meaning program.now))) }
{
    let read = read_program(alloc, links, program)?;
    with_lost_edits(alloc, edits, place, read)
}

/// Adds the program of a resource.
fn push_program(
    alloc: Global,
    host: &Host<'_>,
    edits: &Edits,
    n: &Native<'_>,
    places: &mut PathSet,
    into: &mut Seq<Program>,
) -> Result<(), Fault>
    requires { IsSound host.now }
    ensures { AddsProgram (setting_of host.now) edits.now (native_of n.now) result places.old places.new
        (map meaning into.old) (map meaning into.new) }
{
    match done_of(alloc, host, edits, n, places) {
        Ok(program) => {
            let among = program_among(alloc, host.links, edits, n.place as usize, &program)?;
            push(into, among)?;
            Ok(())
        }
        Err(fault) => Err(fault_of(alloc, n, fault)),
    }
}

/// The programs of the resources at these places, beside the edits of all of them.
fn programs_beside(
    alloc: Global,
    host: &Host<'_>,
    edits: &Edits,
    catalog: &Catalog,
    plain: &[u32],
) -> Result<Seq<Program>, Fault>
    requires sound { IsSound host.now }
    requires told { AllByRecursion (λ i. i < length host.now.catalog.now.resources) plain.now }
    requires made { AllByRecursion (λ i. i < length catalog.now.resources) plain.now }
    ensures { AnswersBy (λ es. map meaning es)
        (programs_behind (setting_of host.now) edits.now []
        (natives_at host.now.catalog.now.resources catalog.now.resources plain.now)) result }
{
    let mut places = PathSet::new(alloc);
    let mut made = Seq::new(alloc);
    for place in plain {
        let n = native_at(host.catalog, catalog, *place);
        match push_program(alloc, host, edits, &n, &mut places, &mut made) {
            Ok(()) => {}
            Err(fault) => return Err(fault),
        }
    }
    Ok(made)
}

/// What the native resources at these places do, one after another: what is assumed of them, or their models, read through the links that
/// every host has, with edits by others lost; or the first refusal.
pub fn native_programs(
    alloc: Global,
    texts: &CompiledCatalog,
    catalog: &Catalog,
    plain: &[u32],
    assumptions: &Assumptions,
    listing: &Listing,
    links: &[GivenLink],
) -> Result<Seq<Program>, Fault>
    requires told { AllByRecursion (λ i. i < length texts.now.resources) plain.now }
    requires made { AllByRecursion (λ i. i < length catalog.now.resources) plain.now }
    ensures { AnswersBy (λ es. map meaning es)
        (programs (setting_with texts.now.resources assumptions.now listing.now links.now)
        (natives_at texts.now.resources catalog.now.resources plain.now)) result }
{
    let host = Host::of(alloc, texts, assumptions, listing, links)?;
    let edits = edits_of(alloc, &host, catalog, plain)?;
    programs_beside(alloc, &host, &edits, catalog, plain)
}
