//! The report on what resources do.

ghost use Rattle.std.specs.Prelude.{◌≡◌, ◌<◌, ◌++◌, length, map, false, IfOk, OnOk};
ghost use Rattle.std.specs.List.{AllByRecursion};
ghost use Rattle.fs_lang.specs.Meaning.{program_of};
ghost use Rattle.reports.specs.Reports.{is_assumed_at, assumed_mark, resource_program, program_lines};

use crate::modelling::Modelled;
use catalog::Catalog;
use compiled_models::assumed_at_places;
use compiled_text::CompiledCatalog;
use fs_lang::Program;
use known_inputs::Known;
use pp_value::shown_ref;
use printed_names::printed;
use rh_base::{NoMemory, Seq};
use std::alloc::Global;
use tree_text::program_text;
use verdict_text::push_bytes;

/// That none of the resources at these places is assumed, since a manifest has them.
fn none_is_assumed(alloc: Global, plain: &[u32]) -> Result<Seq<bool>, NoMemory>
    ensures { IfOk result (λ marks. marks ≡ map (λ place. false) plain.now) }
{
    let mut marks = Seq::new(alloc);
    for _place in plain {
        marks.push(false)?;
    }
    Ok(marks)
}

/// Which of the resources at these places are assumed.
fn assumed_at(
    alloc: Global,
    known: &Known,
    source: &Option<CompiledCatalog>,
    plain: &[u32],
) -> Result<Seq<bool>, NoMemory>
    ensures { IfOk result (λ marks. marks ≡ map (is_assumed_at known.now source.now) plain.now) }
{
    match source {
        None => none_is_assumed(alloc, plain),
        Some(compiled) => assumed_at_places(alloc, compiled, plain, &known.assumed),
    }
}

/// What stands behind the reference of a resource, if its program is assumed.
fn assumed_mark(is_assumed: bool) -> &'static [u8]
    ensures { result.now ≡ assumed_mark is_assumed }
{
    if is_assumed { b" (assumed)" } else { b"" }
}

/// Adds the reference of a resource and its program, a line for each.
fn push_program(
    alloc: Global,
    is_assumed: bool,
    catalog: &Catalog,
    place: u32,
    program: &Program,
    into: &mut Vec<u8>,
) -> Result<(), NoMemory>
    requires { place < length catalog.now.resources }
    ensures { OnOk result (into.new.items ≡ into.old.items ++ resource_program is_assumed catalog.now place (program_of program.now)) }
{
    let reference = shown_ref(alloc, &catalog.get(place).id)?;
    let shown = printed(alloc, reference.as_str())?;
    push_bytes(shown.as_str().as_bytes(), into)?;
    push_bytes(assumed_mark(is_assumed), into)?;
    push_bytes(b"\n", into)?;
    program_text(alloc, program, into)?;
    push_bytes(b"\n", into)
}

/// Adds the lines of resources with their programs.
fn push_programs(
    alloc: Global,
    known: &Known,
    source: &Option<CompiledCatalog>,
    catalog: &Catalog,
    plain: &[u32],
    programs: &[Program],
    into: &mut Vec<u8>,
) -> Result<(), NoMemory>
    requires { AllByRecursion (λ i. i < length catalog.now.resources) plain.now }
    ensures { OnOk result (into.new.items ≡ into.old.items ++ program_lines known.now source.now catalog.now plain.now
        (map program_of programs.now)) }
{
    let assumed = assumed_at(alloc, known, source, plain)?;
    let marks = assumed.as_slice();
    let mut rest = programs;
    for k in 0..plain.len() {
        let Some((program, more)) = rest.split_first() else {
            break;
        };
        push_program(alloc, marks[k], catalog, plain[k], program, into)?;
        rest = more;
    }
    Ok(())
}

/// The lines of resources with their programs.
pub fn program_lines(alloc: Global, known: &Known, made: &Modelled) -> Result<Seq<u8>, NoMemory>
    requires { AllByRecursion (λ i. i < length made.now.catalog.resources) made.now.graph.plain }
    ensures { IfOk result (λ bytes. bytes ≡ program_lines known.now made.now.source made.now.catalog made.now.graph.plain
        (map program_of made.now.programs)) }
{
    let plain = made.graph.plain.as_slice();
    let programs = made.programs.as_slice();
    let mut bytes = Vec::new(alloc);
    push_programs(
        alloc,
        known,
        &made.source,
        &made.catalog,
        plain,
        programs,
        &mut bytes,
    )?;
    Ok(Seq::from_vec(bytes))
}
