//! What is explained of the programs of resources and the order between them.

ghost use Rattle.std.specs.Prelude.{◌≡◌, ◌<◌, ◌^◌, length, map, slice_get, None, IfOk, IfErr};
ghost use Rattle.std.specs.List.{AllByRecursion};
ghost use Rattle.rh_base.specs.Refused.{IfRefused};
ghost use Rattle.fs_lang.specs.Meaning.{program_of};
ghost use Rattle.known_inputs.specs.Inputs.{input_of};
ghost use Rattle.node_label.specs.Labels.{IsNodeLineOf};
ghost use Rattle.given_verdict.specs.Limits.{IsTooLargeWith};
ghost use Rattle.reports.specs.Stages.{node_name, IsCompiled, IsInOrder};
ghost use Rattle.reports.specs.Explanations.{placed_name, AreNamed, IsNodeNote, IsExplanation};

use crate::compiling::node_name;
use crate::modelling::Modelled;
use crate::terms::Asked;
use crate::verdicts::name_at;
use catalog::Catalog;
use compiled_relations::name_and_line;
use compiled_text::CompiledCatalog;
use explain_report::told;
use known_inputs::{Inputs, Known};
use node_label::node_line;
use placed_names::placed_names;
use plans::Plan;
use pp_compile::one_reading;
use printed_names::printed;
use rh_base::{Fault, NoMemory, Seq, Text};
use std::alloc::Global;
use verdict_report::Report;

/// The reference of the resource at a place of a compiled catalog, as it is printed, with the file and the line that declare it.
fn placed_name(
    alloc: Global,
    compiled: &CompiledCatalog,
    catalog: &Catalog,
    place: u32,
) -> Result<Text, NoMemory>
    requires { place < length catalog.now.resources }
    ensures { IfOk result (λ name. name ≡ placed_name catalog.now place (slice_get compiled.now.resources place)) }
{
    let Some(r) = compiled.resources().get(place as usize) else {
        return Ok(Text::new(alloc));
    };
    let reference = name_at(alloc, catalog, place)?;
    let name = name_and_line(alloc, r, reference.as_str())?;
    printed(alloc, name.as_str())
}

/// The names of the resources at these places of a compiled catalog.
fn compiled_names(
    alloc: Global,
    compiled: &CompiledCatalog,
    catalog: &Catalog,
    plain: &[u32],
) -> Result<Seq<Text>, NoMemory>
    requires { AllByRecursion (λ k. k < length catalog.now.resources) plain.now }
    ensures { IfOk result (λ names. names ≡ map (λ k. placed_name catalog.now k (slice_get compiled.now.resources k)) plain.now) }
{
    let mut names = Seq::new(alloc);
    for place in plain {
        names.push(placed_name(alloc, compiled, catalog, *place)?)?;
    }
    Ok(names)
}

/// The names of the resources at these places, with what declares them.
fn names_of(
    alloc: Global,
    inputs: &Inputs,
    source: &Option<CompiledCatalog>,
    catalog: &Catalog,
    plain: &[u32],
) -> Result<Seq<Text>, NoMemory>
    requires { AllByRecursion (λ k. k < length catalog.now.resources) plain.now }
    ensures { IfOk result (AreNamed inputs.now source.now catalog.now plain.now) }
{
    match source {
        None => placed_names(alloc, inputs.input(), catalog, plain),
        Some(compiled) => compiled_names(alloc, compiled, catalog, plain),
    }
}

/// The line on the node block that runs, of a manifest that has a catalog.
fn node_line_of(
    alloc: Global,
    inputs: &Inputs,
    known: &Known,
    catalog: &Catalog,
) -> Result<Text, NoMemory>
    requires small { length (input_of inputs.now) < 2 ^ 32 }
    requires compiled { IsCompiled inputs.now known.now None catalog.now }
    ensures { IfOk result (IsNodeLineOf (input_of inputs.now) (node_name inputs.now.node)) }
{
    one_reading();
    match node_line(alloc, inputs.input(), node_name(&inputs.node)) {
        Ok(line) => Ok(line),
        Err(Fault::Memory(none)) => Err(none),
        Err(Fault::Refused(_)) => unreachable!(),
    }
}

/// The line on the node block that runs, if what is asked about is a manifest.
fn node_note(
    alloc: Global,
    inputs: &Inputs,
    known: &Known,
    source: &Option<CompiledCatalog>,
    catalog: &Catalog,
) -> Result<Text, NoMemory>
    requires small { length (input_of inputs.now) < 2 ^ 32 }
    requires compiled { IsCompiled inputs.now known.now source.now catalog.now }
    ensures { IfOk result (IsNodeNote inputs.now source.now) }
{
    match source {
        None => node_line_of(alloc, inputs, known, catalog),
        Some(_) => Ok(Text::new(alloc)),
    }
}

/// What is explained of the programs of resources and the order between them.
pub fn explained(
    alloc: Global,
    asked: &Asked,
    inputs: &Inputs,
    known: &Known,
    made: &Modelled,
) -> Result<Report, Fault>
    requires small { length (input_of inputs.now) < 2 ^ 32 }
    requires compiled { IsCompiled inputs.now known.now made.now.source made.now.catalog }
    requires order { IsInOrder made.now.catalog made.now.graph (map program_of made.now.programs) }
    ensures told { IfOk result (IsExplanation asked.now inputs.now made.now.source made.now.catalog made.now.graph
        (map program_of made.now.programs)) }
    ensures refused { IfErr result
        (λ e. IfRefused e (IsTooLargeWith asked.now.terms.limits asked.now.terms.given (map program_of made.now.programs))) }
{
    let plain = made.graph.plain.as_slice();
    let names = names_of(alloc, inputs, &made.source, &made.catalog, plain)?;
    let mut notes = node_note(alloc, inputs, known, &made.source, &made.catalog)?;
    notes.push(asked.notes.as_str())?;
    let shown = names.as_slice();
    let lines = notes.as_str().as_bytes();
    let plan = Plan {
        programs: made.programs.as_slice(),
        order: &made.graph.order,
    };
    let report = told(alloc, &asked.terms, lines, shown, &plan)?;
    Ok(report)
}
