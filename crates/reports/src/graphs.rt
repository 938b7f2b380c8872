//! The report on a graph.

ghost use Rattle.std.specs.Prelude.{◌<◌, ◌^◌, length, IfOk, IfErr};
ghost use Rattle.rh_base.specs.Refused.{IfRefused};
ghost use Rattle.command_line.specs.declared.table.Role.TheVariants as role;
ghost use Rattle.known_inputs.specs.Inputs.{bytes_of, input_of, IsCompiledOf, IsKnown};
ghost use Rattle.graph_semantics.specs.Graphs.{IsGraphRefusal};
ghost use Rattle.reports.specs.Stages.{GraphRefusal};
ghost use Rattle.reports.specs.Reports.{IsGraphShown, IsGraphReport};

use crate::bytes::bytes_of;
use crate::compiling::catalog_for;
use catalog::Catalog;
use compiled_text::CompiledCatalog;
use dep_graph::{graph, graph_text};
use known_inputs::{Inputs, Known, known_inputs};
use rh_base::{Fault, Seq};
use std::alloc::Global;

/// The lines of a catalog's graph.
fn graph_lines(alloc: Global, catalog: &Catalog) -> Result<Seq<u8>, Fault>
    ensures shown { IfOk result (IsGraphShown catalog.now) }
    ensures refused { IfErr result (λ e. IfRefused e (IsGraphRefusal catalog.now)) }
{
    let plan = graph(alloc, catalog)?;
    // so the order relates no other numbers
    plan.order.count();
    let text = graph_text(alloc, catalog, &plan)?;
    Ok(bytes_of(text))
}

/// The lines of the graph of a compiled catalog, or else of the manifest, under what the files beside it say.
fn graph_for(
    alloc: Global,
    inputs: &Inputs,
    known: &Known,
    source: &Option<CompiledCatalog>,
) -> Result<Seq<u8>, Fault>
    requires small { length (input_of inputs.now) < 2 ^ 32 }
    requires known { IsKnown inputs.now known.now }
    requires source { IsCompiledOf (bytes_of role.Compiled inputs.now) source.now }
    ensures report { IfOk result (IsGraphReport inputs.now) }
    ensures refused { IfErr result (λ e. IfRefused e (GraphRefusal inputs.now)) }
{
    let catalog = catalog_for(alloc, inputs, known, source)?;
    graph_lines(alloc, &catalog)
}

/// The real resources of built-in types, and each pair of which one comes before the other; or the first refusal.
pub fn graph_report(alloc: Global, inputs: &Inputs) -> Result<Seq<u8>, Fault>
    requires { length (input_of inputs.now) < 2 ^ 32 }
    ensures report { IfOk result (IsGraphReport inputs.now) }
    ensures refused { IfErr result (λ e. IfRefused e (GraphRefusal inputs.now)) }
{
    let (known, source) = known_inputs(alloc, inputs)?;
    graph_for(alloc, inputs, &known, &source)
}
