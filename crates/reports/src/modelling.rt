//! What the resources of a graph do, and with it what is asked about.

ghost use Rattle.std.specs.Prelude.{◌<◌, ◌^◌, length, map, None, Some, IfOk, IfErr};
ghost use Rattle.std.specs.List.{AllByRecursion};
ghost use Rattle.rh_base.specs.Refused.{IfRefused};
ghost use Rattle.fs_lang.specs.Meaning.{program_of};
ghost use Rattle.pp_eval.specs.Evaluating.{AnswersBy};
ghost use Rattle.reports.specs.Stages.{programs_in, AreTold, ForSource, IsModelled, ProgramsRefusal};

use crate::compiling::catalog_under;
use catalog::Catalog;
use compiled_models::native_programs;
use compiled_text::CompiledCatalog;
use dep_graph::{Graph, graph};
use fs_lang::Program;
use given_links::read_programs;
use given_text::link_paths;
use host_limits::Limits;
use known_inputs::Known;
use res_models::programs_of;
use rh_base::{Fault, Seq};
use std::alloc::Global;

/// The programs of the resources of a manifest's graph.
fn manifest_programs(
    alloc: Global,
    known: &Known,
    catalog: &Catalog,
    plan: &Graph,
) -> Result<Seq<Program>, Fault>
    requires { AllByRecursion (λ k. k < length catalog.now.resources) plan.now.plain }
    ensures { AnswersBy (λ es. map program_of es) (programs_in known.now None catalog.now plan.now.plain) result }
{
    let links = known.given.links.as_slice();
    let barred = link_paths(alloc, links)?;
    let plain = plan.plain.as_slice();
    let made = programs_of(alloc, catalog, plain, &known.listing, barred.as_slice())?;
    Ok(read_programs(alloc, links, made.as_slice())?)
}

/// The programs of the resources of a compiled catalog's graph.
fn compiled_programs(
    alloc: Global,
    known: &Known,
    compiled: &CompiledCatalog,
    catalog: &Catalog,
    plan: &Graph,
) -> Result<Seq<Program>, Fault>
    requires places { AllByRecursion (λ k. k < length catalog.now.resources) plan.now.plain }
    requires told { AllByRecursion (λ k. k < length compiled.now.resources) plan.now.plain }
    ensures { AnswersBy (λ es. map program_of es) (programs_in known.now (Some compiled.now) catalog.now plan.now.plain) result }
{
    let plain = plan.plain.as_slice();
    let links = known.given.links.as_slice();
    native_programs(
        alloc,
        compiled,
        catalog,
        plain,
        &known.assumed,
        &known.listing,
        links,
    )
}

/// The programs of a graph's resources, read through the links that every host has.
fn programs_in(
    alloc: Global,
    known: &Known,
    source: &Option<CompiledCatalog>,
    catalog: &Catalog,
    plan: &Graph,
) -> Result<Seq<Program>, Fault>
    requires places { AllByRecursion (λ k. k < length catalog.now.resources) plan.now.plain }
    requires told { AreTold source.now plan.now.plain }
    ensures { AnswersBy (λ es. map program_of es) (programs_in known.now source.now catalog.now plan.now.plain) result }
{
    match source {
        None => manifest_programs(alloc, known, catalog, plan),
        Some(compiled) => compiled_programs(alloc, known, compiled, catalog, plan),
    }
}

/// What is asked about: a compiled catalog, if it is one, its catalog or that of the manifest, the graph, and what the resources do.
#[derive(Drop)]
pub struct Modelled {
    pub source: Option<CompiledCatalog>,
    pub catalog: Catalog,
    pub graph: Graph,
    pub programs: Seq<Program>,
}

/// The catalog of a compiled catalog, or else of a text, its graph and what its resources do, under what the files beside it say.
pub fn model_source(
    alloc: Global,
    source: Option<CompiledCatalog>,
    text: &[u8],
    name: &str,
    limits: Limits,
    known: &Known,
) -> Result<Modelled, Fault>
    requires { length text.now < 2 ^ 32 }
    ensures modelled { IfOk result
        (λ m. ForSource source text.now name.now limits known.now
        (λ i. IsModelled i known.now m.source m.catalog m.graph (map program_of m.programs))) }
    ensures refused { IfErr result
        (λ e. IfRefused e (λ r. ForSource source text.now name.now limits known.now (λ i. ProgramsRefusal i r))) }
{
    let catalog = catalog_under(alloc, &source, text, name, limits, known)?;
    let graph = graph(alloc, &catalog)?;
    // so the order relates no other numbers
    graph.order.count();
    let programs = programs_in(alloc, known, &source, &catalog, &graph)?;
    Ok(Modelled {
        source,
        catalog,
        graph,
        programs,
    })
}
