//! What is told of the arrows that resources lack.

ghost use Rattle.std.specs.Prelude.{◌≡◌, ◌<◌, length, map, slice_get, IfOk, IfErr};
ghost use Rattle.std.specs.List.{AllByRecursion};
ghost use Rattle.rh_base.specs.Refused.{IfRefused};
ghost use Rattle.fs_lang.specs.Meaning.{program_of};
ghost use Rattle.given_verdict.specs.Limits.{IsTooLargeWith};
ghost use Rattle.repair_report.specs.Told.{IsRepairTold};
ghost use Rattle.reports.specs.Stages.{IsInOrder};
ghost use Rattle.reports.specs.Questions.{quoted_as_told, quoted_at, quoted_names_in};

use crate::modelling::Modelled;
use crate::terms::Asked;
use catalog::Catalog;
use compiled_text::CompiledCatalog;
use plans::Plan;
use repair_report::{quoted_ref, told};
use rh_base::{Fault, NoMemory, Seq, Text};
use std::alloc::Global;
use verdict_report::{NamedPlan, Report};

/// The reference of the resource at a place of a compiled catalog, by the type and the title that its text tells, as it is written in
/// Puppet.
fn quoted_as_told(alloc: Global, compiled: &CompiledCatalog, place: usize) -> Result<Text, NoMemory>
    ensures { IfOk result (λ text. text ≡ quoted_as_told (slice_get compiled.now.resources place)) }
{
    match compiled.resources().get(place) {
        Some(r) => quoted_ref(alloc, &r.id),
        None => Ok(Text::new(alloc)),
    }
}

/// The reference of the resource at a place, as it is written in Puppet.
fn quoted_at(
    alloc: Global,
    source: &Option<CompiledCatalog>,
    catalog: &Catalog,
    place: u32,
) -> Result<Text, NoMemory>
    requires { place < length catalog.now.resources }
    ensures { IfOk result (λ text. text ≡ quoted_at source.now catalog.now place) }
{
    match source {
        None => quoted_ref(alloc, &catalog.get(place).id),
        Some(compiled) => quoted_as_told(alloc, compiled, place as usize),
    }
}

/// The references of plain resources, as they are written in Puppet.
fn quoted_names_in(
    alloc: Global,
    source: &Option<CompiledCatalog>,
    catalog: &Catalog,
    plain: &[u32],
) -> Result<Seq<Text>, NoMemory>
    requires { AllByRecursion (λ k. k < length catalog.now.resources) plain.now }
    ensures { IfOk result (λ names. names ≡ quoted_names_in source.now catalog.now plain.now) }
{
    let mut names = Seq::new(alloc);
    for place in plain {
        names.push(quoted_at(alloc, source, catalog, *place)?)?;
    }
    Ok(names)
}

/// The references of the resources that are asked about, as they are written in Puppet.
fn quoted_names_of(alloc: Global, made: &Modelled) -> Result<Seq<Text>, NoMemory>
    requires { IsInOrder made.now.catalog made.now.graph (map program_of made.now.programs) }
    ensures names { IfOk result (λ names. names ≡ quoted_names_in made.now.source made.now.catalog made.now.graph.plain) }
    ensures count { IfOk result (λ names. length names ≡ made.now.graph.order.count) }
{
    let plain = made.graph.plain.as_slice();
    let names = quoted_names_in(alloc, &made.source, &made.catalog, plain)?;
    Ok(names)
}

/// What is told of the arrows that resources lack.
pub fn repaired(alloc: Global, asked: &Asked, made: &Modelled) -> Result<Report, Fault>
    requires { IsInOrder made.now.catalog made.now.graph (map program_of made.now.programs) }
    ensures told { IfOk result
        (IsRepairTold asked.now.terms asked.now.notes (quoted_names_in made.now.source made.now.catalog made.now.graph.plain)
        (map program_of made.now.programs) made.now.graph.order) }
    ensures refused { IfErr result
        (λ e. IfRefused e (IsTooLargeWith asked.now.terms.limits asked.now.terms.given (map program_of made.now.programs))) }
{
    let names = quoted_names_of(alloc, made)?;
    let plan = Plan {
        programs: made.programs.as_slice(),
        order: &made.graph.order,
    };
    let named = NamedPlan {
        plan: &plan,
        names: names.as_slice(),
        notes: asked.notes.as_str().as_bytes(),
    };
    told(alloc, &asked.terms, &named)
}
