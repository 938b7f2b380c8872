//! The report on a catalog.

ghost use Rattle.std.specs.Prelude.{◌<◌, ◌^◌, length, IfOk, IfErr};
ghost use Rattle.rh_base.specs.Refused.{IfRefused};
ghost use Rattle.command_line.specs.declared.table.Role.TheVariants as role;
ghost use Rattle.known_inputs.specs.Inputs.{bytes_of, input_of, IsCompiledOf, IsKnown};
ghost use Rattle.reports.specs.Stages.{CatalogRefusal};
ghost use Rattle.reports.specs.Reports.{IsCatalogReport};

use crate::bytes::bytes_of;
use crate::compiling::catalog_for;
use catalog_text::catalog_text;
use compiled_text::CompiledCatalog;
use known_inputs::{Inputs, Known, known_inputs};
use rh_base::{Fault, Seq};
use std::alloc::Global;

/// The resources of a compiled catalog, or else of the manifest, under what the files beside it say.
fn catalog_lines(
    alloc: Global,
    inputs: &Inputs,
    known: &Known,
    source: &Option<CompiledCatalog>,
) -> Result<Seq<u8>, Fault>
    requires small { length (input_of inputs.now) < 2 ^ 32 }
    requires known { IsKnown inputs.now known.now }
    requires source { IsCompiledOf (bytes_of role.Compiled inputs.now) source.now }
    ensures report { IfOk result (IsCatalogReport inputs.now) }
    ensures refused { IfErr result (λ e. IfRefused e (CatalogRefusal inputs.now)) }
{
    let catalog = catalog_for(alloc, inputs, known, source)?;
    let text = catalog_text(alloc, &catalog)?;
    Ok(bytes_of(text))
}

/// The real resources of built-in types that a manifest declares or a compiled catalog has, each with its attributes; or the first refusal.
pub fn catalog_report(alloc: Global, inputs: &Inputs) -> Result<Seq<u8>, Fault>
    requires { length (input_of inputs.now) < 2 ^ 32 }
    ensures report { IfOk result (IsCatalogReport inputs.now) }
    ensures refused { IfErr result (λ e. IfRefused e (CatalogRefusal inputs.now)) }
{
    let (known, source) = known_inputs(alloc, inputs)?;
    catalog_lines(alloc, inputs, &known, &source)
}
