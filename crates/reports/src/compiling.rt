//! The catalog that the files of a request give.

ghost use Rattle.std.specs.Prelude.{◌≡◌, ◌<◌, ◌^◌, length, IfOk, IfErr};
ghost use Rattle.rh_base.specs.Refused.{IfRefused};
ghost use Rattle.command_line.specs.declared.table.Role.TheVariants as role;
ghost use Rattle.known_inputs.specs.Inputs.{bytes_of, input_of, IsCompiledOf, IsKnown};
ghost use Rattle.reports.specs.Stages.{node_name, HasCatalog, HasNoCatalog, IsCompiled, CatalogRefusal};

use catalog::Catalog;
use compiled_catalog::catalog_of;
use compiled_text::CompiledCatalog;
use host_limits::Limits;
use known_inputs::{Inputs, Known};
use pp_compile::compile_with;
use rh_base::{Fault, Text};
use std::alloc::Global;

/// The node's name; it is empty where none is given.
pub(crate) fn node_name(node: &Option<Text>) -> &str
    ensures { result.now ≡ node_name node.now }
{
    match node {
        Some(name) => name.as_str(),
        None => "",
    }
}

/// The catalog of a compiled catalog; without one that of the manifest of a text, at a node of a name and under what the files beside it say.
pub(crate) fn catalog_under(
    alloc: Global,
    source: &Option<CompiledCatalog>,
    text: &[u8],
    node: &str,
    limits: Limits,
    known: &Known,
) -> Result<Catalog, Fault>
    requires { length text.now < 2 ^ 32 }
    ensures catalog { IfOk result (HasCatalog text.now node.now limits known.now source.now) }
    ensures refused { IfErr result (λ e. IfRefused e (HasNoCatalog text.now node.now limits known.now source.now)) }
{
    match source {
        None => compile_with(alloc, text, &known.facts, node, &known.class_data, limits),
        Some(compiled) => catalog_of(alloc, compiled, limits),
    }
}

/// The catalog of a compiled catalog, or else of the manifest, under what the files beside it say.
pub fn catalog_for(
    alloc: Global,
    inputs: &Inputs,
    known: &Known,
    source: &Option<CompiledCatalog>,
) -> Result<Catalog, Fault>
    requires small { length (input_of inputs.now) < 2 ^ 32 }
    requires known { IsKnown inputs.now known.now }
    requires source { IsCompiledOf (bytes_of role.Compiled inputs.now) source.now }
    ensures compiled { IfOk result (IsCompiled inputs.now known.now source.now) }
    ensures refused { IfErr result (λ e. IfRefused e (CatalogRefusal inputs.now)) }
{
    let text = inputs.input();
    let node = node_name(&inputs.node);
    catalog_under(alloc, source, text, node, inputs.limits, known)
}
