//! Reading the text of a compiled catalog.

ghost use Rattle.std.specs.Prelude.{◌≡◌, IfOk, IfErr, option_map, codes};
ghost use Rattle.std.specs.List.{AllByRecursion};
ghost use Rattle.serde_json.specs.View.{view, items_view};
ghost use Rattle.rh_base.specs.Reading.{Gives};
ghost use Rattle.rh_base.specs.Refused.{IfRefused, IsRefusal};
ghost use Rattle.compiled_text.specs.Compiled.{Compiled, IsProperResource};
ghost use Rattle.compiled_text.specs.Form.{IsCompiledText};
ghost use Rattle.compiled_text.specs.Reading.{has_format, items_at, compiled_behind, compiled_of};

use crate::catalog::{CompiledCatalog, CompiledResource};
use crate::edges::{edges_of, holders_of};
use crate::laws::compiled_texts;
use crate::resources::{are_apart, refs_of, resources_of};
use rh_base::{Fault, Misread, NoMemory, Seq};
use serde_json::{Category, Value as Json};
use std::alloc::Global;

/// Whether the text's form is that of version 2.
fn has_format(json: &Json) -> bool
    ensures { result ≡ has_format (view json.now) }
{
    let Some(format) = json.get("catalog_format") else {
        return false;
    };
    match format.as_u64() {
        Some(n) => n == 2,
        None => false,
    }
}

/// The items of the array at a key of an object.
fn items_at<'j>(json: &'j Json, key: &str) -> Option<&'j [Json]>
    ensures { option_map (λ items. items_view items.now) result ≡ items_at key.now (view json.now) }
{
    match json.get(key) {
        Some(json) => match json.as_array() {
            Some(items) => Some(items.as_slice()),
            None => None,
        },
        None => None,
    }
}

/// The compiled catalog of these resources, if it is one.
fn compiled_behind(
    alloc: Global,
    json: &Json,
    resources: Seq<CompiledResource>,
) -> Result<CompiledCatalog, Misread>
    requires { AllByRecursion IsProperResource resources }
    ensures { Gives (λ c. c) result (compiled_behind (view json.now) resources) }
{
    let refs = refs_of(alloc, resources.as_slice())?;
    if !are_apart(alloc, resources.as_slice())? {
        return Err(Misread::Form);
    }
    let Some(items) = items_at(json, "edges") else {
        return Err(Misread::Form);
    };
    let edges = edges_of(alloc, resources.as_slice(), &refs, items)?;
    let holders = holders_of(alloc, resources.as_slice(), edges.as_slice())?;
    Ok(CompiledCatalog::of(resources, edges, refs, holders))
}

/// What JSON says, if it is a compiled catalog.
fn compiled_of(alloc: Global, json: &Json) -> Result<CompiledCatalog, Misread>
    ensures { Gives (λ c. c) result (compiled_of (view json.now)) }
{
    if !has_format(json) {
        return Err(Misread::Form);
    }
    let Some(items) = items_at(json, "resources") else {
        return Err(Misread::Form);
    };
    let resources = resources_of(alloc, items)?;
    compiled_behind(alloc, json, resources)
}

/// The compiled catalog of a text; any other text is refused.
pub fn compiled_from_json(alloc: Global, bytes: &[u8]) -> Result<CompiledCatalog, Fault>
    ensures found { IfOk result (IsCompiledText bytes.now) }
    // What this text says is what is found.
    ensures only { (c : Compiled) → IsCompiledText bytes.now c → IfOk result (λ d. d ≡ c) }
    ensures refused { IfErr result (λ e. IfRefused e (λ r. IsRefusal 65 0 (codes "compiled") r
        × ((c : Compiled) → IsCompiledText bytes.now c → ⊥))) }
{
    compiled_texts();
    let json = match Json::from_slice(alloc, bytes) {
        Ok(json) => json,
        Err(e) => {
            if e.classify() == Category::Memory {
                return Err(Fault::Memory(NoMemory));
            }
            return Err(Fault::refused(alloc, 65, 0, "compiled"));
        }
    };
    match compiled_of(alloc, &json) {
        Ok(compiled) => Ok(compiled),
        Err(Misread::Form) => Err(Fault::refused(alloc, 65, 0, "compiled")),
        Err(Misread::Memory(m)) => Err(Fault::Memory(m)),
    }
}
