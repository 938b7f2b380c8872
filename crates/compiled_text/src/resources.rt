//! The resources of a compiled catalog, from JSON.

ghost use Rattle.std.specs.Prelude.{◌≡◌, ◌≢◌, [], map, IfOk, option_map};
ghost use Rattle.std.specs.List.{AllByRecursion};
ghost use Rattle.serde_json.specs.View.{view, items_view};
ghost use Rattle.rh_base.specs.Reading.{Gives};
ghost use Rattle.pp_value.specs.Proper.{IsProper};
ghost use Rattle.pp_value.specs.Values.{HasDistinctKeys, value_at};
ghost use Rattle.compiled_text.specs.Compiled.{ids_of, text_or, is_concat_file, counts_as, contains_others, IsProperResource};
ghost use Rattle.compiled_text.specs.Reading.{text_at, id_with, id_of, parameters_in, file_of, file_in, line_of, line_in, resource_of, resources_of, are_new, if_new};

use crate::catalog::CompiledResource;
use crate::names::is_type;
use crate::refs::Refs;
use crate::values::pairs_of;
use json_parts::text_of;
use pp_eval::ref_of;
use pp_value::{Pairs, Ref, Value};
use rh_base::{Misread, NoMemory, Seq, Text};
use serde_json::Value as Json;
use std::alloc::Global;

/// The text at a key of an object.
pub fn text_at<'j>(json: &'j Json, key: &str) -> Option<&'j str>
    ensures { option_map (λ t. t.now) result ≡ text_at key.now (view json.now) }
{
    match json.get(key) {
        Some(json) => json.as_str(),
        None => None,
    }
}

/// The reference of a type and a title, if they are one.
fn id_with(alloc: Global, type_text: &str, title_text: &str) -> Result<Ref, Misread>
    ensures id { Gives (λ r. r) result (id_with type_text.now title_text.now) }
    ensures titled { IfOk result (λ r. r.title ≢ []) }
{
    if !is_type(type_text) {
        return Err(Misread::Form);
    }
    let id = ref_of(alloc, type_text, title_text)?;
    if id.title.is_empty() {
        return Err(Misread::Form);
    }
    Ok(id)
}

/// The reference of a resource.
fn id_of(alloc: Global, json: &Json) -> Result<Ref, Misread>
    ensures id { Gives (λ r. r) result (id_of (view json.now)) }
    ensures titled { IfOk result (λ r. r.title ≢ []) }
{
    let Some(type_text) = text_at(json, "type") else {
        return Err(Misread::Form);
    };
    let Some(title_text) = text_at(json, "title") else {
        return Err(Misread::Form);
    };
    id_with(alloc, type_text, title_text)
}

/// The parameters of an object; none, where it doesn't stand.
fn parameters_in(alloc: Global, json: Option<&Json>) -> Result<Pairs, Misread>
    ensures parameters { Gives (λ p. p) result (parameters_in (option_map (λ d. view d.now) json.entry)) }
    ensures distinct { IfOk result (λ p. HasDistinctKeys p) }
    ensures proper { IfOk result (λ p. AllByRecursion (λ pair. IsProper pair.1) p) }
{
    let Some(json) = json else {
        return Ok(Pairs::new(alloc));
    };
    let Some(members) = json.as_object() else {
        return Err(Misread::Form);
    };
    Ok(pairs_of(alloc, members)?)
}

/// The text that JSON is, or none where it is null.
fn file_of(alloc: Global, json: &Json) -> Result<Option<Text>, Misread>
    ensures { Gives (λ f. f) result (file_of (view json.now)) }
{
    match json {
        Json::Null => Ok(None),
        Json::String(text) => Ok(Some(text_of(alloc, text.as_str())?)),
        Json::Bool(_) | Json::Number(_) | Json::Array(_) | Json::Object(_) => Err(Misread::Form),
    }
}

fn file_in(alloc: Global, json: Option<&Json>) -> Result<Option<Text>, Misread>
    ensures { Gives (λ f. f) result (file_in (option_map (λ d. view d.now) json.entry)) }
{
    match json {
        Some(json) => file_of(alloc, json),
        None => Ok(None),
    }
}

/// The whole number that JSON is, or none where it is null.
fn line_of(json: &Json) -> Result<Option<i64>, Misread>
    ensures { Gives (λ n. n) result (line_of (view json.now)) }
{
    match json {
        Json::Null => Ok(None),
        Json::Number(number) => match number.as_i64() {
            Some(n) => Ok(Some(n)),
            None => Err(Misread::Form),
        },
        Json::Bool(_) | Json::String(_) | Json::Array(_) | Json::Object(_) => Err(Misread::Form),
    }
}

fn line_in(json: Option<&Json>) -> Result<Option<i64>, Misread>
    ensures { Gives (λ n. n) result (line_in (option_map (λ d. view d.now) json.entry)) }
{
    match json {
        Some(json) => line_of(json),
        None => Ok(None),
    }
}

/// Whether a resource of this type, of which the text tells this kind, contains others.
fn contains_others(type_name: &str, kind: &str) -> bool
    ensures { result ≡ contains_others type_name.now kind.now }
{
    let is_native = kind == "compilable_type";
    let is_stage = type_name == "stage";
    let is_class = type_name == "class";
    !is_native || (is_stage || is_class)
}

fn resource_of(alloc: Global, json: &Json) -> Result<CompiledResource, Misread>
    ensures resource { Gives (λ r. r) result (resource_of (view json.now)) }
    ensures proper { IfOk result IsProperResource }
{
    let Some(kind) = text_at(json, "kind") else {
        return Err(Misread::Form);
    };
    let line = line_in(json.get("line"))?;
    let id = id_of(alloc, json)?;
    let is_container = contains_others(id.kind.as_str(), kind);
    let parameters = parameters_in(alloc, json.get("parameters"))?;
    let file = file_in(alloc, json.get("file"))?;
    Ok(CompiledResource {
        id,
        is_container,
        parameters,
        file,
        line,
    })
}

/// The resources of all items.
pub fn resources_of(alloc: Global, items: &[Json]) -> Result<Seq<CompiledResource>, Misread>
    ensures resources { Gives (λ rs. rs) result (resources_of (items_view items.now)) }
    ensures proper { IfOk result (AllByRecursion IsProperResource) }
{
    let mut resources = Seq::new(alloc);
    for item in items {
        resources.push(resource_of(alloc, item)?)?;
    }
    Ok(resources)
}

/// A value that is a text, or else this one.
pub fn text_or<'r>(other: &'r str, value: Option<&'r Value>) -> &'r str
    ensures { result.now ≡ text_or other.now (option_map (λ x. x.now) value.entry) }
{
    match value {
        Some(Value::Str(text)) => text.as_str(),
        _ => other,
    }
}

/// Whether a resource is a file that is put together of fragments.
pub fn is_concat_file(r: &CompiledResource) -> bool
    ensures { result ≡ is_concat_file r.now }
{
    let is_named_so = r.id.kind.as_str() == "concat_file";
    is_named_so && !r.is_container
}

/// The reference as which a resource counts: that of the file which it puts together of fragments, or else its own.
pub fn counts_as(alloc: Global, r: &CompiledResource) -> Result<Ref, NoMemory>
    ensures { IfOk result (λ id. id ≡ counts_as r.now) }
{
    if !is_concat_file(r) {
        return r.id.copy(alloc);
    }
    let title = text_or(r.id.title.as_str(), r.parameters.find("path"));
    let kind = text_of(alloc, "file")?;
    let title = text_of(alloc, title)?;
    Ok(Ref { kind, title })
}

/// The references of resources, if they differ.
pub fn refs_of(alloc: Global, resources: &[CompiledResource]) -> Result<Refs, Misread>
    ensures { Gives (λ refs. refs) result (if_new (ids_of resources.now)) }
{
    let mut refs = Refs::new(alloc);
    for r in resources {
        let id = r.id.copy(alloc)?;
        if !refs.insert(id)? {
            return Err(Misread::Form);
        }
    }
    Ok(refs)
}

/// Whether no two resources count as one.
pub fn are_apart(alloc: Global, resources: &[CompiledResource]) -> Result<bool, NoMemory>
    ensures { IfOk result (λ b. b ≡ are_new [] (map counts_as resources.now)) }
{
    let mut refs = Refs::new(alloc);
    for r in resources {
        let id = counts_as(alloc, r)?;
        if !refs.insert(id)? {
            return Ok(false);
        }
    }
    Ok(true)
}
