//! What a resource may be called by.

ghost use Rattle.std.specs.Prelude.{◌≡◌, ◌++◌, map, option_map, IfOk, OnOk};
ghost use Rattle.std.specs.List.{flat_map};
ghost use Rattle.std.specs.Option.{option_to_list};
ghost use Rattle.pp_eval.specs.Evaluation.{text_of as text_in};
ghost use Rattle.compiled_relations.specs.Finding.{ref_to, names_of, texts_of, aliases_of, text_unless_undef, is_file, path_text_of, paths_of};
ghost use Rattle.compiled_relations.specs.Tables.{calls_by};

use crate::paths::written;
use compiled_text::{CompiledResource, counts_as, is_concat_file, text_or};
use json_parts::text_of;
use pp_value::{Ref, Value};
use rh_base::{NoMemory, Seq};
use std::alloc::Global;

/// The ways in which a resource may be called.
#[derive(Clone, Copy)]
pub enum Way {
    Name,
    Alias,
    Path,
}

/// The reference of a type and a title.
pub fn ref_to(alloc: Global, kind: &str, title: &str) -> Result<Ref, NoMemory>
    ensures { IfOk result (λ r. r ≡ ref_to kind.now title.now) }
{
    let kind = text_of(alloc, kind)?;
    let title = text_of(alloc, title)?;
    Ok(Ref { kind, title })
}

fn names_of(alloc: Global, r: &CompiledResource) -> Result<Seq<Ref>, NoMemory>
    ensures { IfOk result (λ refs. refs ≡ names_of r.now) }
{
    let mut refs = Seq::new(alloc);
    refs.push(r.id.copy(alloc)?)?;
    refs.push(counts_as(alloc, r)?)?;
    Ok(refs)
}

/// Adds the reference of a type and a title, if the value is a text.
fn push_text(alloc: Global, kind: &str, value: &Value, refs: &mut Seq<Ref>) -> Result<(), NoMemory>
    ensures { OnOk result (refs.new ≡ refs.old ++ map (ref_to kind.now) (option_to_list (text_in value.now))) }
{
    match value {
        Value::Str(text) => refs.push(ref_to(alloc, kind, text.as_str())?),
        _ => Ok(()),
    }
}

/// Adds the reference of a type and each title that is a text among some values.
fn push_texts(
    alloc: Global,
    kind: &str,
    values: &[Value],
    refs: &mut Seq<Ref>,
) -> Result<(), NoMemory>
    ensures { OnOk result (refs.new ≡ refs.old ++ map (ref_to kind.now) (flat_map (λ x. option_to_list (text_in x)) values.now)) }
{
    for value in values {
        push_text(alloc, kind, value, refs)?;
    }
    Ok(())
}

fn aliases_of(alloc: Global, r: &CompiledResource) -> Result<Seq<Ref>, NoMemory>
    ensures { IfOk result (λ refs. refs ≡ aliases_of r.now) }
{
    let mut refs = Seq::new(alloc);
    let kind = r.id.kind.as_str();
    match r.parameters.find("alias") {
        Some(Value::List(values)) => push_texts(alloc, kind, values.as_slice(), &mut refs)?,
        Some(value) => push_text(alloc, kind, value, &mut refs)?,
        None => (),
    }
    Ok(refs)
}

/// A text, or this one where nothing is given or undef; another value is none.
fn text_unless_undef<'r>(other: &'r str, value: Option<&'r Value>) -> Option<&'r str>
    ensures { option_map (λ t. t.now) result ≡ text_unless_undef other.now (option_map (λ x. x.now) value.entry) }
{
    match value {
        None => Some(other),
        Some(Value::Undef) => Some(other),
        Some(Value::Str(text)) => Some(text.as_str()),
        Some(_) => None,
    }
}

fn is_file(r: &CompiledResource) -> bool
    ensures { result ≡ is_file r.now }
{
    let is_named_so = r.id.kind.as_str() == "file";
    is_named_so && !r.is_container
}

/// The text of the path of a file.
fn path_text_of(r: &CompiledResource) -> Option<&str>
    ensures { option_map (λ t. t.now) result ≡ path_text_of r.now }
{
    let title = r.id.title.as_str();
    if is_concat_file(r) {
        return Some(text_or(title, r.parameters.find("path")));
    }
    if is_file(r) {
        return text_unless_undef(title, r.parameters.find("path"));
    }
    None
}

fn paths_of(alloc: Global, r: &CompiledResource) -> Result<Seq<Ref>, NoMemory>
    ensures { IfOk result (λ refs. refs ≡ paths_of r.now) }
{
    let mut refs = Seq::new(alloc);
    let Some(text) = path_text_of(r) else {
        return Ok(refs);
    };
    if let Some(path) = written(alloc, text)? {
        refs.push(ref_to(alloc, "file", path.as_str())?)?;
    }
    Ok(refs)
}

/// What a resource may be called by in one way.
pub fn calls_by(alloc: Global, way: Way, r: &CompiledResource) -> Result<Seq<Ref>, NoMemory>
    ensures { IfOk result (λ refs. refs ≡ calls_by way r.now) }
{
    match way {
        Way::Name => names_of(alloc, r),
        Way::Alias => aliases_of(alloc, r),
        Way::Path => paths_of(alloc, r),
    }
}
