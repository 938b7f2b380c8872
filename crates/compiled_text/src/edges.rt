//! What contains what in a compiled catalog, from JSON.

ghost use Rattle.std.specs.Prelude.{◌≡◌, ◌≢◌, ℕ, ◌<◌, [], ◌||◌, not, true, false, None, Some, length, slice_get, slice_set, is_some, if◌then◌else◌, IfOk, IfErr};
ghost use Rattle.std.specs.List.{AllByRecursion};
ghost use Rattle.serde_json.specs.View.{view, items_view};
ghost use Rattle.rh_base.specs.Reading.{Gives};
ghost use Rattle.compiled_text.specs.Compiled.{ids_of, is_class, is_container_at, is_class_at};
ghost use Rattle.json_parts.specs.Forms.{IfForm};
ghost use Rattle.compiled_text.specs.Reading.{place_at, edge_of, edges_of, are_free, AreHolders};

use crate::catalog::{CompiledResource, Containment};
use crate::names::reference_of;
use crate::refs::Refs;
use crate::resources::text_at;
use rh_base::{Misread, NoMemory, Seq};
use serde_json::Value as Json;
use std::alloc::Global;

/// The place that the text at a key of an object names.
fn place_at(alloc: Global, refs: &Refs, json: &Json, key: &str) -> Result<usize, Misread>
    ensures { Gives (λ place. place) result (place_at refs.now key.now (view json.now)) }
{
    let Some(text) = text_at(json, key) else {
        return Err(Misread::Form);
    };
    let reference = reference_of(alloc, text)?;
    refs.find(&reference).ok_or(Misread::Form)
}

/// Whether a container stands at a place.
fn is_container_at(resources: &[CompiledResource], place: usize) -> bool
    ensures { result ≡ is_container_at resources.now place }
{
    match resources.get(place) {
        Some(r) => r.is_container,
        None => false,
    }
}

/// Whether a class stands at a place.
fn is_class_at(resources: &[CompiledResource], place: usize) -> bool
    ensures { result ≡ is_class_at resources.now place }
{
    match resources.get(place) {
        Some(r) => r.id.kind.as_str() == "class",
        None => false,
    }
}

fn edge_of(
    alloc: Global,
    resources: &[CompiledResource],
    refs: &Refs,
    json: &Json,
) -> Result<Containment, Misread>
    requires { refs.now ≡ ids_of resources.now }
    ensures { Gives (λ e. e) result (edge_of resources.now (view json.now)) }
{
    let outer = place_at(alloc, refs, json, "source")?;
    if !is_container_at(resources, outer) {
        return Err(Misread::Form);
    }
    let inner = place_at(alloc, refs, json, "target")?;
    Ok(Containment { outer, inner })
}

/// The edges of all items, among resources of these references.
pub fn edges_of(
    alloc: Global,
    resources: &[CompiledResource],
    refs: &Refs,
    items: &[Json],
) -> Result<Seq<Containment>, Misread>
    requires { refs.now ≡ ids_of resources.now }
    ensures { Gives (λ es. es) result (edges_of resources.now (items_view items.now)) }
{
    let mut edges = Seq::new(alloc);
    for item in items {
        edges.push(edge_of(alloc, resources, refs, item)?)?;
    }
    Ok(edges)
}

/// As many slots in which nothing stands.
fn no_holders(alloc: Global, count: usize) -> Result<Seq<Option<usize>>, NoMemory>
    ensures { IfOk result (λ holders. (place : ℕ) → place < count → slice_get holders place ≡ Some None) }
{
    let mut holders = Seq::new(alloc);
    for _place in 0..count {
        holders.push(None)?;
    }
    Ok(holders)
}

/// Notes the container of what stands at a place, unless that has one.
fn note_holder(holders: &mut Seq<Option<usize>>, e: Containment) -> bool
    requires { e.inner < length holders.old }
    ensures free { (result ≡ true) → slice_get holders.old e.inner ≡ Some None }
    ensures held { (result ≡ false) → slice_get holders.old e.inner ≢ Some None }
    ensures noted { (result ≡ true) → holders.new ≡ slice_set holders.old e.inner (Some e.outer) }
{
    if holders.at(e.inner).is_some() {
        return false;
    }
    holders.set(e.inner, Some(e.outer));
    true
}

/// The container of each resource but the classes, if none has two.
pub fn holders_of(
    alloc: Global,
    resources: &[CompiledResource],
    edges: &[Containment],
) -> Result<Seq<Option<usize>>, Misread>
    requires { AllByRecursion (λ e. e.inner < length resources.now) edges.now }
    ensures free { IfOk result (λ holders. are_free resources.now [] edges.now ≡ true) }
    ensures holders { IfOk result (AreHolders resources.now edges.now) }
    ensures held { IfErr result (λ e. IfForm e (are_free resources.now [] edges.now ≡ false)) }
{
    let mut holders = no_holders(alloc, resources.len())?;
    for e in edges {
        if is_class_at(resources, e.inner) {
            continue;
        }
        if !note_holder(&mut holders, *e) {
            return Err(Misread::Form);
        }
    }
    Ok(holders)
}
