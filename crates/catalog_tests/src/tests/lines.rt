//! A catalog in one line.
ghost use Rattle.std.specs.Prelude.{◌<◌, length};

use catalog::Catalog;
use catalog_semantics::{Relation, Resource};
use pp_value::{Ref, Value, show, shown_ref};
use rh_base::{NoMemory, Text};
use std::alloc::Global;
use test_rows::joined;

fn value_text(alloc: Global, value: &Value) -> Result<String, NoMemory> {
    match show(alloc, value) {
        Ok(text) => Ok(text.into_string()),
        Err(_) => joined(alloc, &["?"]),
    }
}

fn attribute_text(alloc: Global, name: &Text, value: &Value) -> Result<String, NoMemory> {
    let value = value_text(alloc, value)?;
    joined(alloc, &[" ", name.as_str(), "=", value.as_str()])
}

fn push_attribute(
    alloc: Global,
    name: &Text,
    value: &Value,
    into: &mut String,
) -> Result<(), NoMemory> {
    let text = attribute_text(alloc, name, value)?;
    into.push_str(text.as_str())?;
    Ok(())
}

fn push_attributes(alloc: Global, r: &Resource, into: &mut String) -> Result<(), NoMemory> {
    for pair in r.attrs.as_slice() {
        push_attribute(alloc, &pair.0, &pair.1, into)?;
    }
    Ok(())
}

fn push_shown(alloc: Global, r: &Ref, into: &mut String) -> Result<(), NoMemory> {
    let text = shown_ref(alloc, r)?;
    into.push_str(text.as_str())?;
    Ok(())
}

fn mark_of(r: &Resource) -> &'static str {
    if r.is_virtual { "@" } else { "" }
}

fn push_resource(alloc: Global, r: &Resource, into: &mut String) -> Result<(), NoMemory> {
    into.push_str(mark_of(r))?;
    push_shown(alloc, &r.id, into)?;
    push_attributes(alloc, r, into)?;
    into.push_str("; ")?;
    Ok(())
}

fn push_refs(alloc: Global, refs: &[Ref], into: &mut String) -> Result<(), NoMemory> {
    for r in refs {
        push_shown(alloc, r, into)?;
        into.push_str(" ")?;
    }
    Ok(())
}

fn push_relation(alloc: Global, r: &Relation, into: &mut String) -> Result<(), NoMemory> {
    push_refs(alloc, r.from.as_slice(), into)?;
    into.push_str("-> ")?;
    push_refs(alloc, r.to.as_slice(), into)
}

fn push_member(alloc: Global, i: u32, place: u32, into: &mut String) -> Result<(), NoMemory> {
    let part = format!(in alloc; "{i}<{place} ")?;
    into.push_str(part.as_str())?;
    Ok(())
}

fn push_places(alloc: Global, i: u32, places: &[u32], into: &mut String) -> Result<(), NoMemory> {
    for place in places {
        push_member(alloc, i, *place, into)?;
    }
    Ok(())
}

fn push_members(alloc: Global, catalog: &Catalog, i: u32, into: &mut String) -> Result<(), NoMemory>
    requires { i < length catalog.now.resources }
{
    let places = catalog.members(i)?;
    push_places(alloc, i, places.as_slice(), into)
}

fn push_all_members(alloc: Global, catalog: &Catalog, into: &mut String) -> Result<(), NoMemory> {
    for i in 0..catalog.count() {
        push_members(alloc, catalog, i, into)?;
    }
    Ok(())
}

fn push_resources(alloc: Global, catalog: &Catalog, into: &mut String) -> Result<(), NoMemory> {
    for i in 0..catalog.count() {
        push_resource(alloc, catalog.get(i), into)?;
    }
    Ok(())
}

fn push_relations(alloc: Global, catalog: &Catalog, into: &mut String) -> Result<(), NoMemory> {
    for r in catalog.relations().as_slice() {
        push_relation(alloc, r, into)?;
    }
    Ok(())
}

fn push_catalog(alloc: Global, catalog: &Catalog, into: &mut String) -> Result<(), NoMemory> {
    push_resources(alloc, catalog, into)?;
    push_relations(alloc, catalog, into)?;
    push_all_members(alloc, catalog, into)
}

/// The resources in order, virtual ones behind `@`, then the relations, then what is in what.
pub fn catalog_line(alloc: Global, catalog: &Catalog) -> Result<String, NoMemory> {
    let mut into = String::new(alloc);
    push_catalog(alloc, catalog, &mut into)?;
    Ok(into)
}
