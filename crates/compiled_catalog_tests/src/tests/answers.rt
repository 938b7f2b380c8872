//! What is answered of compiled catalogs.

ghost use Rattle.std.specs.Prelude.{◌<◌, length};

use super::texts::compiled;
use catalog::Catalog;
use catalog_semantics::{Relation, Resource, Sort};
use catalog_text::catalog_text;
use compiled_catalog::catalog_of;
use compiled_text::CompiledCatalog;
use host_limits::Limits;
use pp_value::{Ref, shown_ref};
use std::alloc::Global;
use std::test::Fail;
use test_rows::{numbered, refused, same};

fn add_ref(alloc: Global, r: &Ref, line: &mut String) -> Result<(), Fail> {
    let name = shown_ref(alloc, r)?;
    line.push_str(name.as_str())?;
    Ok(())
}

/// A letter for a sort.
fn letter(sort: Sort) -> &'static str {
    match sort {
        Sort::Plain => "p ",
        Sort::Defined => "d ",
        Sort::Class => "c ",
    }
}

/// Adds a place behind a word.
fn add_place(alloc: Global, word: &str, place: u32, line: &mut String) -> Result<(), Fail> {
    let told = numbered(alloc, word, place as u64, "")?;
    line.push_str(told.as_str())?;
    Ok(())
}

/// Adds a letter for the sort, the reference, and the place of the container.
fn add_resource(alloc: Global, r: &Resource, line: &mut String) -> Result<(), Fail> {
    line.push_str(letter(r.sort))?;
    add_ref(alloc, &r.id, line)?;
    match r.holder {
        Some(holder) => add_place(alloc, " in ", holder, line),
        None => Ok(()),
    }
}

/// Adds the places of what is in a container.
fn add_members(alloc: Global, catalog: &Catalog, place: u32, line: &mut String) -> Result<(), Fail>
    requires { place < length catalog.now.resources }
{
    let members = catalog.members(place)?;
    for member in members.as_slice() {
        add_place(alloc, " ", *member, line)?;
    }
    Ok(())
}

/// Adds a line for the resource at a place.
fn add_line(alloc: Global, catalog: &Catalog, place: u32, lines: &mut String) -> Result<(), Fail>
    requires { place < length catalog.now.resources }
{
    add_resource(alloc, catalog.get(place), lines)?;
    add_members(alloc, catalog, place, lines)?;
    lines.push('\n')?;
    Ok(())
}

fn add_refs(alloc: Global, refs: &[Ref], line: &mut String) -> Result<(), Fail> {
    for r in refs {
        add_ref(alloc, r, line)?;
    }
    Ok(())
}

fn add_relation(alloc: Global, q: &Relation, lines: &mut String) -> Result<(), Fail> {
    add_refs(alloc, q.from.as_slice(), lines)?;
    lines.push_str(" -> ")?;
    add_refs(alloc, q.to.as_slice(), lines)?;
    lines.push('\n')?;
    Ok(())
}

fn shown(alloc: Global, catalog: &Catalog) -> Result<String, Fail> {
    let mut lines = String::new(alloc);
    for place in 0..catalog.count() {
        add_line(alloc, catalog, place, &mut lines)?;
    }
    Ok(lines)
}

fn relations(alloc: Global, catalog: &Catalog) -> Result<String, Fail> {
    let mut lines = String::new(alloc);
    for q in catalog.relations().as_slice() {
        add_relation(alloc, q, &mut lines)?;
    }
    Ok(lines)
}

/// What is shown of a catalog.
#[derive(Clone, Copy)]
pub enum Part {
    /// Each resource: its sort, its reference, its container, and what is in it.
    Resources,
    /// The text of native resources with their attributes.
    Text,
    /// What comes before links.
    Relations,
}

fn part_of(alloc: Global, part: Part, catalog: &Catalog) -> Result<String, Fail> {
    match part {
        Part::Resources => shown(alloc, catalog),
        Part::Text => Ok(catalog_text(alloc, catalog)?.into_string()),
        Part::Relations => relations(alloc, catalog),
    }
}

/// A part of the catalog, or the refusal.
fn answer_of(
    alloc: Global,
    part: Part,
    limits: Limits,
    compiled: &CompiledCatalog,
) -> Result<String, Fail> {
    match catalog_of(alloc, compiled, limits) {
        Ok(catalog) => part_of(alloc, part, &catalog),
        Err(fault) => Ok(refused(alloc, &fault)?),
    }
}

/// The same of texts of resources and edges.
fn answer(
    alloc: Global,
    part: Part,
    limits: Limits,
    resources: &str,
    edges: &str,
) -> Result<String, Fail> {
    let compiled = compiled(alloc, resources, edges)?;
    answer_of(alloc, part, limits, &compiled)
}

/// This is answered.
pub fn is_answered(
    alloc: Global,
    part: Part,
    limits: Limits,
    resources: &str,
    edges: &str,
    want: &str,
) -> Result<(), Fail> {
    let told = answer(alloc, part, limits, resources, edges)?;
    same(alloc, resources, told.as_str(), want)
}

/// The same of what comes before links, within the limits of a host.
pub fn is_related(alloc: Global, resources: &str, want: &str) -> Result<(), Fail> {
    is_answered(alloc, Part::Relations, Limits::Host, resources, "", want)
}

/// The same of each row's resources.
pub fn are_related(alloc: Global, rows: &[(&str, &str)]) -> Result<(), Fail> {
    for (resources, want) in rows {
        is_related(alloc, *resources, *want)?;
    }
    Ok(())
}
