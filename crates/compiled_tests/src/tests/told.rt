//! The attributes of the resources of a compiled catalog, as they are shown.

ghost use Rattle.compiled_attributes.specs.Places.{HoldsFragments};

use super::answers::{add_all, add_parameter, add_ref};
use compiled_attributes::{Fragments, attributes_of, is_noop, why_unfilled};
use compiled_text::{CompiledCatalog, CompiledResource, compiled_from_json};
use std::alloc::Global;
use std::test::Fail;
use test_hosts::catalog_of;
use test_rows::joined;

/// Adds a word for a resource that does nothing, and why a file has no content.
fn add_marks(
    alloc: Global,
    catalog: &CompiledCatalog,
    fragments: &Fragments,
    r: &CompiledResource,
    line: &mut String,
) -> Result<(), Fail>
    requires { HoldsFragments catalog.now.resources fragments.now }
{
    line.push_str(if is_noop(r) { " (noop)" } else { "" })?;
    if let Some(name) = why_unfilled(alloc, catalog, fragments, r)? {
        add_all(&[" (no content: ", name, ")"], line)?;
    }
    Ok(())
}

/// Adds the attributes of a resource.
fn add_attributes(
    alloc: Global,
    catalog: &CompiledCatalog,
    fragments: &Fragments,
    r: &CompiledResource,
    line: &mut String,
) -> Result<(), Fail>
    requires { HoldsFragments catalog.now.resources fragments.now }
{
    let attributes = attributes_of(alloc, catalog, fragments, r)?;
    for pair in attributes.as_slice() {
        add_parameter(alloc, pair, line)?;
    }
    Ok(())
}

/// Adds a line for a resource: its reference, and its attributes.
fn add_resource(
    alloc: Global,
    catalog: &CompiledCatalog,
    fragments: &Fragments,
    r: &CompiledResource,
    lines: &mut String,
) -> Result<(), Fail>
    requires { HoldsFragments catalog.now.resources fragments.now }
{
    add_ref(alloc, &r.id, lines)?;
    add_attributes(alloc, catalog, fragments, r, lines)?;
    add_marks(alloc, catalog, fragments, r, lines)?;
    Ok(lines.push('\n')?)
}

fn add_resources(
    alloc: Global,
    catalog: &CompiledCatalog,
    fragments: &Fragments,
    lines: &mut String,
) -> Result<(), Fail>
    requires { HoldsFragments catalog.now.resources fragments.now }
{
    for r in catalog.resources() {
        add_resource(alloc, catalog, fragments, r, lines)?;
    }
    Ok(())
}

/// Adds a line for each resource of a compiled catalog.
fn add_shown(alloc: Global, catalog: &CompiledCatalog, lines: &mut String) -> Result<(), Fail> {
    let fragments = Fragments::of(alloc, catalog)?;
    add_resources(alloc, catalog, &fragments, lines)
}

fn shown(alloc: Global, catalog: &CompiledCatalog) -> Result<String, Fail> {
    let mut lines = String::new(alloc);
    add_shown(alloc, catalog, &mut lines)?;
    Ok(lines)
}

fn shown_of(alloc: Global, text: &str) -> Result<String, Fail> {
    let catalog = compiled_from_json(alloc, text.as_bytes())?;
    shown(alloc, &catalog)
}

/// The lines of these resources.
pub fn told_of(alloc: Global, resources: &str) -> Result<String, Fail> {
    let text = catalog_of(alloc, resources, "")?;
    shown_of(alloc, text.as_str())
}

/// The line of one native resource with these parameters.
pub fn told(alloc: Global, kind: &str, parameters: &str) -> Result<String, Fail> {
    let resource = joined(
        alloc,
        &[
            r#"{"type":""#,
            kind,
            r#"","title":"/t","kind":"compilable_type","parameters":"#,
            parameters,
            "}",
        ],
    )?;
    told_of(alloc, resource.as_str())
}
