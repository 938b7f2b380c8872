//! What is answered to the texts of compiled catalogs.

use compiled_text::{CompiledCatalog, CompiledResource, Containment, compiled_from_json};
use pp_value::{Ref, Value, show, shown_ref};
use rh_base::{NoMemory, Text};
use std::alloc::Global;
use std::test::Fail;
use test_rows::{refused, same};

/// Adds these parts.
pub fn add_all(parts: &[&str], line: &mut String) -> Result<(), NoMemory> {
    for part in parts {
        line.push_str(*part)?;
    }
    Ok(())
}

/// Adds a name and a value.
fn add_pair(name: &str, value: &str, line: &mut String) -> Result<(), NoMemory> {
    add_all(&[" ", name, "=", value], line)
}

/// Adds a parameter and its value. A value with an opaque one in it has no text.
pub fn add_parameter(
    alloc: Global,
    pair: &(Text, Value),
    line: &mut String,
) -> Result<(), NoMemory> {
    match show(alloc, &pair.1) {
        Ok(shown) => add_pair(pair.0.as_str(), shown.as_str(), line),
        Err(_) => add_pair(pair.0.as_str(), "opaque", line),
    }
}

/// Adds a reference.
pub fn add_ref(alloc: Global, r: &Ref, line: &mut String) -> Result<(), NoMemory> {
    let name = shown_ref(alloc, r)?;
    Ok(line.push_str(name.as_str())?)
}

/// Adds the file of a resource that has one.
fn add_file(r: &CompiledResource, line: &mut String) -> Result<(), NoMemory> {
    match &r.file {
        Some(file) => add_all(&[" ", file.as_str()], line),
        None => Ok(()),
    }
}

/// Adds the number of the line of a resource that has one.
fn add_line(alloc: Global, r: &CompiledResource, line: &mut String) -> Result<(), NoMemory> {
    if let Some(n) = r.line {
        let place = format!(in alloc; ":{n}")?;
        line.push_str(place.as_str())?;
    }
    Ok(())
}

/// Adds the reference of a resource, a star if it is a container, and its file and line.
fn add_names(alloc: Global, r: &CompiledResource, line: &mut String) -> Result<(), NoMemory> {
    add_ref(alloc, &r.id, line)?;
    line.push_str(if r.is_container { "*" } else { "" })?;
    add_file(r, line)?;
    add_line(alloc, r, line)
}

fn add_parameters(alloc: Global, r: &CompiledResource, line: &mut String) -> Result<(), NoMemory> {
    for pair in r.parameters.as_slice() {
        add_parameter(alloc, pair, line)?;
    }
    Ok(())
}

/// Adds a line for a resource.
fn add_resource(alloc: Global, r: &CompiledResource, lines: &mut String) -> Result<(), NoMemory> {
    add_names(alloc, r, lines)?;
    add_parameters(alloc, r, lines)?;
    Ok(lines.push('\n')?)
}

/// Adds a line for an edge.
fn add_edge(alloc: Global, e: &Containment, lines: &mut String) -> Result<(), NoMemory> {
    let line = format!(in alloc; "{} > {}\n", e.outer, e.inner)?;
    Ok(lines.push_str(line.as_str())?)
}

fn add_resources(
    alloc: Global,
    compiled: &CompiledCatalog,
    lines: &mut String,
) -> Result<(), NoMemory> {
    for r in compiled.resources() {
        add_resource(alloc, r, lines)?;
    }
    Ok(())
}

fn add_edges(
    alloc: Global,
    compiled: &CompiledCatalog,
    lines: &mut String,
) -> Result<(), NoMemory> {
    for e in compiled.edges() {
        add_edge(alloc, e, lines)?;
    }
    Ok(())
}

/// A line for each resource, and then one for each edge.
fn shown(alloc: Global, compiled: &CompiledCatalog) -> Result<String, NoMemory> {
    let mut lines = String::new(alloc);
    add_resources(alloc, compiled, &mut lines)?;
    add_edges(alloc, compiled, &mut lines)?;
    Ok(lines)
}

/// What a text says, or the refusal.
pub fn answer(alloc: Global, bytes: &[u8]) -> Result<String, NoMemory> {
    match compiled_from_json(alloc, bytes) {
        Ok(compiled) => shown(alloc, &compiled),
        Err(fault) => refused(alloc, &fault),
    }
}

/// A text says this, or has this refusal.
pub fn is_answered(alloc: Global, row: &str, bytes: &[u8], want: &str) -> Result<(), Fail> {
    let told = answer(alloc, bytes)?;
    same(alloc, row, told.as_str(), want)
}
