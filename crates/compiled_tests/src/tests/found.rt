//! References and containers that are found.

use super::answers::add_all;
use compiled_text::{CompiledCatalog, compiled_from_json, reference_of};
use rh_base::NoMemory;
use std::alloc::Global;
use std::test::Fail;
use test_hosts::catalog_of;
use test_rows::same;

/// A class in a stage, a file in the class, and one in nothing.
fn catalog(alloc: Global) -> Result<CompiledCatalog, Fail> {
    let text = catalog_of(
        alloc,
        r#"{"type":"Stage","title":"main","kind":"compilable_type"},{"type":"Class","title":"A","kind":"unknown"},{"type":"File","title":"/f","kind":"compilable_type"},{"type":"File","title":"/g","kind":"compilable_type"}"#,
        r#"{"source":"Stage[main]","target":"Class[A]"},{"source":"Class[A]","target":"File[/f]"}"#,
    )?;
    Ok(compiled_from_json(alloc, text.as_bytes())?)
}

/// The place of a resource, or a dash.
fn place(found: Option<usize>) -> &'static str {
    match found {
        Some(0) => "0",
        Some(1) => "1",
        Some(2) => "2",
        Some(3) => "3",
        Some(_) => "another",
        None => "-",
    }
}

/// The place of the resource that a reference names, if the text is one.
fn find(alloc: Global, compiled: &CompiledCatalog, text: &str) -> &'static str {
    match reference_of(alloc, text) {
        Ok(reference) => place(compiled.find(&reference)),
        Err(_) => "no reference",
    }
}

/// Each row: a reference, and the place that it names, a dash for none, and what is no reference.
fn are_found(alloc: Global, compiled: &CompiledCatalog, rows: &[(&str, &str)]) -> Result<(), Fail> {
    for (text, want) in rows {
        same(alloc, *text, find(alloc, compiled, *text), *want)?;
    }
    Ok(())
}

#[test]
fn references_are_found(rt: HostRuntime) -> Result<(), Fail> {
    let compiled = catalog(rt.alloc())?;
    are_found(
        rt.alloc(),
        &compiled,
        &[
            ("Stage[main]", "0"),
            ("class[::a]", "1"),
            ("Class[A]", "1"),
            ("File[/f]", "2"),
            ("FILE[/g]", "3"),
            ("File[/F]", "-"),
            ("Stage[Main]", "-"),
            ("File[]", "no reference"),
            ("file", "no reference"),
        ],
    )
}

/// Adds the container of each resource, or a dash.
fn add_holders(compiled: &CompiledCatalog, line: &mut String) -> Result<(), NoMemory> {
    for i in 0..compiled.resources().len() {
        add_all(&[place(compiled.holder(i)), " "], line)?;
    }
    Ok(())
}

fn holders(alloc: Global, compiled: &CompiledCatalog) -> Result<String, NoMemory> {
    let mut line = String::new(alloc);
    add_holders(compiled, &mut line)?;
    Ok(line)
}

fn have_holders(alloc: Global, compiled: &CompiledCatalog, want: &str) -> Result<(), Fail> {
    let line = holders(alloc, compiled)?;
    same(alloc, "containers", line.as_str(), want)
}

#[test]
fn containers_are_found(rt: HostRuntime) -> Result<(), Fail> {
    let compiled = catalog(rt.alloc())?;
    have_holders(rt.alloc(), &compiled, "- - 1 - ")
}
