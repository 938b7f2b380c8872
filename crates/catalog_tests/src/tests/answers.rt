//! What is answered to a manifest, as the rows have it.
ghost use Rattle.std.specs.Prelude.{◌<◌, ◌^◌, length};

use super::lines::catalog_line;
use catalog::Catalog;
use catalog_text::catalog_text;
use host_limits::Limits;
use pp_compile::{compile, compile_with};
use pp_data::{Data, data_from_json};
use pp_eval::facts_from_json;
use pp_value::Value;
use rh_base::{Boxed, Fault, NoMemory};
use std::alloc::Global;
use std::test::Fail;
use test_rows::{number_text, refused, same};

fn data_of(alloc: Global, text: &str) -> Result<Data, Fault> {
    if text.is_empty() {
        return Ok(Data::empty(alloc));
    }
    data_from_json(alloc, text.as_bytes())
}

/// Facts in a box: what holds a value takes the prover several times as long.
fn facts_of(alloc: Global, text: &str) -> Result<Boxed<Value>, Fault> {
    Ok(Boxed::new(alloc, facts_from_json(alloc, text.as_bytes())?)?)
}

/// A catalog in one line, or the refusal.
fn told(alloc: Global, compiled: &Result<Catalog, Fault>) -> Result<String, NoMemory> {
    match compiled {
        Ok(catalog) => catalog_line(alloc, catalog),
        Err(fault) => refused(alloc, fault),
    }
}

/// How many resources a catalog has, or the refusal.
fn count_told(alloc: Global, compiled: &Result<Catalog, Fault>) -> Result<String, NoMemory> {
    match compiled {
        Ok(catalog) => number_text(alloc, catalog.count() as u64),
        Err(fault) => refused(alloc, fault),
    }
}

/// The text of a catalog, or the refusal.
fn text_told(alloc: Global, compiled: &Result<Catalog, Fault>) -> Result<String, NoMemory> {
    match compiled {
        Ok(catalog) => Ok(catalog_text(alloc, catalog)?.into_string()),
        Err(fault) => refused(alloc, fault),
    }
}

/// The catalog of a text under facts and class data for a node, or its refusal.
fn compiled_in(
    alloc: Global,
    text: &str,
    facts: &Value,
    node: &str,
    levels: &Data,
) -> Result<String, NoMemory>
    requires { length text.now < 2 ^ 32 }
{
    let compiled = compile_with(alloc, text.as_bytes(), facts, node, levels, Limits::Usual);
    let compiled = Boxed::new(alloc, compiled)?;
    told(alloc, compiled.get())
}

/// The same, of a text of facts.
fn compiled_by(
    alloc: Global,
    text: &str,
    facts: &str,
    node: &str,
    levels: &Data,
) -> Result<String, Fault>
    requires { length text.now < 2 ^ 32 }
{
    let facts = facts_of(alloc, facts)?;
    Ok(compiled_in(alloc, text, facts.get(), node, levels)?)
}

/// The same, of a text of class data; an empty one has no levels.
pub fn compiled_under(
    alloc: Global,
    text: &str,
    facts: &str,
    node: &str,
    levels: &str,
) -> Result<String, Fail> {
    if text.len() > 100_000 {
        return Err(Fail::from("a long text"));
    }
    let levels = data_of(alloc, levels)?;
    Ok(compiled_by(alloc, text, facts, node, &levels)?)
}

/// The catalog of a text with no facts and no class data, or its refusal.
pub fn compiled(alloc: Global, text: &str) -> Result<String, Fail> {
    compiled_under(alloc, text, "{}", "", "")
}

fn counted_in(
    alloc: Global,
    text: &str,
    facts: &Value,
    levels: &Data,
    limits: Limits,
) -> Result<String, NoMemory>
    requires { length text.now < 2 ^ 32 }
{
    let compiled = compile_with(alloc, text.as_bytes(), facts, "", levels, limits);
    let compiled = Boxed::new(alloc, compiled)?;
    count_told(alloc, compiled.get())
}

fn counted_under(
    alloc: Global,
    text: &str,
    facts: &Value,
    limits: Limits,
) -> Result<String, NoMemory>
    requires { length text.now < 2 ^ 32 }
{
    let levels = Data::empty(alloc);
    counted_in(alloc, text, facts, &levels, limits)
}

/// How many resources the catalog of a text has within limits, with no facts and no class data, or its refusal.
pub fn counted(alloc: Global, text: &str, limits: Limits) -> Result<String, Fail> {
    if text.len() > 200_000 {
        return Err(Fail::from("a long text"));
    }
    let facts = facts_of(alloc, "{}")?;
    Ok(counted_under(alloc, text, facts.get(), limits)?)
}

fn text_under(alloc: Global, text: &str, facts: &Value) -> Result<String, NoMemory>
    requires { length text.now < 2 ^ 32 }
{
    let compiled = Boxed::new(alloc, compile(alloc, text.as_bytes(), facts, ""))?;
    text_told(alloc, compiled.get())
}

/// The text of the catalog of a manifest with no facts and no class data, or its refusal.
pub fn text_of(alloc: Global, text: &str) -> Result<String, Fail> {
    if text.len() > 100_000 {
        return Err(Fail::from("a long text"));
    }
    let facts = facts_of(alloc, "{}")?;
    Ok(text_under(alloc, text, facts.get())?)
}

fn is_compiled_with(alloc: Global, facts: &str, text: &str, want: &str) -> Result<(), Fail> {
    let line = compiled_under(alloc, text, facts, "", "")?;
    same(alloc, text, line.as_str(), want)
}

/// Each row: a text, and the catalog that it has under these facts, or the refusal.
pub fn are_compiled_with(alloc: Global, facts: &str, rows: &[(&str, &str)]) -> Result<(), Fail> {
    for (text, want) in rows {
        is_compiled_with(alloc, facts, *text, *want)?;
    }
    Ok(())
}

/// Each row: a text, and the catalog that it has without facts, or the refusal.
pub fn are_compiled(alloc: Global, rows: &[(&str, &str)]) -> Result<(), Fail> {
    are_compiled_with(alloc, "{}", rows)
}
