//! Resources from small texts, and what is answered to them.
//!
//! A draft is a type and a title, and then objects of JSON with its attributes, with `|` between. The attributes of a later
//! object stand behind those of an earlier one. The place of the first draft is 7, that of a second one 8.

use catalog::{Catalog, filled};
use catalog_semantics::{Resource, Sort};
use fs_lang::Program;
use host_limits::Limits;
use pkg_listing::{Listing, listing_from_json};
use pp_eval::facts_from_json;
use pp_value::{Pairs, Ref, Value};
use res_models::{program_of, programs_of};
use rh_base::{Fault, NoMemory};
use std::alloc::Global;
use std::test::Fail;
use test_rows::{joined, refused, same, text};
use tree_text::program_text;

/// No packages.
pub const NONE: &str = r#"{"version":1,"packages":{}}"#;

/// A package of nothing.
const ONE: &str = r#"{"version":1,"packages":{"a":{"files":[],"folders":[]}}}"#;

fn object(alloc: Global, json: &str) -> Result<Pairs, Fail> {
    match facts_from_json(alloc, json.as_bytes()) {
        Ok(Value::Map(pairs)) => Ok(pairs),
        Ok(_) | Err(_) => Err(Fail::from("no object")),
    }
}

fn with_pairs(alloc: Global, attrs: &Pairs, more: &Pairs) -> Result<Pairs, Fail> {
    Ok(filled(alloc, attrs, more)?)
}

/// Some attributes with those of one more object behind them.
fn with_object(alloc: Global, attrs: &Pairs, json: &str) -> Result<Pairs, Fail> {
    let more = object(alloc, json)?;
    with_pairs(alloc, attrs, &more)
}

/// The attributes of objects with `|` between.
fn attributes(alloc: Global, text: &str) -> Result<Pairs, Fail> {
    let mut attrs = Pairs::new(alloc);
    for part in text.split('|') {
        attrs = with_object(alloc, &attrs, part)?;
    }
    Ok(attrs)
}

fn reference(alloc: Global, kind: &str, title: &str) -> Result<Ref, NoMemory> {
    let kind = text(alloc, kind)?;
    let title = text(alloc, title)?;
    Ok(Ref { kind, title })
}

fn resource(
    alloc: Global,
    at: u32,
    kind: &str,
    title: &str,
    attrs: &str,
) -> Result<Resource, Fail> {
    let id = reference(alloc, kind, title)?;
    let attrs = attributes(alloc, attrs)?;
    Ok(Resource {
        id,
        sort: Sort::Plain,
        is_virtual: false,
        at,
        holder: None,
        attrs,
    })
}

fn draft(alloc: Global, at: u32, text: &str) -> Result<Resource, Fail> {
    let Some((kind, rest)) = text.split_once('|') else {
        return Err(Fail::from("a draft has a type"));
    };
    let Some((title, attrs)) = rest.split_once('|') else {
        return Err(Fail::from("a draft has a title"));
    };
    resource(alloc, at, kind, title, attrs)
}

fn printed(alloc: Global, program: &Program) -> Result<Vec<u8>, Fail> {
    let mut bytes = Vec::new(alloc);
    program_text(alloc, program, &mut bytes)?;
    Ok(bytes)
}

fn refusal(alloc: Global, fault: &Fault) -> Result<Vec<u8>, Fail> {
    Ok(refused(alloc, fault)?.into_bytes())
}

/// The program of a resource as it is printed, or its refusal.
fn told(alloc: Global, r: &Resource, packages: &Listing) -> Result<Vec<u8>, Fail> {
    match program_of(alloc, r, packages) {
        Ok(program) => printed(alloc, &program),
        Err(fault) => refusal(alloc, &fault),
    }
}

fn told_of(alloc: Global, packages: &Listing, text: &str) -> Result<Vec<u8>, Fail> {
    let r = draft(alloc, 7, text)?;
    told(alloc, &r, packages)
}

/// The program of a draft as it is printed, or its refusal.
pub fn answer(alloc: Global, packages: &str, text: &str) -> Result<Vec<u8>, Fail> {
    let packages = listing_from_json(alloc, packages.as_bytes())?;
    told_of(alloc, &packages, text)
}

pub fn text_of(bytes: &[u8]) -> &str {
    str::from_utf8(bytes).unwrap_or("no text")
}

/// A draft has this program, or this refusal.
pub fn is_answered(alloc: Global, packages: &str, text: &str, want: &str) -> Result<(), Fail> {
    let found = answer(alloc, packages, text)?;
    same(alloc, text, text_of(found.as_slice()), want)
}

/// Each row: a draft, and its program, or its refusal.
pub fn are_answered(alloc: Global, packages: &str, rows: &[(&str, &str)]) -> Result<(), Fail> {
    for (text, want) in rows {
        is_answered(alloc, packages, *text, *want)?;
    }
    Ok(())
}

fn add(alloc: Global, catalog: &mut Catalog, at: u32, text: &str) -> Result<(), Fail> {
    catalog.add(draft(alloc, at, text)?, Limits::Usual)?;
    Ok(())
}

fn add_both(alloc: Global, catalog: &mut Catalog, first: &str, second: &str) -> Result<(), Fail> {
    add(alloc, catalog, 7, first)?;
    add(alloc, catalog, 8, second)
}

fn number_text(alloc: Global, n: usize) -> Result<String, Fail> {
    Ok(format!(in alloc; "{n} programs")?)
}

fn refusal_text(alloc: Global, fault: &Fault) -> Result<String, Fail> {
    Ok(refused(alloc, fault)?)
}

/// How many programs the first two resources have, or the first refusal.
fn counted(alloc: Global, catalog: &Catalog, packages: &Listing) -> Result<String, Fail> {
    if catalog.count() < 2 {
        return Err(Fail::from("two resources"));
    }
    match programs_of(alloc, catalog, &[0, 1], packages, &[]) {
        Ok(programs) => number_text(alloc, programs.len()),
        Err(fault) => refusal_text(alloc, &fault),
    }
}

fn counted_of(alloc: Global, catalog: &Catalog) -> Result<String, Fail> {
    let packages = listing_from_json(alloc, ONE.as_bytes())?;
    counted(alloc, catalog, &packages)
}

/// How many programs two drafts have, or the first refusal.
fn both(alloc: Global, first: &str, second: &str) -> Result<String, Fail> {
    let mut catalog = Catalog::new(alloc);
    add_both(alloc, &mut catalog, first, second)?;
    counted_of(alloc, &catalog)
}

/// Two drafts have this answer.
pub fn is_both(alloc: Global, first: &str, second: &str, want: &str) -> Result<(), Fail> {
    let found = both(alloc, first, second)?;
    let row = joined(alloc, &[first, " and ", second])?;
    same(alloc, row.as_str(), found.as_str(), want)
}
