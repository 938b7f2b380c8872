//! Catalogs from small texts, and what is answered to them.
//!
//! Lines with `;` between them, each of words with blanks between. `plain`, `virtual`, `defined` or `class` begins a
//! resource: its reference, and then attributes `name=value`, of which `in` names the holder. `arrow` begins a relation
//! between two lists of references, and `contain` puts a class into a container. In a value commas stand between the
//! members of a list, and a number has `#` in front. The place of a line is its number.

use catalog::Catalog;
use catalog_semantics::{Relation, Resource, Sort};
use dep_graph::{graph, graph_text};
use host_limits::Limits;
use pp_value::{Pairs, Ref, Value};
use rh_base::{Fault, NoMemory, Seq, Text};
use std::alloc::Global;
use std::test::Fail;
use test_rows::{refused, same, text};

/// The reference that a word spells, as `file[/a]`.
fn reference(alloc: Global, word: &str) -> Result<Option<Ref>, NoMemory> {
    let Some((kind, rest)) = word.split_once('[') else {
        return Ok(None);
    };
    let Some((title, _)) = rest.split_once(']') else {
        return Ok(None);
    };
    let kind = text(alloc, kind)?;
    let title = text(alloc, title)?;
    Ok(Some(Ref { kind, title }))
}

/// A number or a text.
fn plain(alloc: Global, word: &str) -> Result<Value, NoMemory> {
    if word.starts_with('#') {
        return Ok(Value::Int(7));
    }
    Ok(Value::Str(text(alloc, word)?))
}

/// A reference, a number or a text.
fn single(alloc: Global, word: &str) -> Result<Value, NoMemory> {
    match reference(alloc, word)? {
        Some(r) => Ok(Value::Refer(r)),
        None => plain(alloc, word),
    }
}

fn push_member(alloc: Global, part: &str, found: &mut Seq<Value>) -> Result<(), NoMemory> {
    found.push(single(alloc, part)?)
}

/// The members between commas.
fn members(alloc: Global, word: &str) -> Result<Seq<Value>, NoMemory> {
    let mut found = Seq::new(alloc);
    for part in word.split(',') {
        push_member(alloc, part, &mut found)?;
    }
    Ok(found)
}

fn value(alloc: Global, word: &str) -> Result<Value, NoMemory> {
    if word.contains(',') {
        Value::list(alloc, members(alloc, word)?)
    } else {
        single(alloc, word)
    }
}

fn push_reference(alloc: Global, part: &str, refs: &mut Seq<Ref>) -> Result<(), NoMemory> {
    match reference(alloc, part)? {
        Some(r) => refs.push(r),
        None => Ok(()),
    }
}

/// The references between commas.
fn references(alloc: Global, word: &str) -> Result<Seq<Ref>, NoMemory> {
    let mut refs = Seq::new(alloc);
    for part in word.split(',') {
        push_reference(alloc, part, &mut refs)?;
    }
    Ok(refs)
}

/// Where the resource stands that a word names.
fn place(alloc: Global, catalog: &Catalog, word: &str) -> Result<Option<u32>, NoMemory> {
    match reference(alloc, word)? {
        Some(r) => Ok(catalog.find(&r)),
        None => Ok(None),
    }
}

fn put_attribute(
    alloc: Global,
    pairs: &mut Pairs,
    name: &str,
    given: &str,
) -> Result<(), NoMemory> {
    pairs.put(text(alloc, name)?, value(alloc, given)?)
}

/// Puts the attribute of a word; `in` is none.
fn put_word(alloc: Global, pairs: &mut Pairs, word: &str) -> Result<(), NoMemory> {
    let (name, given) = word.split_once('=').unwrap_or(("in", ""));
    if name == "in" {
        return Ok(());
    }
    put_attribute(alloc, pairs, name, given)
}

/// The attributes among some words.
fn attributes(alloc: Global, words: &str) -> Result<Pairs, NoMemory> {
    let mut pairs = Pairs::new(alloc);
    for word in words.split(' ') {
        put_word(alloc, &mut pairs, word)?;
    }
    Ok(pairs)
}

/// The holder that `in` names among some words.
fn holder(alloc: Global, catalog: &Catalog, words: &str) -> Result<Option<u32>, NoMemory> {
    for word in words.split(' ') {
        if let Some(("in", outer)) = word.split_once('=') {
            return place(alloc, catalog, outer);
        }
    }
    Ok(None)
}

fn sort_of(kind: &str) -> Sort {
    match kind {
        "defined" => Sort::Defined,
        "class" => Sort::Class,
        _ => Sort::Plain,
    }
}

/// The resource of a reference, with the attributes among some words.
fn resource(
    alloc: Global,
    kind: &str,
    at: u32,
    id: Ref,
    holder: Option<u32>,
    words: &str,
) -> Result<Resource, NoMemory> {
    Ok(Resource {
        id,
        sort: sort_of(kind),
        is_virtual: kind == "virtual",
        at,
        holder,
        attrs: attributes(alloc, words)?,
    })
}

/// Adds a resource of some words: its reference, and then its attributes.
fn add_resource(
    alloc: Global,
    catalog: &mut Catalog,
    kind: &str,
    at: u32,
    id: Ref,
    words: &str,
) -> Result<(), Fault> {
    let holder = holder(alloc, catalog, words)?;
    let resource = resource(alloc, kind, at, id, holder, words)?;
    catalog.add(resource, Limits::Usual)?;
    Ok(())
}

/// The relation of references to those between commas.
fn relation(alloc: Global, at: u32, from: Seq<Ref>, to: &str) -> Result<Relation, NoMemory> {
    let to = references(alloc, to)?;
    Ok(Relation { from, to, at })
}

fn relate(
    alloc: Global,
    catalog: &mut Catalog,
    at: u32,
    from: &str,
    to: &str,
) -> Result<(), NoMemory> {
    let from = references(alloc, from)?;
    catalog.relate(relation(alloc, at, from, to)?)
}

fn contain(alloc: Global, catalog: &mut Catalog, outer: &str, class: &str) -> Result<(), NoMemory> {
    let outer = place(alloc, catalog, outer)?;
    let class = place(alloc, catalog, class)?;
    match (outer, class) {
        (Some(outer), Some(class)) => catalog.hold(outer, class),
        _ => Ok(()),
    }
}

fn add_line(alloc: Global, catalog: &mut Catalog, at: u32, line: &str) -> Result<(), Fault> {
    let (kind, rest) = line.split_once(' ').unwrap_or((line, ""));
    let (first, second) = rest.split_once(' ').unwrap_or((rest, ""));
    match kind {
        "arrow" => return Ok(relate(alloc, catalog, at, first, second)?),
        "contain" => return Ok(contain(alloc, catalog, first, second)?),
        _ => (),
    }
    match reference(alloc, first)? {
        Some(id) => add_resource(alloc, catalog, kind, at, id, second),
        None => Ok(()),
    }
}

/// The catalog that a text spells.
fn catalog_of(alloc: Global, text: &str) -> Result<Catalog, Fault> {
    let mut catalog = Catalog::new(alloc);
    let mut at = 0u32;
    for line in text.split(';') {
        add_line(alloc, &mut catalog, at, line.trim_start())?;
        at = at.saturating_add(1);
    }
    Ok(catalog)
}

fn graph_in(alloc: Global, catalog: &Catalog) -> Result<Text, Fault> {
    let found = graph(alloc, catalog)?;
    Ok(graph_text(alloc, catalog, &found)?)
}

fn graph_of(alloc: Global, text: &str) -> Result<Text, Fault> {
    let catalog = catalog_of(alloc, text)?;
    graph_in(alloc, &catalog)
}

/// The text of the graph of a catalog, or the refusal as `40 at 1: File[/z]`.
fn answer(alloc: Global, text: &str) -> Result<String, Fail> {
    match graph_of(alloc, text) {
        Ok(lines) => Ok(lines.into_string()),
        Err(fault) => Ok(refused(alloc, &fault)?),
    }
}

/// A text has this graph, or this refusal.
fn is_answered(alloc: Global, text: &str, want: &str) -> Result<(), Fail> {
    let found = answer(alloc, text)?;
    same(alloc, text, found.as_str(), want)
}

/// Each text has the graph beside it, or the refusal.
pub fn are_answered(alloc: Global, rows: &[(&str, &str)]) -> Result<(), Fail> {
    for (text, want) in rows {
        is_answered(alloc, *text, *want)?;
    }
    Ok(())
}
