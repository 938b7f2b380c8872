//! Graphs at the limits.

use catalog::Catalog;
use catalog_semantics::{Relation, Resource, Sort};
use dep_graph::{Graph, graph};
use host_limits::Limits;
use orders::Order;
use pp_value::{Pairs, Ref};
use rh_base::{Fault, NoMemory, Seq, Text};
use std::alloc::Global;
use std::test::Fail;
use test_rows::{numbered, same_at, same_number, text};

fn named(alloc: Global, kind: &str, n: u32) -> Result<Ref, NoMemory> {
    let kind = text(alloc, kind)?;
    let title = Text::from_string(numbered(alloc, "/f", n as u64, "")?);
    Ok(Ref { kind, title })
}

fn resource(alloc: Global, kind: &str, sort: Sort, n: u32) -> Result<Resource, NoMemory> {
    Ok(Resource {
        id: named(alloc, kind, n)?,
        sort,
        is_virtual: false,
        at: n,
        holder: n.checked_sub(1),
        attrs: Pairs::new(alloc),
    })
}

fn add(alloc: Global, catalog: &mut Catalog, kind: &str, sort: Sort, n: u32) -> Result<(), Fault> {
    let resource = resource(alloc, kind, sort, n)?;
    catalog.add(resource, Limits::Usual)?;
    Ok(())
}

fn push_named(alloc: Global, kind: &str, n: u32, refs: &mut Seq<Ref>) -> Result<(), NoMemory> {
    refs.push(named(alloc, kind, n)?)
}

fn all(alloc: Global, kind: &str, from: u32, to: u32) -> Result<Seq<Ref>, NoMemory> {
    let mut refs = Seq::new(alloc);
    for n in from..to {
        push_named(alloc, kind, n, &mut refs)?;
    }
    Ok(refs)
}

fn add_all(
    alloc: Global,
    catalog: &mut Catalog,
    kind: &str,
    sort: Sort,
    from: u32,
    to: u32,
) -> Result<(), Fault> {
    for n in from..to {
        add(alloc, catalog, kind, sort, n)?;
    }
    Ok(())
}

/// The relation of references to the files of the last half.
fn relation(alloc: Global, from: Seq<Ref>) -> Result<Relation, NoMemory> {
    let to = all(alloc, "file", 3_968, 4_096)?;
    Ok(Relation { from, to, at: 0 })
}

fn relate_all(alloc: Global, catalog: &mut Catalog) -> Result<(), NoMemory> {
    let from = all(alloc, "file", 3_840, 3_968)?;
    catalog.relate(relation(alloc, from)?)
}

fn fill(alloc: Global, catalog: &mut Catalog) -> Result<(), Fault> {
    add_all(alloc, catalog, "box", Sort::Defined, 0, 3_840)?;
    add_all(alloc, catalog, "file", Sort::Plain, 3_840, 4_096)?;
    Ok(relate_all(alloc, catalog)?)
}

/// 3,840 defined resources, each in the one before, and then 256 files, of which the first half comes before the other.
fn large(alloc: Global) -> Result<Catalog, Fault> {
    let mut catalog = Catalog::new(alloc);
    fill(alloc, &mut catalog)?;
    Ok(catalog)
}

fn word(before: bool) -> &'static str {
    if before { "before" } else { "not before" }
}

/// Whether the first of two nodes comes before the second.
fn is_before(alloc: Global, order: &Order, a: u32, b: u32, want: bool) -> Result<(), Fail> {
    if a >= order.count() || b >= order.count() {
        return Err(Fail::from("two nodes of the order"));
    }
    let before = order.before(a, b);
    same_at(alloc, a as u64, "and another", word(before), word(want))
}

/// Each row: two nodes, and whether the first comes before the second.
fn are_before(alloc: Global, order: &Order, rows: &[(u32, u32, bool)]) -> Result<(), Fail> {
    for (a, b, want) in rows {
        is_before(alloc, order, *a, *b, *want)?;
    }
    Ok(())
}

/// A graph of so many plain resources, and as many nodes of its order.
fn is_counted(alloc: Global, found: &Graph, count: u64) -> Result<(), Fail> {
    same_number(alloc, "resources", found.plain.len() as u64, count)?;
    same_number(alloc, "nodes", found.order.count() as u64, count)
}

fn is_drawn(
    alloc: Global,
    found: &Graph,
    count: u64,
    rows: &[(u32, u32, bool)],
) -> Result<(), Fail> {
    is_counted(alloc, found, count)?;
    are_before(alloc, &found.order, rows)
}

/// The graph of a catalog is of so many plain resources, which are ordered as the rows have it.
fn has_graph(
    alloc: Global,
    catalog: &Catalog,
    count: u64,
    rows: &[(u32, u32, bool)],
) -> Result<(), Fail> {
    let found = graph(alloc, catalog)?;
    is_drawn(alloc, &found, count, rows)
}

#[test]
fn large_graphs(rt: HostRuntime) -> Result<(), Fail> {
    let catalog = large(rt.alloc())?;
    has_graph(
        rt.alloc(),
        &catalog,
        256,
        &[(127, 128, true), (126, 127, false)],
    )
}
