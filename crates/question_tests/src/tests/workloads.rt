//! What workloads are, and how heavy.

ghost use Rattle.std.specs.Prelude.{◌<◌, ◌≤◌, ◌^◌, length};

use catalog::Catalog;
use dep_graph::graph;
use fs_lang::Program;
use pkg_listing::{Listing, listing_from_json};
use pp_compile::compile;
use pp_value::{Pairs, Value};
use res_models::program_of;
use rh_base::{Boxed, Fault, Seq};
use size_limits::weight;
use std::alloc::Global;
use std::test::Fail;
use test_rows::{same, same_number};
use workload::workload;

/// The catalog of a manifest that stands in no need of facts.
fn catalog_of(alloc: Global, manifest: &[u8]) -> Result<Boxed<Catalog>, Fault>
    requires { length manifest.now < 2 ^ 32 }
{
    let facts = Boxed::new(alloc, Value::Map(Pairs::new(alloc)))?;
    Ok(Boxed::new(alloc, compile(alloc, manifest, facts.get(), "")?)?)
}

fn push_program(
    alloc: Global,
    catalog: &Catalog,
    i: u32,
    listing: &Listing,
    into: &mut Seq<Program>,
) -> Result<(), Fault> {
    if i < catalog.count() {
        into.push(program_of(alloc, catalog.get(i), listing)?)?;
    }
    Ok(())
}

/// The programs of the resources at these places, beside a listing.
fn programs_at(
    alloc: Global,
    catalog: &Catalog,
    places: &[u32],
    listing: &Listing,
) -> Result<Seq<Program>, Fault> {
    let mut all = Seq::new(alloc);
    for i in places {
        push_program(alloc, catalog, *i, listing, &mut all)?;
    }
    Ok(all)
}

/// The programs of a catalog's graph, beside a listing.
fn programs(alloc: Global, catalog: &Catalog, listing: &Listing) -> Result<Seq<Program>, Fault> {
    let found = Boxed::new(alloc, graph(alloc, catalog)?)?;
    programs_at(alloc, catalog, found.get().plain.as_slice(), listing)
}

/// The weight of a catalog's programs, beside a listing.
fn weight_of(alloc: Global, catalog: &Catalog, listing: &Listing) -> Result<u64, Fault> {
    let all = programs(alloc, catalog, listing)?;
    Ok(weight(alloc, all.as_slice())?)
}

/// The same, of the text of a manifest.
fn weight_beside(alloc: Global, manifest: &[u8], listing: &Listing) -> Result<u64, Fault>
    requires { length manifest.now < 2 ^ 32 }
{
    let catalog = catalog_of(alloc, manifest)?;
    weight_of(alloc, catalog.get(), listing)
}

/// The same, of the text of a listing.
fn weight_of_texts(alloc: Global, manifest: &[u8], listing: &[u8]) -> Result<u64, Fail> {
    if manifest.len() >= 1_000_000 {
        return Err(Fail::from("a long manifest"));
    }
    let listing = listing_from_json(alloc, listing)?;
    Ok(weight_beside(alloc, manifest, &listing)?)
}

/// The weight of a workload's programs.
fn weight_of_workload(alloc: Global, n: u32) -> Result<u64, Fail>
    requires least { 1 ≤ n }
    requires most { n ≤ 54 }
{
    let (manifest, listing) = workload(alloc, n)?;
    weight_of_texts(alloc, &manifest, &listing)
}

#[test]
fn the_weight_of_a_workload(rt: HostRuntime) -> Result<(), Fail> {
    same_number(
        rt.alloc(),
        "workload 40",
        weight_of_workload(rt.alloc(), 40)?,
        384_896,
    )
}

#[test]
fn the_weight_of_the_largest_workload(rt: HostRuntime) -> Result<(), Fail> {
    same_number(
        rt.alloc(),
        "workload 54",
        weight_of_workload(rt.alloc(), 54)?,
        691_888,
    )
}

/// The smallest manifest, one declaration a line.
const MANIFEST: &str = "package { 'p1': }
file { '/opt/p1/p.conf': content => '1', require => Package['p1'] }
service { 'svc1': ensure => running, require => Package['p1'] }
package { 'alpha': }
file { '/etc/alpha.conf': content => 'a', require => Package['alpha'] }
package { 'beta': }
file { '/etc/beta.conf': content => 'b', require => Package['beta'] }
";

/// Its listing.
const LISTING: &str =
    r#"{"version":1,"packages":{"p1":{"files":["/opt/p1/p.conf","/lib/systemd/system/svc1.service"],"folders":[]},"alpha":{"files":["/etc/alpha.conf"],"folders":[]},"beta":{"files":["/etc/beta.conf"],"folders":[]}}}"#;

fn is_text(alloc: Global, row: &str, bytes: Vec<u8>, want: &str) -> Result<(), Fail> {
    let text = String::from_utf8(bytes)?;
    same(alloc, row, text.as_str(), want)
}

#[test]
fn the_manifest_of_a_workload_is_a_text(rt: HostRuntime) -> Result<(), Fail> {
    let (manifest, _listing) = workload(rt.alloc(), 1)?;
    is_text(rt.alloc(), "manifest", manifest, MANIFEST)
}

#[test]
fn the_listing_of_a_workload_is_a_text(rt: HostRuntime) -> Result<(), Fail> {
    let (_manifest, listing) = workload(rt.alloc(), 1)?;
    is_text(rt.alloc(), "listing", listing, LISTING)
}
