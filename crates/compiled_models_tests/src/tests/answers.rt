//! What is answered of the native resources of compiled catalogs.

ghost use Rattle.std.specs.Prelude.{◌<◌, length};
ghost use Rattle.std.specs.List.{AllByRecursion};

use crate::places::native_places;
use assumed_text::{Assumptions, assumptions_from_json};
use catalog::Catalog;
use compiled_catalog::catalog_of;
use compiled_models::{assumed_at_places, count_assumed, native_programs};
use compiled_text::{CompiledCatalog, compiled_from_json};
use fs_lang::{Path, Program};
use given_links::GivenLink;
use host_limits::Limits;
use pkg_listing::{Listing, listing_from_json};
use std::alloc::Global;
use std::test::Fail;
use test_rows::{joined, refused, same_of};
use tree_text::program_text;

/// A compiled catalog of these resources.
fn compiled(alloc: Global, resources: &str) -> Result<CompiledCatalog, Fail> {
    let text = joined(
        alloc,
        &[
            r#"{"catalog_format":2,"resources":["#,
            resources,
            r#"],"edges":[]}"#,
        ],
    )?;
    Ok(compiled_from_json(alloc, text.as_bytes())?)
}

/// Assumptions of these members.
fn assumptions(alloc: Global, members: &str) -> Result<Assumptions, Fail> {
    let text = joined(alloc, &[r#"{"version":1,"resources":{"#, members, r#"}}"#])?;
    Ok(assumptions_from_json(alloc, text.as_bytes())?)
}

/// The package `p` of one file.
fn listing(alloc: Global) -> Result<Listing, Fail> {
    let text = r#"{"version":1,"packages":{"p":{"files":["/lib/p"],"folders":[]}}}"#;
    Ok(listing_from_json(alloc, text.as_bytes())?)
}

/// The path `/lib`, which is a link to `/usr/lib`.
fn library(alloc: Global) -> Result<GivenLink, Fail> {
    let path = Path::read(alloc, "/lib")?;
    let target = Path::read(alloc, "/usr/lib")?;
    Ok(GivenLink { path, target })
}

/// Adds a line for a program, behind a star where it is assumed.
fn add_program(
    alloc: Global,
    program: &Program,
    is_assumed: bool,
    bytes: &mut Vec<u8>,
) -> Result<(), Fail> {
    if is_assumed {
        bytes.extend_from_slice(b"* ")?;
    }
    program_text(alloc, program, bytes)?;
    bytes.push(b'\n')?;
    Ok(())
}

/// A line for each program.
fn shown(alloc: Global, programs: &[Program], marks: &[bool]) -> Result<String, Fail> {
    let mut bytes = Vec::new(alloc);
    for k in 0..programs.len() {
        let is_assumed = matches!(marks.get(k), Some(true));
        add_program(alloc, &programs[k], is_assumed, &mut bytes)?;
    }
    Ok(String::from_utf8(bytes)?)
}

/// The same, with stars where resources at these places are assumed.
fn marked(
    alloc: Global,
    texts: &CompiledCatalog,
    plain: &[u32],
    assumptions: &Assumptions,
    programs: &[Program],
) -> Result<String, Fail> {
    let marks = assumed_at_places(alloc, texts, plain, assumptions)?;
    shown(alloc, programs, marks.as_slice())
}

/// The programs of the resources at these places, or the refusal.
fn programs_with(
    alloc: Global,
    texts: &CompiledCatalog,
    catalog: &Catalog,
    plain: &[u32],
    assumptions: &Assumptions,
    listing: &Listing,
    links: &[GivenLink],
) -> Result<String, Fail>
    requires told { AllByRecursion (λ i. i < length texts.now.resources) plain.now }
    requires made { AllByRecursion (λ i. i < length catalog.now.resources) plain.now }
{
    match native_programs(alloc, texts, catalog, plain, assumptions, listing, links) {
        Ok(programs) => marked(alloc, texts, plain, assumptions, programs.as_slice()),
        Err(fault) => Ok(refused(alloc, &fault)?),
    }
}

/// The same, with the package `p`.
fn programs_at(
    alloc: Global,
    texts: &CompiledCatalog,
    catalog: &Catalog,
    plain: &[u32],
    assumptions: &Assumptions,
    links: &[GivenLink],
) -> Result<String, Fail>
    requires told { AllByRecursion (λ i. i < length texts.now.resources) plain.now }
    requires made { AllByRecursion (λ i. i < length catalog.now.resources) plain.now }
{
    let listing = listing(alloc)?;
    programs_with(alloc, texts, catalog, plain, assumptions, &listing, links)
}

/// The same of all native resources.
fn programs_in(
    alloc: Global,
    texts: &CompiledCatalog,
    catalog: &Catalog,
    assumptions: &Assumptions,
    links: &[GivenLink],
) -> Result<String, Fail> {
    let plain = native_places(alloc, texts, catalog)?;
    programs_at(alloc, texts, catalog, plain.as_slice(), assumptions, links)
}

/// The same of those that a text has.
fn programs_of(
    alloc: Global,
    texts: &CompiledCatalog,
    assumptions: &Assumptions,
    links: &[GivenLink],
) -> Result<String, Fail> {
    let catalog = catalog_of(alloc, texts, Limits::Host)?;
    programs_in(alloc, texts, &catalog, assumptions, links)
}

/// The same of a text of resources.
fn answer_under(
    alloc: Global,
    resources: &str,
    assumptions: &Assumptions,
    links: &[GivenLink],
) -> Result<String, Fail> {
    let texts = compiled(alloc, resources)?;
    programs_of(alloc, &texts, assumptions, links)
}

/// The same with the members of assumptions.
fn answer_with(
    alloc: Global,
    resources: &str,
    assumed: &str,
    links: &[GivenLink],
) -> Result<String, Fail> {
    let assumptions = assumptions(alloc, assumed)?;
    answer_under(alloc, resources, &assumptions, links)
}

/// The same where `/lib` is a link.
pub fn answer_linked(alloc: Global, resources: &str, assumed: &str) -> Result<String, Fail> {
    let link = library(alloc)?;
    answer_with(alloc, resources, assumed, &[link])
}

/// The same without links.
pub fn answer(alloc: Global, resources: &str, assumed: &str) -> Result<String, Fail> {
    answer_with(alloc, resources, assumed, &[])
}

/// This is answered.
pub fn is_answered(alloc: Global, resources: &str, assumed: &str, want: &str) -> Result<(), Fail> {
    let told = answer(alloc, resources, assumed)?;
    same_of(alloc, &[resources, " ", assumed], told.as_str(), want)
}

/// Resources and assumptions of each row are answered with what stands beside them.
pub fn are_answered(alloc: Global, rows: &[(&str, &str, &str)]) -> Result<(), Fail> {
    for (resources, assumed, want) in rows {
        is_answered(alloc, *resources, *assumed, *want)?;
    }
    Ok(())
}

/// How many native resources that both have are assumed.
fn count_in(
    alloc: Global,
    texts: &CompiledCatalog,
    catalog: &Catalog,
    assumptions: &Assumptions,
) -> Result<usize, Fail> {
    let plain = native_places(alloc, texts, catalog)?;
    Ok(count_assumed(alloc, texts, plain.as_slice(), assumptions)?)
}

/// The same of those that a text has.
fn count_of(
    alloc: Global,
    texts: &CompiledCatalog,
    assumptions: &Assumptions,
) -> Result<usize, Fail> {
    let catalog = catalog_of(alloc, texts, Limits::Host)?;
    count_in(alloc, texts, &catalog, assumptions)
}

/// The same of a text of resources.
fn count_under(alloc: Global, resources: &str, assumptions: &Assumptions) -> Result<usize, Fail> {
    let texts = compiled(alloc, resources)?;
    count_of(alloc, &texts, assumptions)
}

/// The same with the members of assumptions.
pub fn assumed_of(alloc: Global, resources: &str, assumed: &str) -> Result<usize, Fail> {
    let assumptions = assumptions(alloc, assumed)?;
    count_under(alloc, resources, &assumptions)
}
