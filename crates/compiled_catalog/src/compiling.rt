//! The catalog of a compiled catalog.

ghost use Rattle.std.specs.Prelude.{◌≡◌, ◌<◌, ◌≤◌, ◌+◌, ◌++◌, [], Some, length, slice_get, IfOk, OnOk};
ghost use Rattle.host_limits.specs.Limits.{declared_limit};
ghost use Rattle.pp_eval.specs.Evaluating.{AnswersBy};
ghost use Rattle.catalog_semantics.specs.States.{declared_bound};
ghost use Rattle.compiled_attributes.specs.Places.{HoldsFragments};
ghost use Rattle.compiled_text.specs.Compiled.{IsSound, holder_of, is_class_at};
ghost use Rattle.compiled_catalog.specs.Catalogs.{sort_of, resource_at, with_one, with_all, holdings_of, catalog_of};
ghost use Rattle.compiled_catalog.specs.Steps.{catalog_with, HasFirst};

use crate::attributes::settled_attributes;
use crate::counting::{few_declared, few_native};
use catalog::Catalog;
use catalog_semantics::{Resource, Sort};
use compiled_attributes::Fragments;
use compiled_relations::{Index, add_links, counts_as};
use compiled_text::{CompiledCatalog, CompiledResource, Containment};
use host_limits::Limits;
use pp_value::Pairs;
use rh_base::{Fault, NoMemory};
use std::alloc::Global;

/// A class, or else a defined resource if it may contain others, or else a plain one.
fn sort_of(r: &CompiledResource) -> Sort
    ensures { result ≡ sort_of r.now }
{
    if r.id.kind.as_str() == "class" {
        Sort::Class
    } else if r.is_container {
        Sort::Defined
    } else {
        Sort::Plain
    }
}

/// What holds the resource at a place.
fn holder_of(catalog: &CompiledCatalog, place: usize) -> Option<u32>
    requires within { place < length catalog.now.resources }
    requires few { length catalog.now.resources ≤ declared_bound }
    ensures { result ≡ holder_of catalog.now place }
{
    catalog.edges();
    match catalog.holder(place) {
        Some(holder) => Some(holder as u32),
        None => None,
    }
}

/// The resource at a place, with these attributes.
fn resource_at(
    alloc: Global,
    catalog: &CompiledCatalog,
    place: usize,
    r: &CompiledResource,
    attrs: Pairs,
) -> Result<Resource, NoMemory>
    requires within { place < length catalog.now.resources }
    requires few { length catalog.now.resources ≤ declared_bound }
    ensures { IfOk result (λ x. x ≡ resource_at catalog.now place r.now attrs) }
{
    let holder = holder_of(catalog, place);
    let id = counts_as(alloc, r)?;
    Ok(Resource {
        id,
        sort: sort_of(r),
        is_virtual: false,
        at: 0,
        holder,
        attrs,
    })
}

/// Adds the resource at a place to those before it.
fn add_resource(
    alloc: Global,
    compiled: &CompiledCatalog,
    index: &Index,
    fragments: &Fragments,
    limits: Limits,
    place: usize,
    r: &CompiledResource,
    catalog: &mut Catalog,
) -> Result<(), Fault>
    requires index { index.now ≡ compiled.now.resources }
    requires fragments { HoldsFragments compiled.now.resources fragments.now }
    requires sound { IsSound compiled.now }
    requires few { length compiled.now.resources ≤ declared_limit limits }
    requires there { slice_get compiled.now.resources place ≡ Some r.now }
    requires first { HasFirst compiled.now place catalog.old }
    ensures answers { AnswersBy (λ done. catalog.new) (catalog_with (with_one compiled.now catalog.old.resources r.now)) result }
    ensures first { OnOk result (HasFirst compiled.now (place + 1) catalog.new) }
{
    let attributes = settled_attributes(alloc, compiled, index, fragments, r)?;
    let resource = resource_at(alloc, compiled, place, r, attributes)?;
    match catalog.add(resource, limits) {
        Ok(_) => Ok(()),
        Err(fault) => Err(fault),
    }
}

/// The resources in the text's order.
fn add_resources(
    alloc: Global,
    compiled: &CompiledCatalog,
    limits: Limits,
) -> Result<Catalog, Fault>
    requires few { length compiled.now.resources ≤ declared_limit limits }
    ensures { AnswersBy (λ catalog. catalog) (catalog_with (with_all compiled.now [] compiled.now.resources)) result }
{
    compiled.edges();
    let resources = compiled.resources();
    let index = Index::new(alloc, resources)?;
    let fragments = Fragments::of(alloc, compiled)?;
    let mut catalog = Catalog::new(alloc);
    for place in 0..resources.len() {
        match add_resource(
            alloc,
            compiled,
            &index,
            &fragments,
            limits,
            place,
            &resources[place],
            &mut catalog,
        ) {
            Ok(()) => (),
            Err(fault) => return Err(fault),
        }
    }
    Ok(catalog)
}

/// Whether a class stands at a place.
fn is_class_at(resources: &[CompiledResource], place: usize) -> bool
    ensures { result ≡ is_class_at resources.now place }
{
    match resources.get(place) {
        Some(r) => r.id.kind.as_str() == "class",
        None => false,
    }
}

/// Puts each class into what contains it.
fn add_holdings(compiled: &CompiledCatalog, catalog: &mut Catalog) -> Result<(), NoMemory>
    requires few { length compiled.now.resources ≤ declared_bound }
    ensures { OnOk result (catalog.new ≡ record catalog.old { holdings = catalog.old.holdings ++ holdings_of compiled.now }) }
{
    for e in compiled.edges() {
        if is_class_at(compiled.resources(), e.inner) {
            catalog.hold(e.outer as u32, e.inner as u32)?;
        }
    }
    Ok(())
}

/// The catalog of a compiled catalog, or the one refusal.
pub fn catalog_of(
    alloc: Global,
    compiled: &CompiledCatalog,
    limits: Limits,
) -> Result<Catalog, Fault>
    ensures { AnswersBy (λ catalog. catalog) (catalog_of compiled.now limits) result }
{
    few_declared(alloc, compiled, limits)?;
    few_native(alloc, compiled, limits)?;
    let mut catalog = add_resources(alloc, compiled, limits)?;
    add_holdings(compiled, &mut catalog)?;
    add_links(alloc, &mut catalog)?;
    Ok(catalog)
}
