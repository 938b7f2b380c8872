//! The edges of containers.

ghost use Rattle.std.specs.Prelude.{◌≡◌, ◌<◌, ◌≤◌, ◌++◌, ◌&&◌, not, length, IfOk, OnOk};
ghost use Rattle.std.specs.List.{flat_map};
ghost use Rattle.catalog_semantics.specs.Catalogs.{is_plain_sort};
ghost use Rattle.graph_semantics.specs.Graphs.{plain_places};
ghost use Rattle.catalog_semantics.specs.States.{declared_bound};
ghost use Rattle.dep_graph.specs.Numbered.{member_edges, container_edges, structure_edges};

use crate::targets::{is_real, last_number, real_at};
use catalog::Catalog;
use catalog_semantics::{Resource, Sort};
use rh_base::{NoMemory, Seq};
use std::alloc::Global;

/// Adds the edges to a member and from it.
fn push_member(
    catalog: &Catalog,
    outer: u32,
    place: u32,
    edges: &mut Seq<(u32, u32)>,
) -> Result<(), NoMemory>
    requires few { length catalog.now.resources ≤ declared_bound }
    requires outer { outer < length catalog.now.resources }
    ensures { OnOk result (edges.new ≡ edges.old ++ member_edges catalog.now outer place) }
{
    if !is_real(catalog, place) {
        return Ok(());
    }
    edges.push((2 * outer, 2 * place))?;
    edges.push((last_number(catalog, place), 2 * outer + 1))
}

/// Adds the edges to some members and from them.
fn push_members(
    catalog: &Catalog,
    outer: u32,
    places: &[u32],
    edges: &mut Seq<(u32, u32)>,
) -> Result<(), NoMemory>
    requires few { length catalog.now.resources ≤ declared_bound }
    requires outer { outer < length catalog.now.resources }
    ensures { OnOk result (edges.new ≡ edges.old ++ flat_map (member_edges catalog.now outer) places.now) }
{
    for place in places {
        push_member(catalog, outer, *place, edges)?;
    }
    Ok(())
}

/// Whether a resource is of a built-in type.
pub fn is_plain(r: &Resource) -> bool
    ensures { result ≡ is_plain_sort r.now.sort }
{
    match r.sort {
        Sort::Plain => true,
        Sort::Defined => false,
        Sort::Class => false,
    }
}

/// Adds the edges of a container.
fn push_container(
    catalog: &Catalog,
    place: u32,
    edges: &mut Seq<(u32, u32)>,
) -> Result<(), NoMemory>
    requires few { length catalog.now.resources ≤ declared_bound }
    requires within { place < length catalog.now.resources }
    ensures { OnOk result (edges.new ≡ edges.old ++ container_edges catalog.now place) }
{
    let Some(r) = real_at(catalog, place) else {
        return Ok(());
    };
    if is_plain(r) {
        return Ok(());
    }
    edges.push((2 * place, 2 * place + 1))?;
    let places = catalog.members(place)?;
    push_members(catalog, place, places.as_slice(), edges)
}

/// The edges of all containers.
pub fn structure_edges(alloc: Global, catalog: &Catalog) -> Result<Seq<(u32, u32)>, NoMemory>
    requires few { length catalog.now.resources ≤ declared_bound }
    ensures { IfOk result (λ edges. edges ≡ structure_edges catalog.now (length catalog.now.resources)) }
{
    let mut edges = Seq::new(alloc);
    for place in 0..catalog.count() {
        push_container(catalog, place, &mut edges)?;
    }
    Ok(edges)
}

fn is_real_plain(r: &Resource) -> bool
    ensures { result ≡ (is_plain_sort r.now.sort && not r.now.is_virtual) }
{
    let plain = is_plain(r);
    plain && !r.is_virtual
}

/// The places of the real plain resources.
pub fn plain_places(alloc: Global, catalog: &Catalog) -> Result<Seq<u32>, NoMemory>
    requires few { length catalog.now.resources ≤ declared_bound }
    ensures { IfOk result (λ places. places ≡ plain_places catalog.now) }
{
    let mut places = Seq::new(alloc);
    for place in 0..catalog.count() {
        if is_real_plain(catalog.get(place)) {
            places.push(place)?;
        }
    }
    Ok(places)
}
