//! The names of plain resources, and the positions that texts name.

ghost use Rattle.std.specs.Prelude.{◌≡◌, ◌<◌, ◌^◌, [], length, slice_get, option_map, IfOk, OnOk};
ghost use Rattle.rh_base.specs.Reading.{Gives};
ghost use Rattle.graph_semantics.specs.Graphs.{reference_at};
ghost use Rattle.allowed_order.specs.Names.{with_name, with_names, positions_of};

use crate::names::Names;
use catalog::Catalog;
use catalog_semantics::Resource;
use pp_value::shown_ref;
use rh_base::{Misread, NoMemory, Seq, Text};
use std::alloc::Global;

/// What stands at a place, if it is one.
fn resource_at(catalog: &Catalog, place: u32) -> Option<&Resource>
    ensures { option_map (λ r. r.now) result ≡ slice_get catalog.now.resources place }
{
    if place < catalog.count() {
        Some(catalog.get(place))
    } else {
        None
    }
}

/// The reference of the resource at a place, as it is shown.
fn reference_at(alloc: Global, catalog: &Catalog, place: u32) -> Result<Text, NoMemory>
    ensures { IfOk result (λ text. text ≡ reference_at catalog.now place) }
{
    match resource_at(catalog, place) {
        Some(r) => shown_ref(alloc, &r.id),
        None => Ok(Text::new(alloc)),
    }
}

/// Gives the reference of a plain resource its position, unless it has one.
fn put_name(
    alloc: Global,
    catalog: &Catalog,
    place: u32,
    position: u32,
    names: &mut Names,
) -> Result<(), NoMemory>
    ensures { OnOk result (names.new ≡ with_name names.old (reference_at catalog.now place) position) }
{
    let text = reference_at(alloc, catalog, place)?;
    names.put(text, position)
}

/// The references of plain resources with their positions.
pub fn names_of(alloc: Global, catalog: &Catalog, plain: &[u32]) -> Result<Names, NoMemory>
    requires { length plain.now < 2 ^ 32 }
    ensures { IfOk result (λ names. names ≡ with_names catalog.now 0 plain.now []) }
{
    let mut names = Names::new(alloc);
    let mut position = 0u32;
    for place in plain {
        put_name(alloc, catalog, *place, position, &mut names)?;
        position += 1;
    }
    Ok(names)
}

/// The positions that texts name, where each names one.
pub fn positions_of(alloc: Global, names: &Names, texts: &[Text]) -> Result<Seq<u32>, Misread>
    ensures { Gives (λ ps. ps) result (positions_of names.now texts.now) }
{
    let mut positions = Seq::new(alloc);
    for text in texts {
        let Some(position) = names.find(text) else {
            return Err(Misread::Form);
        };
        positions.push(position)?;
    }
    Ok(positions)
}
