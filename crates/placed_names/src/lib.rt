//! Names of resources that tell where in the manifest they stand.
#![tactic(auto)]

ghost use Rattle.std.specs.Prelude.{◌≡◌, ◌<◌, length, Some, slice_get, IfOk};
ghost use Rattle.std.specs.List.{AllByRecursion};
ghost use Rattle.placed_names.specs.Placed.{with_place, IsPlacedName, IsNameAt, AreNamesAt};

use catalog::Catalog;
use catalog_semantics::Resource;
use pp_value::shown_ref;
use printed_names::printed;
use rh_base::{NoMemory, Seq, Text};
use std::alloc::Global;
use text_places::{Place, place_of};

fn with_place(alloc: Global, reference: &str, place: Place) -> Result<Text, NoMemory>
    ensures { IfOk result (λ name. name ≡ with_place reference.now place.line place.column) }
{
    let Place { line, column } = place;
    Ok(Text::from_string(format!(in alloc; "{reference} ({line}:{column})")?))
}

fn placed_name(alloc: Global, text: &[u8], resource: &Resource) -> Result<Text, NoMemory>
    ensures { IfOk result (IsPlacedName text.now resource.now) }
{
    let reference = shown_ref(alloc, &resource.id)?;
    let shown = printed(alloc, reference.as_str())?;
    let place = place_of(text, resource.at as usize);
    with_place(alloc, shown.as_str(), place)
}

fn name_at(alloc: Global, text: &[u8], catalog: &Catalog, place: u32) -> Result<Text, NoMemory>
    requires { place < length catalog.now.resources }
    ensures { IfOk result (IsNameAt text.now catalog.now place) }
{
    placed_name(alloc, text, catalog.get(place))
}

/// The names of the resources at these places of a catalog, which a manifest of this text declares.
pub fn placed_names(
    alloc: Global,
    text: &[u8],
    catalog: &Catalog,
    places: &[u32],
) -> Result<Seq<Text>, NoMemory>
    requires { AllByRecursion (λ k. k < length catalog.now.resources) places.now }
    ensures { IfOk result (AreNamesAt text.now catalog.now places.now) }
{
    let mut names = Seq::new(alloc);
    for place in places {
        names.push(name_at(alloc, text, catalog, *place)?)?;
    }
    Ok(names)
}
