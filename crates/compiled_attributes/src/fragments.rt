//! The fragments of a compiled catalog, by their targets.

ghost use Rattle.std.specs.Prelude.{◌≡◌, ◌++◌, [], ℕ, List, map, option_map, slice_get, IfOk, OnOk};
ghost use Rattle.compiled_text.specs.Compiled.{counts_as};
ghost use Rattle.compiled_attributes.specs.Fragments.{is_fragment, target_of, gathered};
ghost use Rattle.compiled_attributes.specs.Places.{or_none, places_in, HoldsFragments, if_target, with_places, if_there, at_places};

use compiled_text::{CompiledCatalog, CompiledResource, is_concat_file};
use indexmap::IndexMap;
use model_attributes::text_at;
use rh_base::{NoMemory, Seq, Text};
use std::alloc::Global;
use std::collections::BTreeSet;
use std::marker::Model;

/// Where the fragments of a compiled catalog stand: for each target the places of its fragments, in the text's order.
#[derive(Drop)]
pub struct Fragments {
    by_target: IndexMap<Text, Seq<usize>>,
}

impl Model for Fragments {
    ghost use Rattle.std.specs.Prelude.{List, ℕ};

    ghost Value = { List (List ℕ × List ℕ) };

    ghost view = { λ f. f.by_target.entries };
}

fn is_fragment(r: &CompiledResource) -> bool
    ensures { result ≡ is_fragment r.now }
{
    let is_named_so = r.id.kind.as_str() == "concat_fragment";
    is_named_so && !r.is_container
}

/// The target of a fragment, if it is a text.
fn target_of(r: &CompiledResource) -> Option<&Text>
    ensures { option_map (λ t. t.now) result ≡ target_of r.now }
{
    if !is_fragment(r) {
        return None;
    }
    text_at(&r.parameters, "target")
}

/// The places that are there, or none.
fn or_none(alloc: Global, places: Option<Seq<usize>>) -> Seq<usize>
    ensures { result ≡ or_none places }
{
    match places {
        Some(places) => places,
        None => Seq::new(alloc),
    }
}

/// Adds the place of a fragment behind those of its target.
fn note(
    alloc: Global,
    by_target: &mut IndexMap<Text, Seq<usize>>,
    target: &Text,
    place: usize,
) -> Result<(), NoMemory>
    ensures { OnOk result ((x : List ℕ)
        → places_in by_target.new.entries x ≡ places_in by_target.old.entries x ++ if_target x
        (Some target.now) place) }
{
    let name = target.copy(alloc)?;
    let before = by_target.insert(name, Seq::new(alloc))?;
    let mut places = or_none(alloc, before);
    places.push(place)?;
    let name = target.copy(alloc)?;
    by_target.insert(name, places)?;
    Ok(())
}

/// The same of a resource, if it is a fragment.
fn note_fragment(
    alloc: Global,
    by_target: &mut IndexMap<Text, Seq<usize>>,
    r: &CompiledResource,
    place: usize,
) -> Result<(), NoMemory>
    ensures { OnOk result ((x : List ℕ)
        → places_in by_target.new.entries x ≡ places_in by_target.old.entries x ++ if_target x
        (target_of r.now) place) }
{
    match target_of(r) {
        Some(target) => note(alloc, by_target, target, place),
        None => Ok(()),
    }
}

/// For each target the places of its fragments.
fn by_target(
    alloc: Global,
    resources: &[CompiledResource],
) -> Result<IndexMap<Text, Seq<usize>>, NoMemory>
    ensures { IfOk result (λ table. HoldsFragments resources.now table.entries) }
{
    let mut table = IndexMap::new(alloc);
    for place in 0..resources.len() {
        note_fragment(alloc, &mut table, &resources[place], place)?;
    }
    Ok(table)
}

impl Fragments {
    ghost use Rattle.std.specs.Prelude.{◌≡◌, IfOk};
    ghost use Rattle.compiled_attributes.specs.Places.{places_in, HoldsFragments};

    /// Those of a compiled catalog.
    pub fn of(alloc: Global, catalog: &CompiledCatalog) -> Result<Fragments, NoMemory>
        ensures { IfOk result (HoldsFragments catalog.now.resources) }
    {
        let by_target = by_target(alloc, catalog.resources())?;
        Ok(Fragments { by_target })
    }

    /// The places of the fragments of a target.
    fn places(&self, target: &Text) -> &[usize]
        ensures { result.now ≡ places_in self.now target.now }
    {
        match self.by_target.get(target) {
            Some(places) => places.as_slice(),
            None => &[],
        }
    }
}

/// The path of the file that a resource is taken for.
fn path_of(r: &CompiledResource) -> &Text
    ensures { result.now ≡ (counts_as r.now).title }
{
    if !is_concat_file(r) {
        return &r.id.title;
    }
    match text_at(&r.parameters, "path") {
        Some(text) => text,
        None => &r.id.title,
    }
}

/// Puts each of these places where it belongs.
fn add_places(places: &mut BTreeSet<usize>, more: &[usize]) -> Result<(), NoMemory>
    ensures { OnOk result (places.new.keys ≡ with_places places.old.keys more.now) }
{
    for place in more {
        places.insert(*place)?;
    }
    Ok(())
}

/// The places of the fragments of a file's path and of its title.
fn places_of(
    alloc: Global,
    fragments: &Fragments,
    file: &CompiledResource,
) -> Result<BTreeSet<usize>, NoMemory>
    ensures { IfOk result (λ s. s.keys ≡ with_places
        (with_places [] (places_in fragments.now (counts_as file.now).title))
        (places_in fragments.now file.now.id.title)) }
{
    let mut places = BTreeSet::new(alloc);
    add_places(&mut places, fragments.places(path_of(file)))?;
    add_places(&mut places, fragments.places(&file.id.title))?;
    Ok(places)
}

/// The resource at a place, if there is one.
fn resource_at(resources: &[CompiledResource], place: usize) -> Option<&CompiledResource>
    ensures { option_map (λ r. r.now) result ≡ slice_get resources.now place }
{
    match resources.get(place) {
        Some(r) => Some(r),
        None => None,
    }
}

/// Adds the resource at a place, if there is one.
fn push_at<'r>(
    resources: &'r [CompiledResource],
    place: usize,
    found: &mut Vec<&'r CompiledResource>,
) -> Result<(), NoMemory>
    ensures { OnOk result (map (λ r. r.now) found.new.items ≡ map (λ r. r.now) found.old.items ++ if_there
        (slice_get resources.now place) []) }
{
    match resource_at(resources, place) {
        Some(r) => {
            found.push(r)?;
            Ok(())
        }
        None => Ok(()),
    }
}

/// The resources at some places.
fn at_places<'r>(
    alloc: Global,
    resources: &'r [CompiledResource],
    places: &BTreeSet<usize>,
) -> Result<Vec<&'r CompiledResource>, NoMemory>
    ensures { IfOk result (λ rs. map (λ r. r.now) rs.items ≡ at_places resources.now places.now.keys) }
{
    let mut found = Vec::new(alloc);
    for place in places {
        push_at(resources, *place, &mut found)?;
    }
    Ok(found)
}

/// The fragments that a file gathers, in the text's order.
pub(crate) fn gathered<'r>(
    alloc: Global,
    resources: &'r [CompiledResource],
    fragments: &Fragments,
    file: &CompiledResource,
) -> Result<Vec<&'r CompiledResource>, NoMemory>
    requires { HoldsFragments resources.now fragments.now }
    ensures { IfOk result (λ rs. map (λ r. r.now) rs.items ≡ gathered resources.now file.now) }
{
    let places = places_of(alloc, fragments, file)?;
    let found = at_places(alloc, resources, &places)?;
    Ok(found)
}
