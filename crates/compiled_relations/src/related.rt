//! What the metaparameters of a catalog put before what.

ghost use Rattle.std.specs.Prelude.{◌≡◌, ◌||◌, ◌++◌, ◌∷◌, ℕ, [], IfOk, OnOk};
ghost use Rattle.std.specs.List.{flat_map};
ghost use Rattle.catalog_semantics.specs.declared.catalog.Relation.{Relation};
ghost use Rattle.graph_semantics.specs.Relations.{target_of, references_within, relations_by, relations_of, metaparameter_relations};
ghost use Rattle.compiled_relations.specs.Links.{has_pair, places_of, related_by, related_pairs};

use crate::pairs::PlacePairs;
use catalog::Catalog;
use catalog_semantics::{Resource, says_after, says_before};
use pp_value::{Ref, Value};
use rh_base::{NoMemory, Seq, Text};
use std::alloc::Global;

/// The place of the real resource or the class that a reference names.
fn target(catalog: &Catalog, r: &Ref) -> Option<u32>
    ensures { result ≡ target_of catalog.now r.now }
{
    let place = catalog.find(r)?;
    if place >= catalog.count() || catalog.get(place).is_virtual {
        return None;
    }
    Some(place)
}

/// Adds the place of what a reference names.
fn push_place(catalog: &Catalog, r: &Ref, places: &mut Seq<u32>) -> Result<(), NoMemory>
    ensures { OnOk result (places.new ≡ places.old ++ places_of catalog.now (r.now ∷ [])) }
{
    match target(catalog, r) {
        Some(place) => places.push(place),
        None => Ok(()),
    }
}

/// Adds the places of what the references in a value name.
#[cycle(values)]
#[tactic(auto, using(crate::proofs::RelationLaws::within_list))]
fn push_within(catalog: &Catalog, value: &Value, places: &mut Seq<u32>) -> Result<(), NoMemory>
    ensures { OnOk result (places.new ≡ places.old ++ places_of catalog.now (references_within value.now)) }
{
    match value {
        Value::List(items) => push_all_within(catalog, items.as_slice(), places),
        Value::Refer(r) => push_place(catalog, r, places),
        _ => Ok(()),
    }
}

#[cycle(values)]
fn push_all_within(
    catalog: &Catalog,
    items: &[Value],
    places: &mut Seq<u32>,
) -> Result<(), NoMemory>
    ensures { OnOk result (places.new ≡ places.old ++ places_of catalog.now (flat_map references_within items.now)) }
{
    for item in items {
        push_within(catalog, item, places)?;
    }
    Ok(())
}

/// Adds what an attribute of a resource puts before what.
fn insert_attribute(
    alloc: Global,
    catalog: &Catalog,
    r: &Resource,
    pair: &(Text, Value),
    pairs: &mut PlacePairs,
) -> Result<(), NoMemory>
    ensures { OnOk result ((p : ℕ × ℕ)
        → has_pair pairs.new p ≡
        (has_pair pairs.old p || has_pair (flat_map (related_by catalog.now) (relations_by r.now pair.now)) p)) }
{
    let before = says_before(pair.0.as_str());
    let after = says_after(pair.0.as_str());
    if !before && !after {
        return Ok(());
    }
    let mut own = Seq::new(alloc);
    push_place(catalog, &r.id, &mut own)?;
    let mut others = Seq::new(alloc);
    push_within(catalog, &pair.1, &mut others)?;
    if before {
        return pairs.insert_each(own.as_slice(), others.as_slice());
    }
    pairs.insert_each(others.as_slice(), own.as_slice())
}

/// Adds what the attributes of a resource put before what.
fn insert_resource(
    alloc: Global,
    catalog: &Catalog,
    r: &Resource,
    pairs: &mut PlacePairs,
) -> Result<(), NoMemory>
    ensures { OnOk result ((p : ℕ × ℕ)
        → has_pair pairs.new p ≡
        (has_pair pairs.old p || has_pair (flat_map (related_by catalog.now) (relations_of r.now)) p)) }
{
    if r.is_virtual {
        return Ok(());
    }
    for pair in r.attrs.as_slice() {
        insert_attribute(alloc, catalog, r, pair, pairs)?;
    }
    Ok(())
}

/// What all metaparameters put before what.
pub fn related_pairs(alloc: Global, catalog: &Catalog) -> Result<PlacePairs, NoMemory>
    ensures { IfOk result (λ pairs. (p : ℕ × ℕ) → has_pair pairs p ≡ has_pair (related_pairs catalog.now) p) }
{
    let mut pairs = PlacePairs::new(alloc);
    for place in 0..catalog.count() {
        insert_resource(alloc, catalog, catalog.get(place), &mut pairs)?;
    }
    Ok(pairs)
}
