//! What references name, and the numbers of nodes.

ghost use Rattle.std.specs.Prelude.{◌≡◌, ◌<◌, ◌≤◌, ◌+◌, ◌*◌, ◌∷◌, [], length, slice_get, option_map, IfSome};
ghost use Rattle.pp_eval.specs.Evaluating.{AnswersBy};
ghost use Rattle.rh_base.specs.Refused.{IfRefused};
ghost use Rattle.pp_eval.specs.Evaluating.{refusal};
ghost use Rattle.pp_value.specs.Shown.{shown_ref};
ghost use Rattle.catalog_semantics.specs.States.{declared_bound};
ghost use Rattle.graph_semantics.specs.Relations.{target_of, real_at};
ghost use Rattle.graph_semantics.specs.Graphs.{rank};
ghost use Rattle.dep_graph.specs.Numbers.{last_at, is_real};
ghost use Rattle.dep_graph.specs.Links.{side_number, with_nodes};

use catalog::Catalog;
use catalog_semantics::{Resource, Sort};
use pp_eval::refusal;
use pp_value::{Ref, shown_ref};
use rh_base::{Fault, Seq};
use std::alloc::Global;

/// The sides of a relation: what comes before, and what comes after.
#[derive(Clone, Copy)]
pub enum Side {
    From,
    To,
}

/// What stands at a place, if it is one.
pub fn resource_at(catalog: &Catalog, place: u32) -> Option<&Resource>
    ensures { option_map (λ r. r.now) result ≡ slice_get catalog.now.resources place }
{
    if place < catalog.count() {
        Some(catalog.get(place))
    } else {
        None
    }
}

/// The real resource or the class at a place.
pub fn real_at(catalog: &Catalog, place: u32) -> Option<&Resource>
    ensures { option_map (λ r. r.now) result ≡ real_at catalog.now place }
{
    let r = resource_at(catalog, place)?;
    if r.is_virtual { None } else { Some(r) }
}

/// Whether something real stands at a place.
pub fn is_real(catalog: &Catalog, place: u32) -> bool
    ensures { result ≡ is_real catalog.now place }
{
    real_at(catalog, place).is_some()
}

/// The place of the real resource or the class that a reference names.
pub fn target(catalog: &Catalog, r: &Ref) -> Option<u32>
    ensures place { result ≡ target_of catalog.now r.now }
    ensures within { IfSome result (λ place. place < length catalog.now.resources) }
{
    let place = catalog.find(r)?;
    if is_real(catalog, place) {
        Some(place)
    } else {
        None
    }
}

/// The node at which the resource at a place is done.
pub fn last_number(catalog: &Catalog, place: u32) -> u32
    requires within { place < length catalog.now.resources }
    requires few { length catalog.now.resources ≤ declared_bound }
    ensures { result ≡ rank (last_at catalog.now place) }
{
    match catalog.get(place).sort {
        Sort::Plain => 2 * place,
        Sort::Defined => 2 * place + 1,
        Sort::Class => 2 * place + 1,
    }
}

fn number(catalog: &Catalog, side: Side, place: u32) -> u32
    requires within { place < length catalog.now.resources }
    requires few { length catalog.now.resources ≤ declared_bound }
    ensures { result ≡ side_number side catalog.now place }
{
    match side {
        Side::From => last_number(catalog, place),
        Side::To => 2 * place,
    }
}

/// Nothing real has the reference.
fn missing(alloc: Global, at: u32, r: &Ref) -> Fault
    ensures { IfRefused result (λ x. x ≡ refusal 40 at (shown_ref r.now)) }
{
    match shown_ref(alloc, r) {
        Ok(name) => refusal(alloc, 40, at, name.as_str()),
        Err(m) => Fault::Memory(m),
    }
}

/// Adds the node of what a reference names.
pub fn push_node(
    alloc: Global,
    catalog: &Catalog,
    side: Side,
    at: u32,
    r: &Ref,
    nodes: &mut Seq<u32>,
) -> Result<(), Fault>
    requires few { length catalog.now.resources ≤ declared_bound }
    ensures { AnswersBy (λ done. nodes.new) (with_nodes side catalog.now at (r.now ∷ []) nodes.old) result }
{
    let Some(place) = target(catalog, r) else {
        return Err(missing(alloc, at, r));
    };
    nodes.push(number(catalog, side, place))?;
    Ok(())
}
