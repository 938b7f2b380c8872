//! The relations of a catalog between nodes.

ghost use Rattle.std.specs.Prelude.{◌≤◌, ◌∷◌, [], length};
ghost use Rattle.std.specs.List.{flat_map};
ghost use Rattle.pp_eval.specs.Evaluating.{AnswersBy};
ghost use Rattle.catalog_semantics.specs.States.{declared_bound};
ghost use Rattle.graph_semantics.specs.Relations.{relations_by, relations_of, references_within, metaparameter_relations, all_relations};
ghost use Rattle.dep_graph.specs.Links.{with_link, with_links};

use crate::targets::Side;
use crate::values::{node_alone, nodes_of, nodes_within};
use catalog::Catalog;
use catalog_semantics::{Relation, Resource, says_after, says_before};
use pp_value::Value;
use rh_base::{Fault, Seq, Text};
use std::alloc::Global;

/// Each node of the one side leads to each of the other.
#[derive(Drop)]
pub struct Link {
    pub from: Seq<u32>,
    pub to: Seq<u32>,
}

/// A resource comes before what the value of its attribute names.
fn push_before(
    alloc: Global,
    catalog: &Catalog,
    r: &Resource,
    value: &Value,
    links: &mut Seq<Link>,
) -> Result<(), Fault>
    requires few { length catalog.now.resources ≤ declared_bound }
    ensures { AnswersBy (λ done. links.new)
        (with_link catalog.now (record { from = r.now.id ∷ []; to = references_within value.now; at = r.now.at }) links.old) result }
{
    let from = node_alone(alloc, catalog, Side::From, r.at, &r.id)?;
    let to = nodes_within(alloc, catalog, Side::To, r.at, value)?;
    links.push(Link { from, to })?;
    Ok(())
}

/// A resource comes after what the value of its attribute names.
fn push_after(
    alloc: Global,
    catalog: &Catalog,
    r: &Resource,
    value: &Value,
    links: &mut Seq<Link>,
) -> Result<(), Fault>
    requires few { length catalog.now.resources ≤ declared_bound }
    ensures { AnswersBy (λ done. links.new)
        (with_link catalog.now (record { from = references_within value.now; to = r.now.id ∷ []; at = r.now.at }) links.old) result }
{
    let from = nodes_within(alloc, catalog, Side::From, r.at, value)?;
    let to = node_alone(alloc, catalog, Side::To, r.at, &r.id)?;
    links.push(Link { from, to })?;
    Ok(())
}

/// What an attribute says of the order.
fn push_attribute(
    alloc: Global,
    catalog: &Catalog,
    r: &Resource,
    pair: &(Text, Value),
    links: &mut Seq<Link>,
) -> Result<(), Fault>
    requires few { length catalog.now.resources ≤ declared_bound }
    ensures { AnswersBy (λ done. links.new) (with_links catalog.now (relations_by r.now pair.now) links.old) result }
{
    if says_before(pair.0.as_str()) {
        return push_before(alloc, catalog, r, &pair.1, links);
    }
    if says_after(pair.0.as_str()) {
        return push_after(alloc, catalog, r, &pair.1, links);
    }
    Ok(())
}

/// What the attributes of a resource say of the order.
#[tactic(auto, using(crate::proofs::Chains::next_links))]
fn push_attributes(
    alloc: Global,
    catalog: &Catalog,
    r: &Resource,
    links: &mut Seq<Link>,
) -> Result<(), Fault>
    requires few { length catalog.now.resources ≤ declared_bound }
    ensures { AnswersBy (λ done. links.new) (with_links catalog.now (flat_map (relations_by r.now) r.now.attrs) links.old) result }
{
    for pair in r.attrs.as_slice() {
        push_attribute(alloc, catalog, r, pair, links)?;
    }
    Ok(())
}

/// What a resource says of the order.
fn push_resource(
    alloc: Global,
    catalog: &Catalog,
    r: &Resource,
    links: &mut Seq<Link>,
) -> Result<(), Fault>
    requires few { length catalog.now.resources ≤ declared_bound }
    ensures { AnswersBy (λ done. links.new) (with_links catalog.now (relations_of r.now) links.old) result }
{
    if r.is_virtual {
        return Ok(());
    }
    push_attributes(alloc, catalog, r, links)
}

/// What the metaparameters say.
#[tactic(auto, using(crate::proofs::Chains::next_links, crate::proofs::Chains::links_end))]
fn push_metaparameters(alloc: Global, catalog: &Catalog, links: &mut Seq<Link>) -> Result<(), Fault>
    requires few { length catalog.now.resources ≤ declared_bound }
    ensures { AnswersBy (λ done. links.new) (with_links catalog.now (metaparameter_relations catalog.now) links.old) result }
{
    for place in 0..catalog.count() {
        push_resource(alloc, catalog, catalog.get(place), links)?;
    }
    Ok(())
}

/// What an arrow says.
fn push_arrow(
    alloc: Global,
    catalog: &Catalog,
    relation: &Relation,
    links: &mut Seq<Link>,
) -> Result<(), Fault>
    requires few { length catalog.now.resources ≤ declared_bound }
    ensures { AnswersBy (λ done. links.new) (with_link catalog.now relation.now links.old) result }
{
    let from = nodes_of(
        alloc,
        catalog,
        Side::From,
        relation.at,
        relation.from.as_slice(),
    )?;
    let to = nodes_of(
        alloc,
        catalog,
        Side::To,
        relation.at,
        relation.to.as_slice(),
    )?;
    links.push(Link { from, to })?;
    Ok(())
}

/// What the arrows say.
fn push_arrows(alloc: Global, catalog: &Catalog, links: &mut Seq<Link>) -> Result<(), Fault>
    requires few { length catalog.now.resources ≤ declared_bound }
    ensures { AnswersBy (λ done. links.new) (with_links catalog.now catalog.now.relations links.old) result }
{
    for relation in catalog.relations().as_slice() {
        push_arrow(alloc, catalog, relation, links)?;
    }
    Ok(())
}

/// All relations, between nodes.
#[tactic(auto, using(crate::proofs::Chains::next_links, crate::proofs::Chains::links_end))]
pub fn links_of(alloc: Global, catalog: &Catalog) -> Result<Seq<Link>, Fault>
    requires few { length catalog.now.resources ≤ declared_bound }
    ensures { AnswersBy (λ links. links) (with_links catalog.now (all_relations catalog.now) []) result }
{
    let mut links = Seq::new(alloc);
    push_metaparameters(alloc, catalog, &mut links)?;
    push_arrows(alloc, catalog, &mut links)?;
    Ok(links)
}
