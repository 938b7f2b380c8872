//! Nodes of what lists of references and values name.

ghost use Rattle.std.specs.Prelude.{◌≤◌, ◌∷◌, [], length};
ghost use Rattle.std.specs.List.{flat_map};
ghost use Rattle.pp_eval.specs.Evaluating.{AnswersBy};
ghost use Rattle.catalog_semantics.specs.States.{declared_bound};
ghost use Rattle.graph_semantics.specs.Relations.{references_within};
ghost use Rattle.dep_graph.specs.Links.{with_nodes};

use crate::targets::{Side, push_node};
use catalog::Catalog;
use pp_value::{Ref, Value};
use rh_base::{Fault, Seq};
use std::alloc::Global;

/// The nodes of what some references name.
pub fn nodes_of(
    alloc: Global,
    catalog: &Catalog,
    side: Side,
    at: u32,
    refs: &[Ref],
) -> Result<Seq<u32>, Fault>
    requires few { length catalog.now.resources ≤ declared_bound }
    ensures { AnswersBy (λ nodes. nodes) (with_nodes side catalog.now at refs.now []) result }
{
    let mut nodes = Seq::new(alloc);
    for r in refs {
        push_node(alloc, catalog, side, at, r, &mut nodes)?;
    }
    Ok(nodes)
}

/// The node of what one reference names.
pub fn node_alone(
    alloc: Global,
    catalog: &Catalog,
    side: Side,
    at: u32,
    r: &Ref,
) -> Result<Seq<u32>, Fault>
    requires few { length catalog.now.resources ≤ declared_bound }
    ensures { AnswersBy (λ nodes. nodes) (with_nodes side catalog.now at (r.now ∷ []) []) result }
{
    let mut nodes = Seq::new(alloc);
    push_node(alloc, catalog, side, at, r, &mut nodes)?;
    Ok(nodes)
}

/// Adds the nodes of what the references in a value name.
#[cycle(values)]
#[tactic(auto, using(crate::proofs::Chains::within_list))]
fn push_value(
    alloc: Global,
    catalog: &Catalog,
    side: Side,
    at: u32,
    value: &Value,
    nodes: &mut Seq<u32>,
) -> Result<(), Fault>
    requires few { length catalog.now.resources ≤ declared_bound }
    ensures { AnswersBy (λ done. nodes.new) (with_nodes side catalog.now at (references_within value.now) nodes.old) result }
{
    match value {
        Value::List(items) => push_values(alloc, catalog, side, at, items.as_slice(), nodes),
        Value::Refer(r) => push_node(alloc, catalog, side, at, r, nodes),
        _ => Ok(()),
    }
}

#[cycle(values)]
#[tactic(auto, using(crate::proofs::Chains::next_nodes, crate::proofs::Chains::nodes_end))]
fn push_values(
    alloc: Global,
    catalog: &Catalog,
    side: Side,
    at: u32,
    items: &[Value],
    nodes: &mut Seq<u32>,
) -> Result<(), Fault>
    requires few { length catalog.now.resources ≤ declared_bound }
    ensures { AnswersBy (λ done. nodes.new) (with_nodes side catalog.now at (flat_map references_within items.now) nodes.old) result }
{
    for item in items {
        push_value(alloc, catalog, side, at, item, nodes)?;
    }
    Ok(())
}

/// The nodes of what the references in a value name.
pub fn nodes_within(
    alloc: Global,
    catalog: &Catalog,
    side: Side,
    at: u32,
    value: &Value,
) -> Result<Seq<u32>, Fault>
    requires few { length catalog.now.resources ≤ declared_bound }
    ensures { AnswersBy (λ nodes. nodes) (with_nodes side catalog.now at (references_within value.now) []) result }
{
    let mut nodes = Seq::new(alloc);
    push_value(alloc, catalog, side, at, value, &mut nodes)?;
    Ok(nodes)
}
