//! The order of all nodes.

ghost use Rattle.std.specs.Prelude.{◌≡◌, ◌↔◌, ◌<◌, ◌≤◌, length, IfOk, IfErr, OnOk};
ghost use Rattle.rh_base.specs.Refused.{IfRefused};
ghost use Rattle.catalog_semantics.specs.States.{declared_bound};
ghost use Rattle.orders.specs.Relation.{Comes};
ghost use Rattle.graph_semantics.specs.Graphs.{Node, rank, Before, IsCircleRefusal, plain_places};
ghost use Rattle.dep_graph.specs.Whole.{bound_of, count_of, AreLinks, AreEdges};

use crate::circle::circle;
use crate::files::{files_of, push_file_edges};
use crate::joined::push_links;
use crate::links::Link;
use crate::named::push_named_edges;
use crate::structure::structure_edges;
use catalog::Catalog;
use orders::{Order, OrderFault};
use rh_base::{Fault, NoMemory, Seq};
use std::alloc::Global;

/// All edges, and how many numbers the nodes take.
fn edges_of(
    alloc: Global,
    catalog: &Catalog,
    links: &[Link],
    plain: &[u32],
) -> Result<(u32, Seq<(u32, u32)>), NoMemory>
    requires few { length catalog.now.resources ≤ declared_bound }
    requires plain { plain.now ≡ plain_places catalog.now }
    ensures count { IfOk result (λ e. e.0 ≡ count_of catalog.now links.now) }
    ensures edges { IfOk result (λ e. AreEdges catalog.now links.now e.1) }
{
    let mut edges = structure_edges(alloc, catalog)?;
    let count = push_links(links, 2 * catalog.count(), &mut edges)?;
    push_named_edges(alloc, catalog, links, plain, &mut edges)?;
    let files = files_of(alloc, catalog, plain)?;
    push_file_edges(alloc, links, files.as_slice(), &mut edges)?;
    Ok((count, edges))
}

/// The order of all nodes by their numbers.
pub fn whole_order(
    alloc: Global,
    catalog: &Catalog,
    links: &[Link],
    plain: &[u32],
) -> Result<Order, Fault>
    requires few { length catalog.now.resources ≤ declared_bound }
    requires links { AreLinks catalog.now links.now }
    requires plain { plain.now ≡ plain_places catalog.now }
    ensures count { IfOk result (λ order. bound_of catalog.now ≤ order.count) }
    ensures before { IfOk result (λ order. (a b : Node) → rank a < bound_of catalog.now → rank b < bound_of catalog.now
        → Comes order (rank a) (rank b) ↔ Before catalog.now a b) }
    ensures acyclic { OnOk result ((n : Node) → Before catalog.now n n → ⊥) }
    ensures circle { IfErr result (λ e. IfRefused e (IsCircleRefusal catalog.now)) }
{
    let (count, edges) = edges_of(alloc, catalog, links, plain)?;
    match Order::from_edges(alloc, count, edges.as_slice()) {
        Ok(order) => Ok(order),
        Err(OrderFault::Cycle(nodes)) => {
            Err(circle(alloc, catalog, 2 * catalog.count(), nodes.as_slice()))
        }
        Err(OrderFault::Memory(m)) => Err(Fault::Memory(m)),
    }
}
