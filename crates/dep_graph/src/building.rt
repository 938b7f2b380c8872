//! The graph of a catalog.

ghost use Rattle.std.specs.Prelude.{◌≡◌, ◌↔◌, ℕ, List, length, IfOk, IfErr};
ghost use Rattle.rh_base.specs.Refused.{IfRefused};
ghost use Rattle.fs_semantics.specs.Orders.{IsLinearExtension};
ghost use Rattle.orders.specs.Relation.{Comes};
ghost use Rattle.graph_semantics.specs.Allowed.{IsLeft};
ghost use Rattle.graph_semantics.specs.Graphs.{IsGraphOf, IsGraphRefusal};

use crate::answer::Graph;
use crate::links::links_of;
use crate::pairs::plain_order;
use crate::structure::plain_places;
use crate::whole::whole_order;
use catalog::Catalog;
use graph_semantics::allowed_orders;
use rh_base::Fault;
use std::alloc::Global;

/// What comes before what. A reference to nothing is refused as 40, and a circle as 41.
pub fn graph(alloc: Global, catalog: &Catalog) -> Result<Graph, Fault>
    ensures graph { IfOk result (λ g. IsGraphOf catalog.now g.plain (Comes g.order)) }
    ensures count { IfOk result (λ g. g.order.count ≡ length g.plain) }
    // An order of the plain resources is allowed exactly where the whole graph, with its starts and ends, leaves it.
    ensures allowed { IfOk result (λ g. (o : List ℕ)
        → IsLinearExtension (length g.plain) (Comes g.order) o ↔ IsLeft catalog.now g.plain o) }
    ensures refused { IfErr result (λ e. IfRefused e (IsGraphRefusal catalog.now)) }
{
    allowed_orders();
    // so few that every place and every node has a number
    catalog.count();
    let links = links_of(alloc, catalog)?;
    let plain = plain_places(alloc, catalog)?;
    let whole = whole_order(alloc, catalog, links.as_slice(), plain.as_slice())?;
    let order = plain_order(alloc, &whole, plain.as_slice())?;
    Ok(Graph { plain, order })
}
