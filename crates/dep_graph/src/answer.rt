//! What is told of a catalog's graph.

use orders::Order;
use rh_base::Seq;

/// The places of the real plain resources in a catalog, in order of declaration, and which of them comes before which:
/// the order is over their numbers in that list.
#[derive(Drop)]
pub struct Graph {
    pub plain: Seq<u32>,
    pub order: Order,
}
