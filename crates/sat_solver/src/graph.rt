//! The implication graph (GRASP, Marques-Silva and Sakallah 1996): the literals on the trail, each with an edge from the opposites of
//! the other literals of its reason. Nothing is built for it: the trail has the reasons, and the store the clauses.

use unit_propagation::{Store, Trail};

/// The trail and the clauses that gave its literals, and where the last level begins. It is lent while a conflict is analyzed.
#[derive(Clone, Copy)]
pub(crate) struct ImplicationGraph<'g> {
    pub store: &'g Store,
    pub trail: &'g Trail,
    pub boundary: usize,
}
