//! A graph with an order in which it is run.

use verdict_report::NamedPlan;

/// The programs of a graph, and the order in which they have their turns.
#[derive(Clone, Copy, Drop)]
pub struct Turns<'a> {
    pub named: &'a NamedPlan<'a>,
    pub order: &'a [u32],
}
