//! Strict orders of nodes 0, 1, ..: reachability along edges, linear extensions, exchanges of neighbours.
//!
//! An order is kept as its transitive closure, since whether one node comes before another is asked of every pair, and often.
#![tactic(auto)]

mod bits;
mod chains;
mod cycle;
mod exchange;
mod extension;
mod marks;
mod order;
mod places;
mod search;
mod walk;

pub use exchange::{exchanges_agree, exchanges_join};
pub use order::{Order, OrderFault};
