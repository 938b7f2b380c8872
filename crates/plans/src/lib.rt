//! Programs with what orders them, as the questions about a graph take them.
#![tactic(auto)]

mod plan;

pub use plan::Plan;
