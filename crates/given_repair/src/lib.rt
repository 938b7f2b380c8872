//! Arrows that make a graph of programs deterministic from the file trees in which given folders stand.
//!
//! They are those of the graph with the guard in front. No arrow touches the guard: it comes before each resource, and an arrow is
//! between resources of which neither comes before the other.
#![tactic(auto)]

mod repairing;

pub use repairing::repair_from;
