//! The graph of what pruning keeps, and what its orders say of the whole graph.
#![tactic(auto)]

mod completing;
mod contracted;
mod counterexamples;
mod kept;
mod pairs;

pub use contracted::{Contracted, contract, contractions, expand};
pub use counterexamples::{Completed, end_alike, refute};
pub use kept::{Kept, chosen, keep, kept_graphs, program_at};
