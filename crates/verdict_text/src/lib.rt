//! The lines of a report on runs: file trees, orders and outcomes.
#![tactic(auto)]

mod lines;
mod order_lines;

pub use lines::{push_bytes, push_outcome, push_tree};
pub use order_lines::push_order;
