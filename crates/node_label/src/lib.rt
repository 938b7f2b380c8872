//! The name of the node block that runs, as it is spelled.
#![tactic(auto)]

mod labels;
mod names;

pub use labels::node_line;
