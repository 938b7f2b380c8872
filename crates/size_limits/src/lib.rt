//! How large the questions about a graph of programs are: how many paths their domain has, and what they weigh.
#![tactic(auto)]

mod counts;
mod laws;
mod paths;
mod weighing;

pub use laws::{path_counts, weights};
pub use paths::{path_count, paths_of};
pub use weighing::weight;
