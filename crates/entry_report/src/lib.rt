//! What is told of an entry that is wanted: whether each run that ends leaves it.
#![tactic(auto)]

mod lines;
mod telling;

pub use telling::{first_lines, first_status, told};
