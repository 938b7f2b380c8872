//! What is told of two graphs that are compared: whether they do the same.
#![tactic(auto)]

mod lines;
mod telling;
mod turns;

pub use telling::told;
