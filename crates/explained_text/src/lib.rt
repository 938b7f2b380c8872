//! The words in which a run is explained: where it fails and why, and where two outcomes differ.
#![tactic(auto)]

mod differences;
mod found;
mod runs;
mod steps;

pub use differences::push_differences;
pub use runs::push_failure;
pub use steps::push_step;
