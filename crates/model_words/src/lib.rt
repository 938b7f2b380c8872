//! The words of which the programs of resources are made.
#![tactic(auto)]

mod programs;
mod steps;
mod words;

pub use programs::{branching, creation, either, is_file, removal};
pub use steps::{push, push_dir, push_dirs, push_mark, push_sweeps, sequence};
pub use words::{copied, dir, drop_file, is_taken, linked, need, put};
