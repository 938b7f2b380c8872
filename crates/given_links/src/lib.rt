//! Links that every host has: what a path and a program are read as, where something that a path names lies below a link.
#![tactic(auto)]

mod laws;
mod links;
mod programs;

pub use laws::{path_readings, program_readings};
pub use links::{GivenLink, read_path};
pub use programs::{read_program, read_programs, read_test};
