//! What the files of a request say, but for a manifest: facts, a listing of packages, class data, a file tree, a compiled catalog, what is
//! assumed of its resources, and what every host has.
#![tactic(auto)]

mod edited;
mod inputs;
mod laws;
mod reading;

pub use inputs::{Inputs, Known};
pub use laws::files_say_one_thing;
pub use reading::{compiled_of, known_inputs};
