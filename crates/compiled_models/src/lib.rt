//! What the native resources of a compiled catalog do: what is assumed of them, or their models, with edits by others lost.
#![tactic(auto)]

mod attributes;
mod counted;
mod edits;
mod files;
mod host;
mod laws;
mod models;
mod natives;
mod premises;
mod programs;
mod refusals;
mod told;

pub use counted::{assumed_at_places, count_assumed};
pub use laws::{assumed_resources, ordinary_resources, what_stands_is_spared};
pub use premises::{Premises, assumed_at};
pub use programs::native_programs;
