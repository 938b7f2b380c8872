//! The catalog that is verified, of a compiled catalog.
#![tactic(auto)]

mod attributes;
mod compiling;
mod counting;
mod laws;

pub use compiling::catalog_of;
pub use laws::{compiled_attributes_are_sound, compiled_references_stand_once};
