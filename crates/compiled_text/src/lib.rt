//! The text of a compiled catalog, as Puppet's compiler prints it: its resources, and what contains what.
#![tactic(auto)]

mod catalog;
mod edges;
mod laws;
mod names;
mod reading;
mod refs;
mod resources;
mod values;

pub use catalog::{CompiledCatalog, CompiledResource, Containment};
pub use laws::{compiled_texts, untyped_values};
pub use names::reference_of;
pub use reading::compiled_from_json;
pub use resources::{counts_as, is_concat_file, text_or};
