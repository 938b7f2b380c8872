//! What the relations of a compiled catalog name: what a reference finds, the values of relations, and the files to which links lead.
#![tactic(auto)]

mod index;
mod laws;
mod links;
mod names;
mod naming;
mod pairs;
mod paths;
mod related;
mod table;
mod values;

pub use compiled_text::counts_as;
pub use index::Index;
pub use laws::{paths_are_written_alike, relations_are_references, resources_are_found};
pub use links::add_links;
pub use naming::name_and_line;
pub use values::{are_references, related_to};
