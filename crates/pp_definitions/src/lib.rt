//! What a manifest defines: its classes, defined types and nodes.
#![tactic(auto)]

mod definition;
mod definitions;
mod gathering;
mod nodes;
mod parameter;
mod site;

pub use definition::Definition;
pub use nodes::Node;
pub use parameter::Parameter;
pub use site::{Site, is_built_in};
