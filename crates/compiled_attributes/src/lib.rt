//! The attributes of the resources of a compiled catalog, as they count before anything looks at them.
#![tactic(auto)]

mod attributes;
mod content;
mod fragments;
mod given;
mod laws;
mod names;
mod reading;
mod rows;

pub use attributes::{attributes_of, is_noop};
pub use content::why_unfilled;
pub use fragments::Fragments;
pub use laws::{attributes_stay, each_attribute, names_in_order, unmodelled_types};
