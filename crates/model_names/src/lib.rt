//! Names and paths of resources, and what a model is.
#![tactic(auto)]

mod model;
mod names;

pub use model::Model;
pub use names::{
    below, is_reserved, mark_named, mark_needed, mark_of_user, name_of, named, spelled, text_or,
    top, unless_reserved,
};
