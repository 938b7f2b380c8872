//! Printing: the canonical text of a manifest.
#![tactic(auto)]

mod expression;
mod item;
mod laws;
mod manifest;
mod resource;
mod search;
mod statement;
mod types;
mod words;

pub use laws::{
    canonical_text_is_read, fewest_backslashes, same_trees_print_alike, words_spell_again,
};
pub use manifest::print;
