//! Parsing: the tree that tokens spell, or why they are refused.
#![tactic(auto)]

mod checked;
mod depth;
mod items;
mod laws;
mod left_out;
mod parsing;
mod types;
mod words;

pub use laws::{one_manifest, words_in_holes_are_variables};
pub use parsing::parse;
