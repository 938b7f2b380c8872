//! Trees that are tried before any formula is made.
#![tactic(auto)]

mod ending;
mod first;
mod placing;
mod standing;
mod trying;
mod used;

pub use ending::first_end;
pub use first::first_trees;
pub use placing::Place;
pub use trying::{Difference, try_pairs, try_tree};
