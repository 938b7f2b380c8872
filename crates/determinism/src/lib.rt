//! Whether a graph of programs is deterministic: by pruning, else by pairs where the folders stand that are sure before them
//! and by trees that are tried, else by formulas over what is kept, else by formulas over all.
//!
//! From what is cheap and mostly tells to what always tells: an analysis of effects, runs from a few trees, a formula for each
//! pair, a formula of an order. Each answer is proved by itself, so which way led there is free.
#![tactic(auto)]

mod asking;
mod each_pair;
mod first;
mod joining;
mod judging;
mod pairs;
mod settling;
mod whole;

pub use first::{First, Sure};
pub use joining::joined;
pub use judging::judge_order;
