//! Questions about an order of programs as formulas: do two allowed orders end differently, do two programs, does a second run
//! change what the first one left, does an order end in a tree, or in one without a wanted entry, do orders of two lists of
//! programs end differently, each from a tree over the domain?
//!
//! A question is a circuit whose goal can be true exactly where the answer is yes: runs from cells that stand for any tree over
//! the domain, as in bounded model checking (Biere, Cimatti, Clarke and Zhu 1999). Nothing lies behind a bound, since programs
//! have no loops and a tree over the domain stands for every tree. What is said of two runs from one tree is asked by
//! self-composition (Barthe, D'Argenio and Rezk 2004): both begin with the same cells, and equal gates of theirs are one.
#![tactic(auto)]

mod again;
mod asking;
mod asks;
mod ends;
mod extension;
mod fork;
mod goal;
mod known;
mod missing;
mod order;
mod pairs;
mod parting;
mod plan;
mod question;
mod read;
mod table;
mod wanted;
mod witness;

pub use extension::{ask_some, ask_twice};
pub use missing::ask_missing;
pub use order::ask_order;
pub use pairs::ask_pairs;
pub use parting::ask_parting;
pub use question::Question;
pub use witness::Witness;
