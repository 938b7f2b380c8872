//! Counterexamples from smaller trees: what the runs don't need is left out.
//!
//! Delta debugging (Zeller and Hildebrandt 2002) in its hierarchical form (Misherghi and Su 2006): a path goes with all that
//! lies below it, and those near the root are tried first.
#![tactic(auto)]

mod given;
mod question;
mod removal;
mod shrinking;

pub use shrinking::{smaller_again, smaller_apart};
