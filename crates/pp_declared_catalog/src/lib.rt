//! Which resources a collector matches, and the catalog of a state after the rounds.
#![tactic(auto)]

mod counting;
mod matching;
mod relating;

pub use counting::few_enough;
pub use matching::matches;
pub use relating::catalog_in;
