//! Whether two graphs do the same: over every file tree and all orders of both, or a file tree from which they end differently.
//!
//! Equivalence checking by a miter: where both are deterministic one run of each stands for all orders, so the formula needs no
//! variables for orders. The runs begin with the same wires and equal gates are one, as in Kuehlmann and Krohm (1997), so what
//! both do alike in equal turns is the same wires, and the formula of two graphs that are the same is false as it stands.
#![tactic(auto)]

mod asking;
mod compared;
mod comparing;
mod joining;
mod matching;
mod trying;

pub use compared::Compared;
pub use comparing::compare;
pub use joining::paths_of_both;
