//! Setting aside programs whose order doesn't matter, and the pairs of programs whose order may matter.
//!
//! The idea is that of partial-order reduction: orders that differ by exchanges of independent programs end alike, so one of
//! them is enough (Mazurkiewicz 1977, Godefroid 1996). Independent are programs whose footprints are apart (`effect_sets`). It
//! comes before any formula, since it costs a look at each pair, where a formula has an order of all programs.
#![tactic(auto)]

mod doubtful;
mod laws;
mod marks;
mod matrix;
mod moves;
mod numbered;
mod numbers;
mod proper;
mod search;
mod settling;
mod sure;

pub use doubtful::{doubtful_pairs, touching_pairs, unordered};
pub use laws::{pruning, sure_pairs};
pub use proper::are_proper;
pub use settling::{Pruned, prune};
