//! Runs of programs on file trees, by the one interpreter.
#![tactic(auto)]

mod comparing;
mod cover;
mod exchange;
mod ground;
mod runs;
mod standing;
mod told;

pub use comparing::same_outcome;
pub use exchange::{Exchange, end_alike_exchanged};
pub use ground::Ground;
pub use runs::{are_below, replay, run};
