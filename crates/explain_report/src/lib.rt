//! What is explained of programs and the order between them: whether they are deterministic, whether a second run changes anything,
//! and whether they succeed from some tree; and of a no where to look.
#![tactic(auto)]

mod lines;
mod parting;
mod sure;
mod telling;

pub use telling::told;
