//! Decisions of a solver by conflict-driven clause learning: which literal is set next, where unit propagation finds no more.
//!
//! Variables are ordered by their activity in the latest conflicts (`activity`), and what is chosen is tested against the trail
//! (`decide`). So the contract says only that the literal is unassigned, and that there is none where each variable has a value.
#![tactic(auto)]

mod activity;
mod decide;

pub use activity::Activity;
pub use decide::next_literal;
