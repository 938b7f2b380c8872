//! The graph with a guard in front of it, which lets a run begin only where given folders stand.
#![tactic(auto)]

mod guarding;
mod laws;
mod pairs;

pub use guarding::{Guarded, guard_of, guarded_programs, with_first, with_guard};
pub use laws::guard_is_pruned;
