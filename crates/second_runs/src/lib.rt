//! Whether a second run of a deterministic graph changes anything. The first extension stands for all allowed orders, so the formula
//! has no order in it; groups that don't touch one another are asked each by itself.
#![tactic(auto)]

mod groups;
mod second;

pub use groups::same_in_groups;
pub use second::ask_second;
