//! The text of assumptions: what resources are assumed to do that aren't modelled.
#![tactic(auto)]

mod assumed;
mod behavior;
mod laws;
mod reading;
mod subjects;

pub use assumed::{Assumed, Assumption, Assumptions, Behavior, Subject};
pub use laws::assumption_texts;
pub use reading::assumptions_from_json;
