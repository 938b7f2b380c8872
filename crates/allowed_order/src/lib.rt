//! Orders that a text names: which of the plain resources comes when.
#![tactic(auto)]

mod laws;
mod names;
mod naming;
mod order;

pub use laws::plain_resources_are_told_apart;
pub use order::order_of;
