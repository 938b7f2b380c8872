//! The texts of orders: which references a text lists, and the text of references.
#![tactic(auto)]

mod reading;
mod writing;

pub use reading::{one_order, order_from_json};
pub use writing::order_to_json;
