//! The catalog: resources, holdings and relations.
//!
//! Lists in the order of declaration. What finds things in them stands in the invariant and in no clause: references by hash,
//! and for each container its classes.
#![tactic(auto)]

mod catalog;
mod held;
mod listed;
mod refs;
mod sizes;

pub use catalog::Catalog;
pub use listed::filled;
