//! Whether every run of a graph that ends has a wanted entry: over every file tree and all orders, or a tree and an order whose run
//! ends without it.
#![tactic(auto)]

mod ensured;
mod ensuring;
mod missing;
mod probing;
mod trying;

pub use ensured::{Ensured, Late};
pub use ensuring::judge_entry;
pub use probing::paths_with_probe;
