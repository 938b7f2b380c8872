//! Whether every run of a graph that ends has a wanted entry, from the file trees in which given folders stand.
#![tactic(auto)]

mod ensuring;
mod limits;
mod without;

pub use ensuring::judge_entry_from;
