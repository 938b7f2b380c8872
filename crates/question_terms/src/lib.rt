//! What a question about a graph of programs is asked on: the folders that every host has, how large the graph may be, and how many
//! conflicts there are for an answer.
#![tactic(auto)]

mod terms;

pub use terms::Terms;
