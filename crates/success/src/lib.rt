//! Whether a deterministic graph succeeds: whether some file tree is there from which the first extension, which stands for all
//! allowed orders, ends in a tree.
#![tactic(auto)]

mod asking;

pub use asking::ask_end;
