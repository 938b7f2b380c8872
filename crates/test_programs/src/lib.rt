//! Programs in words, as the tables of several test crates have them.
#![tactic(auto)]

mod parts;
mod questions;
mod words;

pub use words::{program, programs};
