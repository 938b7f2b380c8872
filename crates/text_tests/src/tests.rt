//! The tables, by what they are of.

mod names;
mod programs;
mod trees;
