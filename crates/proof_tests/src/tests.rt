//! The tables, by what they are of.

mod checking;
mod circuits;
mod common;
mod formulas;
mod trimming;
