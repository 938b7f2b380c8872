//! The tables, by what they are of.

mod differences;
mod failures;
mod places;
mod smaller;
