//! The tables, by what they are of.

mod answers;
mod found;
mod listings;
