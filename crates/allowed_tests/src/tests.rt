//! The tables, by what they are of.

mod allowed;
mod texts;
