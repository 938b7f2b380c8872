//! The tables, by what they are of.

mod limits;
mod outside;
mod values;
