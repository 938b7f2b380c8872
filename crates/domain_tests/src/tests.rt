//! The tables, by what they are of.

mod domains;
mod footprints;
mod parts;
mod pruning;
mod weights;
mod words;
