//! The tables, by what they are of.

mod answers;
mod paths;
mod resources;
mod runs;
