//! The tables, by what they are of.

mod answers;
mod assumptions;
mod edits;
mod files;
mod links;
mod refusals;
mod types;
