//! The tables, by what they are of.

mod answers;
mod catalogs;
mod finding;
mod limits;
mod links;
mod refusals;
mod texts;
