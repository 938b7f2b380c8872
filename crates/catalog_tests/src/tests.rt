//! The tables, by what they are of.

mod answers;
mod definitions;
mod depths;
mod labels;
mod limits;
mod lines;
mod refusals;
mod resources;
mod rounds;
mod texts;
