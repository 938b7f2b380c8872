//! The tables, by what they are of.

mod answers;
mod class_data;
mod expressions;
mod limits;
mod names;
mod types;
