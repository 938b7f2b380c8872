//! The tables, by what they are of.

mod answers;
mod expressions;
mod manifests;
mod nesting;
mod statements;
mod tokens;
