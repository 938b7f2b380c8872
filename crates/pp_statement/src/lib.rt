//! The parser of statements and of what stands between an expression and a statement.
#![tactic(auto)]

mod chain;
mod expressions;
mod marks;
mod operand;
mod parse;
mod parser;
mod resource;
mod search;
mod statement;

pub use marks::{begins, ref_name, variable};
pub use parse::{parse_attributes, parse_block, parse_statement};
pub use parser::Parser;
