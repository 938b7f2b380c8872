//! The parser of expressions: their tokens and operators, the values of their tokens, and the nodes of their trees.
#![tactic(auto)]

mod expression;
mod marks;
mod nodes;
mod parse;
mod unquoting;
mod values;

pub use expression::separator;
pub use marks::{expect, first_at, front_of, mark, turns};
pub use parse::{parse_expression, parse_postfix, parse_reference, parse_string};
pub use values::{name_of, number, sq, text_of};
