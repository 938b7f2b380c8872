//! What the parsers' contracts speak of: readers, functions that find a tree at the front of tokens, and the laws
//! that each finds just what its rule of the grammar spells. The definitions are in `specs/`, the laws that the
//! proofs of the parsers rest on in `proofs/`.
#![tactic(auto)]

mod laws;
mod misread;

pub use laws::{expressions_are_read, one_expression, one_statement, statements_are_read};
pub use misread::{Misread, Read};
