//! What the statements of a manifest do.
//!
//! An evaluator that walks the tree and changes one state. The body of a class runs where the class is declared; those of
//! defined types wait for the rounds (`pp_compile`), and so does what collectors match.
#![tactic(auto)]

mod arguments;
mod cases;
mod conditions;
mod fitting;
mod frame;
mod laws;
mod simple;
mod statement;
mod ties;

pub use laws::{cases_run_one_block, chosen_blocks_are_own, conditions_run_one_block};
pub use statement::{run_block, run_statement};
