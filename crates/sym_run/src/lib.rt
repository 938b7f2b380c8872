//! Programs run on the wires of a circuit: cells that stand for any tree over a domain, and the choice between cells and their
//! comparison.
//!
//! Symbolic execution (King 1976) by bit-blasting: what stands at a path is three wires and a content's number in binary.
//! States are merged behind a choice, as bounded model checkers of programs do it (Clarke, Kroening and Lerda 2004), so that a
//! circuit grows with the program and not with the number of ways through it. The interpreter is that of truth values too, so
//! what a formula says of a program is what a replay does.
#![tactic(auto)]

mod below;
mod bitwise;
mod cells;
mod choice;
mod codes;
mod comparison;
mod fits;
mod inputs;
mod readback;
mod sym;
mod trees;
mod values;

pub use below::is_below;
pub use choice::choose;
pub use comparison::alike;
pub use inputs::{new_code, new_codes, width_for};
pub use sym::{Sym, sym_apply};
pub use trees::any_tree;
pub use values::number_of;
