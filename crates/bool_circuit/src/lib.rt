//! Circuits of gates over numbered wires, in which equal gates are shared: and-inverter graphs with choices (if-then-else gates),
//! built with structural hashing. Questions about programs are stated as such circuits, and `cnf` makes formulas of them.
#![tactic(auto)]

mod circuit;
mod gate;

pub use circuit::Circuit;
pub use gate::{Gate, Wire};
