//! Clauses, formulas in conjunctive normal form (CNF) and proofs by resolution, and the formula that a circuit's goal can be true
//! (the Tseitin transformation). The solver keeps literals by the same indexes: it cites `specs/Store`, and the laws about indexes in
//! `proofs/StoreLaws`.
#![tactic(auto)]

mod clause;
mod encode;
mod formula;
mod lit;
mod log;
mod text;

pub use clause::Clause;
pub use encode::{from_circuit, from_circuit_with};
pub use formula::Cnf;
pub use lit::Lit;
pub use log::{Link, Log, Step};
pub use text::write_proof;
