//! Unit propagation over a clause database, a trail and watch lists, as a solver by conflict-driven clause learning needs it, built as
//! MiniSat's is (Eén and Sörensson 2003). What holds between two literals that are propagated is `IsReady` (`specs/Watching`).
//!
//! What is called otherwise here, or in one way of several:
//!
//! - a *literal* is its index, a 32-bit number (`literal`); it *holds* where it is true under the assignment on the trail;
//! - the *reason* of a literal is its antecedent, the clause that *gave* it; clauses are *at rest* where unit propagation finds no more.
#![tactic(auto)]

mod literal;
mod propagate;
mod store;
mod trail;
mod watches;

pub use literal::opposite;
pub use propagate::Propagator;
pub use store::Store;
pub use trail::Trail;
pub use watches::{Watcher, Watches};
