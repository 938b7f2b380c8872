//! The state between two statements, and the single changes of it.
#![tactic(auto)]

mod adding;
mod bodies;
mod defaults;
mod filling;
mod functions;
mod ran;
mod references;
mod rounds;
mod state;

pub use references::copy_refs;
pub use state::State;
