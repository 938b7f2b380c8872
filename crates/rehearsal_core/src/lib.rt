//! What the program answers: from words, a shelf and two sinks to a status.
#![tactic(auto)]

mod bytes;
mod checking;
mod inputs;
mod migrating;
mod run;
mod sure;
mod tell;
mod workloads;

pub use run::rehearse;
pub use sure::rehearse_in_memory;
pub use tell::{out_of_memory, tell_usage};
