//! What resources are taken to do: the definitions, in `specs/`, and the types of which they speak.
#![tactic(auto)]

mod kinds;
mod states;

pub use kinds::{Accepts, Cause, Kind, ModelFault};
pub use states::{Ensure, FileState, States, Units};
