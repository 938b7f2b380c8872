//! What is told of a repair: the arrows that are missing, as they are written in Puppet.
#![tactic(auto)]

mod lines;
mod quoting;
mod telling;

pub use quoting::quoted_ref;
pub use telling::told;
