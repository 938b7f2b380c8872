//! What may be wanted of a tree: an entry at a path. Which graphs ensure it, and over which domain that can be asked. The
//! definitions are in `specs/`.
#![tactic(auto)]

mod laws;
mod wanted;

pub use laws::wanted_entries;
pub use wanted::Wanted;
