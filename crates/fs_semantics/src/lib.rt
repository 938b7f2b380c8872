//! What the other crates' contracts speak of: file trees, programs, orders, and the laws about them. The definitions are
//! in `specs/`; each function here does nothing, and its contract is a law that callers may use.
#![tactic(auto)]

mod file_laws;
mod order_laws;
mod program_laws;
mod tree_laws;

pub use file_laws::plain_files;
pub use order_laws::{commuting_programs, counterexamples, linear_extensions, neighbours};
pub use program_laws::{changes, constructs, tests};
pub use tree_laws::{file_trees, paths};
