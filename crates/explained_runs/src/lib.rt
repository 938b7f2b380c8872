//! The lines that explain where runs part: two orders that end apart from a tree, a second run that changes what the first left, and
//! a run that fails from the tree of the given folders alone.
#![tactic(auto)]

mod apart;
mod exchange;
mod fails;
mod given;
mod pieces;
mod runs;
mod twice;

pub use apart::apart_lines;
pub use fails::nothing_line;
pub use twice::again_lines;
