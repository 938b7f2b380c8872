//! The language of changes to a file tree: paths, tests and programs.
#![tactic(auto)]

mod copies;
mod fronts;
mod laws;
mod names;
mod order;
mod path;
mod program;
mod reading;
mod tree;

pub use fronts::are_disjoint;
pub use laws::{path_texts, segments_of_names};
pub use names::segment;
pub use path::{Path, PathFault};
pub use program::{Entry, Program, Test};
pub use tree::{Outcome, Tree};
