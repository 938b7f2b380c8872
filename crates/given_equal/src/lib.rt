//! Whether two graphs do the same from the file trees in which given folders stand.
#![tactic(auto)]

mod comparing;
mod limits;
mod without;

pub use comparing::compare_from;
