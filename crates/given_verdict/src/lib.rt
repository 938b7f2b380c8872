//! The verdict on a graph of programs from the file trees in which given folders stand: the three questions one after the other. The
//! folders stand where a first run begins; the second run begins in what the first left, and a run may remove one. Where no folder is
//! given, each question is that of the graph itself, over every file tree.
#![tactic(auto)]

mod again;
mod asking;
mod behind;
mod ends;
mod first;
mod judging;
mod keeping;
mod limits;
mod refuted;
mod second;

pub use ends::run_of;
pub use first::{answer_without, settled_without};
pub use judging::judge_from;
pub use limits::check_size_with;
