//! Answers to the question which arrows are missing.

use cnf::{Cnf, Log};
use rh_base::Seq;

/// Arrows that repair a graph, each from the resource that goes first to the other, by their numbers.
#[derive(Debug, Drop)]
pub enum Repaired {
    Done {
        added: Seq<(u32, u32)>,
    },
    /// The budget was spent on this formula, with this log, when these arrows were added.
    Spent {
        added: Seq<(u32, u32)>,
        cnf: Cnf,
        log: Log,
    },
}
