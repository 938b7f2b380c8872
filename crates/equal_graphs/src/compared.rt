//! Answers to the question whether two graphs do the same.

use cnf::{Cnf, Log};
use determinism::First;
use fs_lang::Tree;
use proof_check::Verified;
use verdict::Settled;

/// What is said of two graphs.
#[derive(Debug, Drop)]
pub enum Compared {
    /// The left graph isn't known to be deterministic: two orders have different outcomes, or the budget was spent.
    Left(First),
    /// The left one is, and the right one isn't known to be.
    Right {
        left: Settled,
        right: First,
    },
    /// They do the same, since a formula was refuted.
    Equal {
        left: Settled,
        right: Settled,
        proof: Verified,
    },
    /// They don't: from the tree their first extensions have different outcomes.
    Differ {
        left: Settled,
        right: Settled,
        tree: Tree,
    },
    /// The budget was spent on whether they do the same, on this formula with this log.
    Spent {
        left: Settled,
        right: Settled,
        cnf: Cnf,
        log: Log,
    },
}
