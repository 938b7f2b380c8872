//! Answers to the first question.

use cnf::{Cnf, Log};
use order_encode::Witness;
use proof_check::Verified;

/// Why a graph is deterministic: pruning kept nothing, or a formula was refuted.
#[derive(Debug, Drop)]
pub enum Sure {
    Pruned,
    Proved(Verified),
}

/// Whether a graph is deterministic. Each answer has the number of programs that pruning doesn't keep.
#[derive(Debug, Drop)]
pub enum First {
    Sure { pruned: u32, sure: Sure },
    /// It isn't: two orders have different outcomes.
    Differs { pruned: u32, witness: Witness },
    /// The budget was spent on this formula, with this log.
    Spent { pruned: u32, cnf: Cnf, log: Log },
}
