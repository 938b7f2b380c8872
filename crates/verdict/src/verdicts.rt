//! Verdicts.

use cnf::{Cnf, Log};
use determinism::Sure;
use order_encode::Witness;
use proof_check::Verified;
use rh_base::Seq;

/// The questions, in the order in which they are asked.
#[derive(Debug, Drop)]
pub enum Asked {
    Deterministic,
    Idempotent,
    Succeeds,
}

/// Why a graph is deterministic, and how many programs pruning doesn't keep.
#[derive(Debug, Drop)]
pub struct Settled {
    pub pruned: u32,
    pub sure: Sure,
}

/// Whether a second run changes anything: no, since a formula was refuted; or it does in the witness's order from its tree.
#[derive(Debug, Drop)]
pub enum Second {
    Same(Verified),
    Differs(Witness),
}

/// Whether the graph succeeds: from the witness's tree, or from none, since a formula was refuted.
#[derive(Debug, Drop)]
pub enum Ends {
    From(Witness),
    Never(Verified),
}

/// What is said of a graph. Each verdict has the number of programs that pruning doesn't keep.
#[derive(Debug, Drop)]
pub enum Verdict {
    /// Two orders have different outcomes.
    NotDeterministic {
        pruned: u32,
        witness: Witness,
    },
    /// The graph is deterministic, and the other two questions are answered.
    Judged {
        pruned: u32,
        sure: Sure,
        second: Second,
        ends: Ends,
    },
    /// The budget was spent on the question that was asked last. The proofs are what was refuted to answer those before it.
    Spent {
        pruned: u32,
        asked: Asked,
        cnf: Cnf,
        log: Log,
        proofs: Seq<Verified>,
    },
}
