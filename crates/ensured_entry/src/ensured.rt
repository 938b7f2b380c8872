//! Answers to the question whether a graph ensures an entry.

use cnf::{Cnf, Log};
use determinism::First;
use order_encode::Witness;
use proof_check::Verified;
use verdict::{Ends, Settled};

/// The questions about a deterministic graph, in the order in which they are asked.
#[derive(Debug, Drop)]
pub enum Late {
    Ensures,
    Succeeds,
}

/// What is said of a graph and an entry. But for the first, each answer has why the graph is deterministic.
#[derive(Debug, Drop)]
pub enum Ensured {
    /// The graph isn't known to be deterministic: two orders have different outcomes, or the budget was spent.
    First(First),
    /// The graph ensures the entry, since a formula was refuted; and whether it succeeds from some tree.
    Holds {
        settled: Settled,
        proof: Verified,
        ends: Ends,
    },
    /// It doesn't: from the witness's tree its order ends without the entry.
    Fails {
        settled: Settled,
        witness: Witness,
    },
    /// The budget was spent on the question that was asked last.
    Spent {
        settled: Settled,
        asked: Late,
        cnf: Cnf,
        log: Log,
    },
}
