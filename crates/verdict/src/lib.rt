//! The words of a verdict: what is answered to the three questions, whether a graph is deterministic (`determinism`), whether a
//! second run changes anything (`second_runs`), and whether it succeeds from some tree (`success`).
#![tactic(auto)]

mod verdicts;

pub use verdicts::{Asked, Ends, Second, Settled, Verdict};
