//! The checker of proofs by resolution: what it accepts has no model. The logs are in TraceCheck's manner, with each pivot named; so
//! the checker searches for nothing, and rests on nothing of the solver.
#![tactic(auto)]

mod fault;
mod laws;
mod literals;
mod steps;
mod text;

ghost use Rattle.proof_check.specs.Writing.{WrittenProofsAreRead, RightLogsAreWritable};

pub use fault::{Bad, Cause, CheckFault};
pub use laws::{accepted_logs_have_no_fault, one_list_of_proofs};
pub use steps::{Verified, check};
pub use text::read_proofs;

/// What `write_proof` writes of formulas and logs whose numbers fit, behind the line that says how many there are, spells
/// just these. Accepted and working logs are such.
pub fn written_proofs_are_read()
    ensures read { WrittenProofsAreRead }
    ensures right { RightLogsAreWritable }
{}
