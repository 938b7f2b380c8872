//! What is wrong with a log: the first step that fails, and why.

ghost use Rattle.std.specs.Prelude.{◌≡◌};
ghost use Rattle.proof_check.specs.declared.fault.StepFault.TheVariants.{Memory};

use cnf::Clause;
use rh_base::NoMemory;

/// Why a log isn't accepted.
#[derive(Debug, Drop)]
pub enum Cause {
    /// The log has no step.
    NoStep,
    /// This isn't the number of an earlier clause.
    NoClause(u64),
    /// At this link, counted from 1, the pivot or its opposite is missing.
    NoPivot(u64),
    /// The chain gave this clause, which isn't the step's.
    Resolvent(Clause),
    /// The last step isn't empty.
    NotEmpty,
}

/// The first step that fails, counted from 1, and its cause. Where the log has no step, the number is 0.
#[derive(Debug, Drop)]
pub struct Bad {
    pub step: u64,
    pub cause: Cause,
}

/// Why a log wasn't accepted, or that memory was refused.
#[derive(Debug, Drop)]
pub enum CheckFault {
    Bad(Bad),
    Memory(NoMemory),
}

/// Why a step wasn't found right.
#[derive(Debug, Drop)]
pub(crate) enum StepFault {
    Cause(Cause),
    Memory(NoMemory),
}

impl From<NoMemory> for StepFault {
    ghost from_gives = { λ m e. e ≡ Memory m };

    fn from(m: NoMemory) -> Self {
        StepFault::Memory(m)
    }
}
