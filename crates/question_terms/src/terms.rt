//! The terms of a question.

ghost use Rattle.std.specs.Prelude.{◌≡◌, ◌≤◌};
ghost use Rattle.question_terms.specs.Terms.{budget_of};

use fs_lang::Path;
use host_limits::Limits;
use rh_base::Seq;

/// What a question is asked on.
#[derive(Debug, Drop)]
pub struct Terms {
    /// The folders that stand in each file tree in which a first run begins.
    pub given: Seq<Path>,
    /// How large a graph may be.
    pub limits: Limits,
    /// How many conflicts a question has, if that is limited.
    pub conflicts: Option<u64>,
}

impl Terms {
    /// How many conflicts a question has. Where none are given, `u64::MAX` stands for no budget; 0, which no words give, counts as 1.
    pub fn budget(&self) -> u64
        ensures budget { result ≡ budget_of self.now.conflicts }
        ensures some { 1 ≤ result }
    {
        match self.conflicts {
            Some(0) => 1,
            Some(conflicts) => conflicts,
            None => u64::MAX,
        }
    }
}
