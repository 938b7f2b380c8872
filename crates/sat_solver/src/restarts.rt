//! When the search restarts: the pauses, in conflicts, are Luby's numbers 1, 1, 2, 1, 1, 2, 4, .. times 50 (Luby, Sinclair and
//! Zuckerman 1993). They are computed from two numbers, by Knuth's "reluctant doubling". The factor was measured: with 50 in place of
//! 100 colouring takes a third less, pigeons a tenth more. No contract says which pauses they are: a restart changes no answer.

/// How many steps a restart comes after, for each one in Luby's numbers.
const UNIT: u64 = 50;

/// The steps that are left until the next restart. The pauses are multiples of Luby's numbers 1, 1, 2, 1, 1, 2, 4, .., of
/// which `length` is one; `turn` counts the runs up to a power of two.
#[derive(Clone, Copy)]
pub(crate) struct Restarts {
    left: u64,
    turn: u64,
    length: u64,
}

impl Restarts {
    pub(crate) fn new() -> Restarts {
        Restarts {
            left: UNIT,
            turn: 1,
            length: 1,
        }
    }

    /// Counts a step; whether the search is to begin anew.
    pub(crate) fn is_due(&mut self) -> bool {
        if self.left > 1 {
            self.left -= 1;
            return false;
        }
        if self.turn & self.turn.wrapping_neg() == self.length {
            self.turn = self.turn.saturating_add(1);
            self.length = 1;
        } else {
            self.length = self.length.saturating_mul(2);
        }
        self.left = self.length.saturating_mul(UNIT);
        true
    }
}
