//! What the three questions are asked of.

ghost use Rattle.std.specs.Prelude.{◌≤◌};

use fs_lang::Path;
use plans::Plan;

/// A plan, from the file trees in which the given folders stand, and how many conflicts each question has.
#[derive(Clone, Copy, Drop)]
pub(crate) struct Asking<'a> {
    pub plan: &'a Plan<'a>,
    pub given: &'a [Path],
    pub budget: u64,
    pub ghost some: { 1 ≤ budget },
}
