//! Which block of an `if` is chosen.

ghost use Rattle.pp_eval.specs.Evaluating.{AnswersBy};
ghost use Rattle.pp_declarations.specs.Choosing.{chosen_arm};

use pp_declared_values::test_of;
use pp_eval::Scopes;
use pp_syntax::{Arm, Stmt};
use rh_base::Fault;
use std::alloc::Global;

/// The block of the first arm whose test is true, or else the last.
pub fn chosen_arm<'t>(
    alloc: Global,
    arms: &'t [Arm],
    other: &'t [Stmt],
    scopes: &Scopes,
) -> Result<&'t [Stmt], Fault>
    ensures { AnswersBy (λ body. body.now) (chosen_arm scopes.now arms.now other.now) result }
{
    for arm in arms {
        if test_of(alloc, &arm.test, scopes)? {
            return Ok(arm.body.as_slice());
        }
    }
    Ok(other)
}
