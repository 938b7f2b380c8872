//! Tests of conditions.

ghost use Rattle.pp_eval.specs.Evaluating.{AnswersBy};
ghost use Rattle.catalog_semantics.specs.Effects.{test_of};

use pp_eval::{Scopes, eval, truth_at};
use pp_syntax::Expr;
use rh_base::Fault;
use std::alloc::Global;

/// The truth of a test.
pub fn test_of(alloc: Global, e: &Expr, scopes: &Scopes) -> Result<bool, Fault>
    ensures { AnswersBy (λ b. b) (test_of scopes.now e.now) result }
{
    let x = eval(alloc, e, scopes)?;
    truth_at(alloc, e.at, &x)
}
