//! Which block of a `case` is chosen.

ghost use Rattle.std.specs.Prelude.{◌≡◌, is_none, option_map};
ghost use Rattle.std.specs.List.{list_any};
ghost use Rattle.pp_eval.specs.Evaluating.{AnswersBy};
ghost use Rattle.pp_declarations.specs.Choosing.{equal_arm, default_arm, chosen_option};

use pp_eval::{Blame, Scopes, eval, is_among};
use pp_syntax::{CaseArm, Expr, Stmt};
use pp_value::Value;
use rh_base::Fault;
use std::alloc::Global;

/// The block of the first arm with an equal option.
fn equal_arm<'t>(
    alloc: Global,
    at: u32,
    x: &Value,
    arms: &'t [CaseArm],
    scopes: &Scopes,
) -> Result<Option<&'t [Stmt]>, Fault>
    ensures { AnswersBy (λ found. option_map (λ body. body.now) found) (equal_arm scopes.now at x.now arms.now) result }
{
    for arm in arms {
        if is_among(alloc, Blame::Case(at), arm.options.as_slice(), x, scopes)? {
            return Ok(Some(arm.body.as_slice()));
        }
    }
    Ok(None)
}

fn has_default(options: &[Option<Expr>]) -> bool
    ensures { result ≡ list_any is_none options.now }
{
    for option in options {
        if option.is_none() {
            return true;
        }
    }
    false
}

/// The block of the first arm with `default`.
fn default_arm(arms: &[CaseArm]) -> Option<&[Stmt]>
    ensures { option_map (λ body. body.now) result ≡ default_arm arms.now }
{
    for arm in arms {
        if has_default(arm.options.as_slice()) {
            return Some(arm.body.as_slice());
        }
    }
    None
}

/// The block of an equal option, or else that of `default`, or none.
pub fn chosen_option<'t>(
    alloc: Global,
    e: &Expr,
    arms: &'t [CaseArm],
    scopes: &Scopes,
) -> Result<Option<&'t [Stmt]>, Fault>
    ensures { AnswersBy (λ found. option_map (λ body. body.now) found) (chosen_option scopes.now e.now arms.now) result }
{
    let x = eval(alloc, e, scopes)?;
    match equal_arm(alloc, e.at, &x, arms, scopes)? {
        Some(body) => Ok(Some(body)),
        None => Ok(default_arm(arms)),
    }
}
