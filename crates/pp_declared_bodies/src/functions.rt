//! Functions that declare nothing.

ghost use Rattle.std.specs.Prelude.{map};
ghost use Rattle.pp_eval.specs.Evaluating.{AnswersBy};
ghost use Rattle.catalog_semantics.specs.States.{in_turn};
ghost use Rattle.catalog_semantics.specs.Functions.{placed, realizes, fails};

use pp_declaration_state::State;
use pp_declared_values::{failure, references_in};
use pp_eval::{no_result, refusal};
use pp_syntax::Expr;
use pp_value::Value;
use rh_base::Fault;
use std::alloc::Global;

/// Notes the references of an argument, which are to be realized.
fn realize_one(
    alloc: Global,
    at: u32,
    place: u32,
    value: &Value,
    state: &mut State,
) -> Result<(), Fault>
    ensures { AnswersBy (λ done. state.new) (realizes at (place, value.now) state.old) result }
{
    let Some(refs) = references_in(alloc, value)? else {
        return Err(no_result(alloc, place));
    };
    state.want_all(at, refs.as_slice())?;
    Ok(())
}

/// Notes the references of all arguments, which are to be realized.
pub fn realize_all(
    alloc: Global,
    at: u32,
    args: &[Expr],
    values: &[Value],
    state: &mut State,
) -> Result<(), Fault>
    ensures { AnswersBy (λ done. state.new) (in_turn (map (realizes at) (placed args.now values.now)) state.old) result }
{
    let mut rest = values;
    for arg in args {
        let Some((value, more)) = rest.split_first() else {
            return Ok(());
        };
        match realize_one(alloc, at, arg.at, value, state) {
            Ok(()) => {}
            Err(fault) => return Err(fault),
        }
        rest = more;
    }
    Ok(())
}

/// What `fail` refuses.
pub fn fail_with(
    alloc: Global,
    at: u32,
    args: &[Expr],
    values: &[Value],
    state: &State,
) -> Result<(), Fault>
    ensures { AnswersBy (λ done. state.now) (fails at (placed args.now values.now) state.now) result }
{
    let text = failure(alloc, args, values)?;
    Err(refusal(alloc, 30, at, text.as_str()))
}
