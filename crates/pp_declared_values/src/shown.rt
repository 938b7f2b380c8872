//! Arguments that are shown.

ghost use Rattle.std.specs.Prelude.{◌≡◌, IfOk};
ghost use Rattle.pp_eval.specs.Evaluating.{AnswersBy};
ghost use Rattle.catalog_semantics.specs.Functions.{placed, shown_argument, shown_arguments, spaced};
ghost use Rattle.pp_declared_values.specs.Found.{failure_of};

use pp_eval::{no_result, too_large};
use pp_syntax::Expr;
use pp_value::{Value, ValueFault, show};
use rh_base::{Fault, NoMemory, Seq, Text};
use std::alloc::Global;

/// An argument at a place as a text, unless it is too large.
#[tactic(auto, using(crate::proofs::ShownLaws::too_long, crate::proofs::ShownLaws::fits))]
fn shown_argument(alloc: Global, at: u32, value: &Value) -> Result<Text, Fault>
    ensures { AnswersBy (λ text. text) (shown_argument (at, value.now)) result }
{
    match show(alloc, value) {
        Ok(text) => Ok(text),
        Err(ValueFault::Operand | ValueFault::Range) => Err(no_result(alloc, at)),
        Err(ValueFault::Large) => Err(too_large(alloc, at)),
        Err(ValueFault::Memory(m)) => Err(Fault::Memory(m)),
    }
}

/// The arguments as texts, from the left.
#[tactic(auto, using(crate::proofs::ShownLaws::next_shown))]
fn shown_arguments(alloc: Global, args: &[Expr], values: &[Value]) -> Result<Seq<Text>, Fault>
    ensures { AnswersBy (λ texts. texts) (shown_arguments (placed args.now values.now)) result }
{
    let mut texts = Seq::new(alloc);
    let mut rest = values;
    for arg in args {
        let Some((value, more)) = rest.split_first() else {
            return Ok(texts);
        };
        texts.push(shown_argument(alloc, arg.at, value)?)?;
        rest = more;
    }
    Ok(texts)
}

/// Texts with a space between them.
#[tactic(auto, using(crate::proofs::ShownLaws::spaced_first))]
fn spaced(alloc: Global, texts: &[Text]) -> Result<Text, NoMemory>
    ensures { IfOk result (λ text. text ≡ spaced texts.now) }
{
    let mut text = Text::new(alloc);
    let Some((first, rest)) = texts.split_first() else {
        return Ok(text);
    };
    text.push(first.as_str())?;
    for other in rest {
        text.push(" ")?;
        text.push(other.as_str())?;
    }
    Ok(text)
}

/// The text of a failure with these arguments.
pub fn failure(alloc: Global, args: &[Expr], values: &[Value]) -> Result<Text, Fault>
    ensures { AnswersBy (λ text. text) (failure_of (placed args.now values.now)) result }
{
    let texts = shown_arguments(alloc, args, values)?;
    Ok(spaced(alloc, texts.as_slice())?)
}
