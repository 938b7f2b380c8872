//! Values that become keys, or parts of a text.

ghost use Rattle.std.specs.Prelude.{◌≡◌, ◌++◌, IfOk};
ghost use Rattle.pp_value.specs.Shown.{shown_int};
ghost use Rattle.pp_eval.specs.Evaluating.{AnswersBy, if_there};
ghost use Rattle.pp_eval.specs.Evaluation.{key_of, limited_text, longer};

use crate::answers::{no_result, too_large};
use pp_value::{Value, ValueFault, show};
use rh_base::limits::VALUE_SIZE;
use rh_base::{Fault, NoMemory, Text};
use std::alloc::Global;

fn shown_int(alloc: Global, n: i64) -> Result<Text, NoMemory>
    ensures { IfOk result (λ text. text ≡ shown_int n) }
{
    Ok(Text::from_string(format!(in alloc; "{n}")?))
}

/// The key that a value is in a map: a text, or a number as it is shown.
pub fn key_of(alloc: Global, at: u32, key: Value) -> Result<Text, Fault>
    ensures { AnswersBy (λ text. text) (if_there at (key_of key)) result }
{
    match key {
        Value::Str(text) => Ok(text),
        Value::Int(n) => Ok(shown_int(alloc, n)?),
        _ => Err(no_result(alloc, at)),
    }
}

/// Appends a piece to a text, which is then not too large for a value.
fn push_within(alloc: Global, at: u32, piece: &str, text: &mut Text) -> Result<(), Fault>
    ensures { AnswersBy (λ done. text.new) (limited_text at (text.old ++ piece.now)) result }
{
    text.push(piece)?;
    if text.len() as u64 >= VALUE_SIZE {
        return Err(too_large(alloc, at));
    }
    Ok(())
}

/// Appends a member's value to the text in double quotes that stands at a place.
#[tactic(auto, using(crate::proofs::TextLaws::too_long))]
pub fn push_shown(
    alloc: Global,
    whole: u32,
    at: u32,
    value: &Value,
    text: &mut Text,
) -> Result<(), Fault>
    ensures { AnswersBy (λ done. text.new) (longer whole text.old at value.now) result }
{
    match show(alloc, value) {
        Ok(shown) => push_within(alloc, whole, shown.as_str(), text),
        Err(ValueFault::Operand | ValueFault::Range) => Err(no_result(alloc, at)),
        Err(ValueFault::Large) => Err(too_large(alloc, whole)),
        Err(ValueFault::Memory(m)) => Err(Fault::Memory(m)),
    }
}
