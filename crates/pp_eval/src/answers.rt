//! What is made at a place, or refused there.

ghost use Rattle.std.specs.Prelude.{◌≡◌, ◌∷◌, IfOk};
ghost use Rattle.rh_base.specs.Refused.{IfRefused};
ghost use Rattle.pp_value.specs.declared.value.Value.TheVariants as v;
ghost use Rattle.pp_eval.specs.Evaluating.{Answers, refusal, unbound, bound_again, no_option, no_result, too_large, out_of_range, limited};

use pp_value::{Value, exceeds_limits};
use rh_base::{Fault, NoMemory, Text};
use std::alloc::Global;

/// A refusal by its number, its place and its name.
#[tactic(auto, using(crate::proofs::Refusing::is_refusal))]
pub fn refusal(alloc: Global, number: u16, at: u32, name: &str) -> Fault
    ensures { IfRefused result (λ r. r ≡ refusal number at name.now) }
{
    Fault::refused(alloc, number, at, name)
}

/// A variable as it is spelled.
fn named(alloc: Global, name: &str) -> Result<Text, NoMemory>
    ensures { IfOk result (λ text. text ≡ 36 ∷ name.now) }
{
    let mut text = Text::from_string(String::from_str(alloc, "$")?);
    text.push(name)?;
    Ok(text)
}

/// A variable has no binding.
pub fn unbound(alloc: Global, at: u32, name: &str) -> Fault
    ensures { IfRefused result (λ r. r ≡ unbound at name.now) }
{
    match named(alloc, name) {
        Ok(name) => refusal(alloc, 20, at, name.as_str()),
        Err(m) => Fault::Memory(m),
    }
}

/// The scope has a binding of the variable already.
pub fn bound_again(alloc: Global, at: u32, name: &str) -> Fault
    ensures { IfRefused result (λ r. r ≡ bound_again at name.now) }
{
    match named(alloc, name) {
        Ok(name) => refusal(alloc, 21, at, name.as_str()),
        Err(m) => Fault::Memory(m),
    }
}

/// No option of a selector is equal.
pub fn no_option(alloc: Global, at: u32) -> Fault
    ensures { IfRefused result (λ r. r ≡ no_option at) }
{
    refusal(alloc, 28, at, "selector")
}

/// The tables name no result.
pub fn no_result(alloc: Global, at: u32) -> Fault
    ensures { IfRefused result (λ r. r ≡ no_result at) }
{
    refusal(alloc, 29, at, "operand")
}

/// A value exceeds the limits.
pub fn too_large(alloc: Global, at: u32) -> Fault
    ensures { IfRefused result (λ r. r ≡ too_large at) }
{
    refusal(alloc, 32, at, "value")
}

/// A whole number leaves 64 bits.
pub fn out_of_range(alloc: Global, at: u32) -> Fault
    ensures { IfRefused result (λ r. r ≡ out_of_range at) }
{
    refusal(alloc, 33, at, "integer")
}

/// A value that is made at a place, unless it exceeds the limits.
pub fn limited(alloc: Global, at: u32, value: Value) -> Result<Value, Fault>
    ensures { Answers (limited at value) result }
{
    if exceeds_limits(&value) {
        return Err(too_large(alloc, at));
    }
    Ok(value)
}

/// A text that stands at a place.
pub fn text_at(alloc: Global, at: u32, text: &Text) -> Result<Value, Fault>
    ensures { Answers (limited at (v.Str text.now)) result }
{
    limited(alloc, at, Value::Str(text.copy(alloc)?))
}
