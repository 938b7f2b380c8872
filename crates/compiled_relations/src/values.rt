//! The values of relations. A text is read twice: once where it is asked whether it is a reference, which comes ahead of all
//! that it may find, and once where it finds; so no list of references has to be kept between.

ghost use Rattle.std.specs.Prelude.{◌≡◌, is_some, IfOk};
ghost use Rattle.rh_base.specs.Refused.{IfRefused};
ghost use Rattle.pp_eval.specs.Evaluating.{AnswersBy, refusal};
ghost use Rattle.pp_value.specs.Values.{is_undef};
ghost use Rattle.compiled_text.specs.Reading.{reference_of};
ghost use Rattle.compiled_relations.specs.Finding.{found_by, name_and_line};
ghost use Rattle.compiled_relations.specs.Values.{are_references, if_found, related_to};
ghost use Rattle.compiled_relations.specs.Lists.{are_all_references, related_to_all};

use crate::index::Index;
use crate::naming::name_and_line;
use compiled_text::{CompiledResource, reference_of};
use pp_eval::refusal;
use pp_value::Value;
use rh_base::{Fault, Misread, NoMemory, Seq};
use std::alloc::Global;

/// Whether a text is a reference.
fn is_reference(alloc: Global, text: &str) -> Result<bool, NoMemory>
    ensures { IfOk result (λ b. b ≡ is_some (reference_of text.now)) }
{
    match reference_of(alloc, text) {
        Ok(_) => Ok(true),
        Err(Misread::Form) => Ok(false),
        Err(Misread::Memory(m)) => Err(m),
    }
}

fn is_undef(value: &Value) -> bool
    ensures { result ≡ is_undef value.now }
{
    matches!(value, Value::Undef)
}

/// Whether a value is a text that is a reference, or a list of such values at any depth. In a list undef counts as not there.
#[cycle(references)]
#[tactic(auto, using(crate::proofs::ListLaws::all_references))]
pub fn are_references(alloc: Global, value: &Value) -> Result<bool, NoMemory>
    ensures { IfOk result (λ b. b ≡ are_references value.now) }
{
    match value {
        Value::Str(text) => is_reference(alloc, text.as_str()),
        Value::List(items) => are_all_references(alloc, items.as_slice()),
        _ => Ok(false),
    }
}

#[cycle(references)]
fn are_all_references(alloc: Global, items: &[Value]) -> Result<bool, NoMemory>
    ensures { IfOk result (λ b. b ≡ are_all_references items.now) }
{
    for item in items {
        if is_undef(item) {
            continue;
        }
        if !are_references(alloc, item)? {
            return Ok(false);
        }
    }
    Ok(true)
}

/// The refusal by a reference that finds nothing.
fn nothing_found(alloc: Global, r: &CompiledResource, text: &str) -> Fault
    ensures { IfRefused result (λ x. x ≡ refusal 40 0 (name_and_line r.now text.now)) }
{
    match name_and_line(alloc, r, text) {
        Ok(name) => refusal(alloc, 40, 0, name.as_str()),
        Err(m) => Fault::Memory(m),
    }
}

/// What a text finds.
fn found_value(
    alloc: Global,
    index: &Index,
    r: &CompiledResource,
    text: &str,
) -> Result<Value, Fault>
    ensures { AnswersBy (λ x. x) (if_found r.now text.now (found_by index.now text.now)) result }
{
    match index.found_by(alloc, text)? {
        Some(found) => Ok(Value::Refer(found)),
        None => Err(nothing_found(alloc, r, text)),
    }
}

/// The value of a relation of a resource, with what each text finds. Another value counts as undef.
#[cycle(related)]
#[tactic(auto, using(crate::proofs::ListLaws::related_list))]
pub fn related_to(
    alloc: Global,
    index: &Index,
    r: &CompiledResource,
    value: &Value,
) -> Result<Value, Fault>
    ensures { AnswersBy (λ x. x) (related_to index.now r.now value.now) result }
{
    match value {
        Value::Str(text) => found_value(alloc, index, r, text.as_str()),
        Value::List(items) => {
            let related = related_to_all(alloc, index, r, items.as_slice())?;
            Ok(Value::list(alloc, related)?)
        }
        _ => Ok(Value::Undef),
    }
}

#[cycle(related)]
fn related_to_all(
    alloc: Global,
    index: &Index,
    r: &CompiledResource,
    items: &[Value],
) -> Result<Seq<Value>, Fault>
    ensures { AnswersBy (λ xs. xs) (related_to_all index.now r.now items.now) result }
{
    let mut values = Seq::new(alloc);
    for item in items {
        if is_undef(item) {
            continue;
        }
        values.push(related_to(alloc, index, r, item)?)?;
    }
    Ok(values)
}
