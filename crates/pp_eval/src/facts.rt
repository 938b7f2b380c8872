//! The facts of a machine, from JSON.

ghost use Rattle.std.specs.Prelude.{◌≡◌, IfOk, IfErr, OnOk, codes};
ghost use Rattle.std.specs.List.{AllByRecursion};
ghost use Rattle.rh_base.specs.Refused.{IfRefused, IsRefusal};
ghost use Rattle.serde_json.specs.View.{view, items_view, members_view};
ghost use Rattle.pp_value.specs.declared.value.Value.{Value as V};
ghost use Rattle.pp_value.specs.Proper.{IsProper};
ghost use Rattle.pp_value.specs.Values.{HasDistinctKeys, with_pair};
ghost use Rattle.pp_eval.specs.Facts.{fact_of, facts_of, pairs_of, AreFacts};

use pp_value::{Pairs, Value, distinct_pairs_are_kept, pairs_stay_proper, wholes_are_proper};
use rh_base::{Fault, NoMemory, Seq, Text};
use serde_json::{Category, Map, Value as Json};
use std::alloc::Global;

/// The value of what JSON has: whole numbers of 64 bits, texts, truth values, null as undef, arrays and
/// objects, whose pairs come in the byte order of their keys; other numbers are opaque.
#[cycle(value_of_json)]
#[tactic(auto, using(crate::proofs::FactLaws::of_array, crate::proofs::FactLaws::of_object))]
pub fn value_of_json(alloc: Global, json: &Json) -> Result<Value, NoMemory>
    ensures value { IfOk result (λ x. x ≡ fact_of (view json.now)) }
    ensures proper { IfOk result IsProper }
{
    wholes_are_proper();
    match json {
        Json::Null => Ok(Value::Undef),
        Json::Bool(b) => Ok(Value::Bool(*b)),
        Json::Number(n) => match n.as_i64() {
            Some(n) => Ok(Value::Int(n)),
            None => Ok(Value::Opaque),
        },
        Json::String(text) => {
            let text = String::from_str(alloc, text.as_str())?;
            Ok(Value::Str(Text::from_string(text)))
        }
        Json::Array(items) => {
            let values = values_of_json(alloc, items)?;
            Value::list(alloc, Seq::from_vec(values))
        }
        Json::Object(members) => Ok(Value::Map(pairs_of_json(alloc, members)?)),
    }
}

#[cycle(value_of_json)]
fn values_of_json(alloc: Global, items: &Vec<Json>) -> Result<Vec<Value>, NoMemory>
    ensures values { IfOk result (λ values. values.items ≡ facts_of (items_view items.now.items)) }
    ensures proper { IfOk result (λ values. AllByRecursion IsProper values.items) }
{
    let mut values = Vec::new(alloc);
    for item in items {
        values.push(value_of_json(alloc, item)?)?;
    }
    Ok(values)
}

/// Puts a member of a JSON object behind those before it.
#[cycle(value_of_json)]
fn put_member(alloc: Global, member: &Json, key: &str, pairs: &mut Pairs) -> Result<(), NoMemory>
    ensures put { OnOk result (pairs.new ≡ with_pair key.now (fact_of (view member.now)) pairs.old) }
    ensures proper { OnOk result (AllByRecursion (λ pair. IsProper pair.1) pairs.old → AllByRecursion (λ pair. IsProper pair.1) pairs.new) }
{
    pairs_stay_proper();
    let name = Text::from_string(String::from_str(alloc, key)?);
    let value = value_of_json(alloc, member)?;
    pairs.put(name, value)
}

/// The pairs of a JSON object.
#[cycle(value_of_json)]
pub fn pairs_of_json(alloc: Global, members: &Map<String, Json>) -> Result<Pairs, NoMemory>
    ensures pairs { IfOk result (λ p. p ≡ pairs_of (members_view members.now.entries)) }
    ensures distinct { IfOk result (λ p. HasDistinctKeys p) }
    ensures proper { IfOk result (λ p. AllByRecursion (λ pair. IsProper pair.1) p) }
{
    distinct_pairs_are_kept();
    let mut pairs = Pairs::new(alloc);
    for (key, member) in members.iter() {
        put_member(alloc, member, key.as_str(), &mut pairs)?;
    }
    let _ = pairs.as_slice();
    Ok(pairs)
}

/// The facts of a JSON object; any other text is refused.
pub fn facts_from_json(alloc: Global, bytes: &[u8]) -> Result<Value, Fault>
    ensures facts { IfOk result (AreFacts bytes.now) }
    ensures proper { IfOk result IsProper }
    ensures refused { IfErr result (λ e. IfRefused e (λ r. IsRefusal 60 0 (codes "facts") r × ((x : V) → AreFacts bytes.now x → ⊥))) }
{
    let json = match Json::from_slice(alloc, bytes) {
        Ok(json) => json,
        Err(e) => {
            if e.classify() == Category::Memory {
                return Err(Fault::Memory(NoMemory));
            }
            return Err(Fault::refused(alloc, 60, 0, "facts"));
        }
    };
    let Json::Object(members) = &json else {
        return Err(Fault::refused(alloc, 60, 0, "facts"));
    };
    wholes_are_proper();
    let pairs = pairs_of_json(alloc, members)?;
    Ok(Value::Map(pairs))
}
