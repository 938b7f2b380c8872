//! The values of a compiled catalog, from JSON.

ghost use Rattle.std.specs.Prelude.{◌≡◌, IfOk, OnOk, option_map};
ghost use Rattle.std.specs.List.{AllByRecursion};
ghost use Rattle.serde_json.specs.Find.{as_i64};
ghost use Rattle.serde_json.specs.View.{view, number_view, items_view, members_view};
ghost use Rattle.pp_value.specs.Proper.{IsProper};
ghost use Rattle.pp_value.specs.Values.{HasDistinctKeys, with_pair};
ghost use Rattle.pp_eval.specs.Facts.{whole_or_opaque};
ghost use Rattle.compiled_text.specs.Values.{is_sensitive, object_value, value_of, values_of, pairs_of};

use json_parts::text_of;
use pp_value::{Pairs, Value, distinct_pairs_are_kept, pairs_stay_proper, wholes_are_proper};
use rh_base::{NoMemory, Seq};
use serde_json::{Map, Number, Value as Json};
use std::alloc::Global;

/// Whether JSON is the text `Sensitive`.
fn is_sensitive(json: &Json) -> bool
    ensures { result ≡ is_sensitive (view json.now) }
{
    match json.as_str() {
        Some(text) => text == "Sensitive",
        None => false,
    }
}

/// The value of an object of these pairs, which may say a type of its own.
fn object_value(alloc: Global, own: Option<&Json>, pairs: Pairs) -> Result<Value, NoMemory>
    requires proper { AllByRecursion (λ pair. IsProper pair.1) pairs }
    requires distinct { HasDistinctKeys pairs }
    ensures value { IfOk result (λ x. x ≡ object_value (option_map (λ d. view d.now) own.entry) pairs) }
    ensures proper { IfOk result IsProper }
{
    wholes_are_proper();
    let Some(own) = own else {
        return Ok(Value::Map(pairs));
    };
    if !is_sensitive(own) {
        return Ok(Value::Opaque);
    }
    match pairs.find("__pvalue") {
        Some(value) => value.copy(alloc),
        None => Ok(Value::Undef),
    }
}

/// A whole number of 64 bits with a sign; any other number is opaque.
fn number_value(number: &Number) -> Value
    ensures { result ≡ whole_or_opaque (as_i64 (number_view number.now)) }
{
    match number.as_i64() {
        Some(n) => Value::Int(n),
        None => Value::Opaque,
    }
}

/// The value of what JSON has: as facts are read, but for objects that say a type of their own.
#[cycle(value_of)]
fn value_of(alloc: Global, json: &Json) -> Result<Value, NoMemory>
    ensures value { IfOk result (λ x. x ≡ value_of (view json.now)) }
    ensures proper { IfOk result IsProper }
{
    wholes_are_proper();
    match json {
        Json::Null => Ok(Value::Undef),
        Json::Bool(b) => Ok(Value::Bool(*b)),
        Json::Number(number) => Ok(number_value(number)),
        Json::String(text) => Ok(Value::Str(text_of(alloc, text.as_str())?)),
        Json::Array(items) => Value::list(alloc, values_of(alloc, items)?),
        Json::Object(members) => {
            let pairs = pairs_of(alloc, members)?;
            object_value(alloc, json.get("__ptype"), pairs)
        }
    }
}

#[cycle(value_of)]
fn values_of(alloc: Global, items: &Vec<Json>) -> Result<Seq<Value>, NoMemory>
    ensures values { IfOk result (λ values. values ≡ values_of (items_view items.now.items)) }
    ensures proper { IfOk result (AllByRecursion IsProper) }
{
    let mut values = Seq::new(alloc);
    for item in items {
        values.push(value_of(alloc, item)?)?;
    }
    Ok(values)
}

/// Puts a member of an object behind those before it.
#[cycle(value_of)]
fn put_pair(alloc: Global, key: &str, member: &Json, pairs: &mut Pairs) -> Result<(), NoMemory>
    ensures pairs { OnOk result (pairs.new ≡ with_pair key.now (value_of (view member.now)) pairs.old) }
    ensures proper { OnOk result (AllByRecursion (λ pair. IsProper pair.1) pairs.old → AllByRecursion (λ pair. IsProper pair.1) pairs.new) }
{
    pairs_stay_proper();
    let value = value_of(alloc, member)?;
    let name = text_of(alloc, key)?;
    pairs.put(name, value)
}

/// The pairs of an object.
#[cycle(value_of)]
pub fn pairs_of(alloc: Global, members: &Map<String, Json>) -> Result<Pairs, NoMemory>
    ensures pairs { IfOk result (λ p. p ≡ pairs_of (members_view members.now.entries)) }
    ensures distinct { IfOk result (λ p. HasDistinctKeys p) }
    ensures proper { IfOk result (λ p. AllByRecursion (λ pair. IsProper pair.1) p) }
{
    distinct_pairs_are_kept();
    let mut pairs = Pairs::new(alloc);
    for (key, member) in members.iter() {
        put_pair(alloc, key.as_str(), member, &mut pairs)?;
    }
    let _ = pairs.as_slice();
    Ok(pairs)
}
