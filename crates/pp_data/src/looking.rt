//! Which levels apply, and what they say of a key.

ghost use Rattle.std.specs.Prelude.{◌≡◌, None, IfOk, option_map, if◌then◌else◌};
ghost use Rattle.pp_value.specs.Values.{value_at};
ghost use Rattle.pp_eval.specs.Scoping.{pairs_in};
ghost use Rattle.pp_data.specs.Lookup.{key_of, is_met, applies, value_in, lookup};

use crate::data::Level;
use pp_eval::plain_name;
use pp_value::{Value, equal};
use rh_base::{NoMemory, Text};
use std::alloc::Global;

/// The key of a class's parameter.
pub fn key_of(alloc: Global, class: &str, parameter: &str) -> Result<Text, NoMemory>
    ensures { IfOk result (λ key. key ≡ key_of class.now parameter.now) }
{
    let mut key = plain_name(alloc, class)?;
    key.push("::")?;
    key.push(parameter)?;
    Ok(key)
}

/// The value of a fact.
#[tactic(auto, using(pp_eval::specs::Scoping::pairs_in_map))]
fn fact<'v>(facts: &'v Value, name: &str) -> Option<&'v Value>
    ensures { option_map (λ x. x.now) result ≡ value_at name.now (pairs_in facts.now) }
{
    match facts {
        Value::Map(pairs) => pairs.find(name),
        _ => None,
    }
}

/// Whether a fact has a value that is equal to this one.
fn is_met(facts: &Value, name: &str, wanted: &Value) -> bool
    ensures { result ≡ is_met (pairs_in facts.now) (name.now, wanted.now) }
{
    match fact(facts, name) {
        Some(value) => equal(value, wanted).unwrap_or(false),
        None => false,
    }
}

/// Whether each fact that a level asks for is met.
fn applies(facts: &Value, level: &Level) -> bool
    ensures { result ≡ applies (pairs_in facts.now) level.now }
{
    for wanted in level.when.as_slice() {
        if !is_met(facts, wanted.0.as_str(), &wanted.1) {
            return false;
        }
    }
    true
}

/// The value that a level has for a key, other than undef.
fn value_in<'v>(level: &'v Level, key: &str) -> Option<&'v Value>
    ensures { option_map (λ x. x.now) result ≡ value_in key.now level.now }
{
    match level.values.find(key) {
        None | Some(Value::Undef) => None,
        Some(value) => Some(value),
    }
}

/// The value that a level gives a key, if it applies. Few levels have the key, so their facts are asked for last.
fn given<'v>(level: &'v Level, facts: &Value, key: &str) -> Option<&'v Value>
    ensures { option_map (λ x. x.now) result ≡ (if applies (pairs_in facts.now) level.now then value_in key.now level.now else None) }
{
    let value = value_in(level, key)?;
    if applies(facts, level) {
        Some(value)
    } else {
        None
    }
}

/// The value of a key: that of the first level that gives it one.
#[tactic(auto, using(crate::proofs::LookupLaws::next_level))]
pub fn lookup<'v>(levels: &'v [Level], facts: &Value, key: &str) -> Option<&'v Value>
    ensures { option_map (λ x. x.now) result ≡ lookup levels.now (pairs_in facts.now) key.now }
{
    for level in levels {
        if let Some(value) = given(level, facts, key) {
            return Some(value);
        }
    }
    None
}
