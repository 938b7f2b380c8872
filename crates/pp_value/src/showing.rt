//! Values as texts.

ghost use Rattle.std.specs.Prelude.{◌≡◌, ◌++◌, true, map, codes, string_bytes, IfOk, OnOk};
ghost use Rattle.pp_value.specs.Values.{has_opaque};
ghost use Rattle.pp_value.specs.Levels.{pair_text};
ghost use Rattle.pp_value.specs.Table.{Gives};
ghost use Rattle.pp_value.specs.Texts.{capitalized, capital_if};
ghost use Rattle.pp_value.specs.Shown.{shown, shown_int, shown_ref, listed, show_table, is_long_text};

use crate::compare::has_opaque;
use crate::fault::ValueFault;
use crate::value::{Pairs, Ref, Value};
use rh_base::limits::VALUE_SIZE;
use rh_base::{NoMemory, Text};
use std::alloc::Global;

/// Appends a number in decimal.
fn push_int(alloc: Global, into: &mut Text, n: i64) -> Result<(), NoMemory>
    ensures { OnOk result (into.new ≡ into.old ++ shown_int n) }
{
    let digits = format!(in alloc; "{n}")?;
    into.push(digits.as_str())
}

fn capital_if(first: bool, c: char) -> char
    ensures { result ≡ capital_if first c }
{
    if first { c.to_ascii_uppercase() } else { c }
}

/// A kind with its capitals.
fn capitalized(alloc: Global, kind: &str) -> Result<String, NoMemory>
    ensures { IfOk result (λ s. string_bytes s ≡ capitalized kind.now) }
{
    let mut shown = String::new(alloc);
    let mut first = true;
    for c in kind.chars() {
        shown.push(capital_if(first, c))?;
        first = c == ':';
    }
    Ok(shown)
}

/// Appends a reference.
fn push_ref(alloc: Global, into: &mut Text, r: &Ref) -> Result<(), NoMemory>
    ensures { OnOk result (into.new ≡ into.old ++ shown_ref r.now) }
{
    let kind = capitalized(alloc, r.kind.as_str())?;
    into.push(kind.as_str())?;
    into.push("[")?;
    into.push(r.title.as_str())?;
    into.push("]")
}

/// A reference as a text of any length, as `File[/a]`.
pub fn shown_ref(alloc: Global, r: &Ref) -> Result<Text, NoMemory>
    ensures { IfOk result (λ text. text ≡ shown_ref r.now) }
{
    let mut text = Text::from_string(String::new(alloc));
    push_ref(alloc, &mut text, r)?;
    Ok(text)
}

/// Appends a value's text.
#[cycle(show)]
#[tactic(auto, using(crate::specs::Levels::shown_list, crate::specs::Levels::shown_map))]
fn push_value(alloc: Global, into: &mut Text, v: &Value) -> Result<(), NoMemory>
    ensures { OnOk result (into.new ≡ into.old ++ shown v.now) }
{
    match v {
        Value::Undef => Ok(()),
        Value::Bool(true) => into.push("true"),
        Value::Bool(false) => into.push("false"),
        Value::Int(n) => push_int(alloc, into, *n),
        Value::Str(text) => into.push(text.as_str()),
        Value::List(items) => push_list(alloc, into, items.as_slice()),
        Value::Map(pairs) => push_map(alloc, into, pairs),
        Value::Refer(r) => push_ref(alloc, into, r),
        Value::Opaque => Ok(()),
    }
}

#[cycle(show)]
fn push_list(alloc: Global, into: &mut Text, items: &[Value]) -> Result<(), NoMemory>
    ensures { OnOk result (into.new ≡ into.old ++ (codes "[" ++ (listed (map shown items.now) ++ codes "]"))) }
{
    into.push("[")?;
    push_all(alloc, into, items)?;
    into.push("]")
}

#[cycle(show)]
fn push_all(alloc: Global, into: &mut Text, items: &[Value]) -> Result<(), NoMemory>
    ensures { OnOk result (into.new ≡ into.old ++ listed (map shown items.now)) }
{
    let Some((first, rest)) = items.split_first() else {
        return Ok(());
    };
    push_value(alloc, into, first)?;
    for item in rest {
        into.push(", ")?;
        push_value(alloc, into, item)?;
    }
    Ok(())
}

#[cycle(show)]
fn push_map(alloc: Global, into: &mut Text, pairs: &Pairs) -> Result<(), NoMemory>
    ensures { OnOk result (into.new ≡ into.old ++ (codes "{" ++ (listed (map pair_text pairs.now) ++ codes "}"))) }
{
    into.push("{")?;
    push_pairs(alloc, into, pairs)?;
    into.push("}")
}

#[cycle(show)]
fn push_pairs(alloc: Global, into: &mut Text, pairs: &Pairs) -> Result<(), NoMemory>
    ensures { OnOk result (into.new ≡ into.old ++ listed (map pair_text pairs.now)) }
{
    let Some((first, rest)) = pairs.as_slice().split_first() else {
        return Ok(());
    };
    push_pair(alloc, into, first.0.as_str(), &first.1)?;
    for pair in rest {
        into.push(", ")?;
        push_pair(alloc, into, pair.0.as_str(), &pair.1)?;
    }
    Ok(())
}

#[cycle(show)]
fn push_pair(alloc: Global, into: &mut Text, key: &str, value: &Value) -> Result<(), NoMemory>
    ensures { OnOk result (into.new ≡ into.old ++ (key.now ++ (codes " => " ++ shown value.now))) }
{
    into.push(key)?;
    into.push(" => ")?;
    push_value(alloc, into, value)
}

/// A value as a text.
pub fn show(alloc: Global, v: &Value) -> Result<Text, ValueFault>
    ensures { Gives is_long_text (show_table v.now) result }
{
    if has_opaque(v) {
        return Err(ValueFault::Operand);
    }
    let mut text = Text::new(alloc);
    push_value(alloc, &mut text, v)?;
    if text.len() as u64 >= VALUE_SIZE {
        return Err(ValueFault::Large);
    }
    Ok(text)
}
