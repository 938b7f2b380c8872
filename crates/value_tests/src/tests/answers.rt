//! What is answered to a text, as the rows have it.
ghost use Rattle.std.specs.Prelude.{◌<◌, ◌^◌, length};

use pp_eval::{Scopes, eval, facts_from_json};
use pp_parser::parse;
use pp_syntax::{Item, Manifest, Stmt, lex};
use pp_value::{Value, show};
use rh_base::{Boxed, Fault, NoMemory};
use std::alloc::Global;
use std::test::Fail;
use test_rows::{joined, refused, same, same_of};

/// Facts with an opaque number, and a map in a map.
pub const FACTS: &str = "{\"load\": 0.5, \"os\": {\"family\": \"Debian\"}}";

pub fn kind_of(value: &Value) -> &'static str {
    match value {
        Value::Undef => "undef",
        Value::Bool(_) => "truth",
        Value::Int(_) => "number",
        Value::Str(_) => "text",
        Value::List(_) => "list",
        Value::Map(_) => "map",
        Value::Refer(_) => "reference",
        Value::Opaque => "opaque",
    }
}

/// The kind of a value, and its text if it has one.
pub fn shown(alloc: Global, value: &Value) -> Result<String, NoMemory> {
    let kind = kind_of(value);
    match show(alloc, value) {
        Ok(text) => joined(alloc, &[kind, " ", text.as_str()]),
        Err(_) => joined(alloc, &[kind]),
    }
}

/// The value of a name, as it is shown, or `none`.
pub fn found(alloc: Global, scopes: &Scopes, name: &str) -> Result<String, NoMemory> {
    match scopes.find(name) {
        Some(value) => shown(alloc, value),
        None => joined(alloc, &["none"]),
    }
}

pub fn manifest_of(alloc: Global, text: &str) -> Result<Manifest, Fault>
    requires { length text.now < 2 ^ 32 }
{
    let tokens = lex(alloc, text.as_bytes())?;
    parse(alloc, &tokens)
}

/// Facts in a box: what holds a value takes the prover several times as long.
pub fn facts_of(alloc: Global, text: &[u8]) -> Result<Boxed<Value>, Fault> {
    Ok(Boxed::new(alloc, facts_from_json(alloc, text)?)?)
}

pub fn scopes_of(alloc: Global, facts: &str) -> Result<Scopes, Fault> {
    let facts = facts_of(alloc, facts.as_bytes())?;
    Ok(Scopes::new(alloc, facts.get())?)
}

/// Binds what an assignment names.
fn assign(alloc: Global, item: &Item, scopes: &mut Scopes) -> Result<(), Fault> {
    match item {
        Item::Plain(Stmt::Assign { at, name, value }) => {
            let value = eval(alloc, value, scopes)?;
            scopes.bind_or_refuse(*at, name.as_str(), value)
        }
        _ => Ok(()),
    }
}

fn assign_items(alloc: Global, items: &[Item], scopes: &mut Scopes) -> Result<(), Fault> {
    for item in items {
        assign(alloc, item, scopes)?;
    }
    Ok(())
}

/// Binds what the assignments of a manifest name, in order.
fn assign_all(alloc: Global, text: &str, scopes: &mut Scopes) -> Result<(), Fault>
    requires { length text.now < 2 ^ 32 }
{
    let manifest = manifest_of(alloc, text)?;
    assign_items(alloc, manifest.items.as_slice(), scopes)
}

/// The value of `$r` after the assignments of a manifest, or their refusal.
fn assigned_in(alloc: Global, text: &str, scopes: &mut Scopes) -> Result<String, NoMemory>
    requires { length text.now < 2 ^ 32 }
{
    match assign_all(alloc, text, scopes) {
        Ok(()) => found(alloc, scopes, "r"),
        Err(fault) => refused(alloc, &fault),
    }
}

/// The same, where a text of facts is given.
fn assigned_under(alloc: Global, facts: &str, text: &str) -> Result<String, Fault>
    requires { length text.now < 2 ^ 32 }
{
    let mut scopes = scopes_of(alloc, facts)?;
    Ok(assigned_in(alloc, text, &mut scopes)?)
}

pub fn assigned(alloc: Global, facts: &str, text: &str) -> Result<String, Fail> {
    if text.len() > 1_000_000 {
        return Err(Fail::from("a long text"));
    }
    Ok(assigned_under(alloc, facts, text)?)
}

fn is_assigned(alloc: Global, text: &str, want: &str) -> Result<(), Fail> {
    let value = assigned(alloc, FACTS, text)?;
    same(alloc, text, value.as_str(), want)
}

/// Each row: an assignment to `$r`, and the value that it gives under `FACTS`, or the refusal.
pub fn are_assigned(alloc: Global, rows: &[(&str, &str)]) -> Result<(), Fail> {
    for (text, want) in rows {
        is_assigned(alloc, *text, *want)?;
    }
    Ok(())
}

fn is_assigned_under(alloc: Global, facts: &str, text: &str, want: &str) -> Result<(), Fail> {
    let value = assigned(alloc, facts, text)?;
    same_of(alloc, &[facts, " ", text], value.as_str(), want)
}

/// Each row: facts, an assignment to `$r`, and the value that it gives under them, or the refusal.
pub fn are_assigned_under(alloc: Global, rows: &[(&str, &str, &str)]) -> Result<(), Fail> {
    for (facts, text, want) in rows {
        is_assigned_under(alloc, *facts, *text, *want)?;
    }
    Ok(())
}
