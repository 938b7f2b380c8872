//! The classes that a value names.

ghost use Rattle.std.specs.Prelude.{◌≡◌, ◌∷◌, [], option_map, IfOk};
ghost use Rattle.catalog_semantics.specs.Functions.{class_name, all_names, class_names};

use pp_eval::plain_name;
use pp_value::Value;
use rh_base::{NoMemory, Seq, Text};
use std::alloc::Global;

/// A text, or a reference to a class.
fn class_name(alloc: Global, value: &Value) -> Result<Option<Text>, NoMemory>
    ensures { IfOk result (λ name. name ≡ class_name value.now) }
{
    match value {
        Value::Str(text) => Ok(Some(plain_name(alloc, text.as_str())?)),
        Value::Refer(r) => {
            if r.kind.as_str() == "class" {
                Ok(Some(r.title.copy(alloc)?))
            } else {
                Ok(None)
            }
        }
        _ => Ok(None),
    }
}

#[tactic(auto, using(crate::proofs::Steps::next_text))]
fn all_names(alloc: Global, items: &[Value]) -> Result<Option<Seq<Text>>, NoMemory>
    ensures { IfOk result (λ names. names ≡ all_names items.now) }
{
    let mut names = Seq::new(alloc);
    for item in items {
        let Some(name) = class_name(alloc, item)? else {
            return Ok(None);
        };
        names.push(name)?;
    }
    Ok(Some(names))
}

fn one_name(alloc: Global, value: &Value) -> Result<Option<Seq<Text>>, NoMemory>
    ensures { IfOk result (λ names. names ≡ option_map (λ name. name ∷ []) (class_name value.now)) }
{
    let Some(name) = class_name(alloc, value)? else {
        return Ok(None);
    };
    let mut names = Seq::new(alloc);
    names.push(name)?;
    Ok(Some(names))
}

/// The names of one class, or of a list of them.
pub fn class_names(alloc: Global, value: &Value) -> Result<Option<Seq<Text>>, NoMemory>
    ensures { IfOk result (λ names. names ≡ class_names value.now) }
{
    match value {
        Value::List(items) => all_names(alloc, items.as_slice()),
        _ => one_name(alloc, value),
    }
}
