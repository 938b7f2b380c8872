//! Values as compact JSON.

ghost use Rattle.std.specs.Prelude.{◌≡◌, ◌∷◌, ◌++◌, [], map, IfOk, OnOk};
ghost use Rattle.serde_json.specs.Data.{array, object, no_members};
ghost use Rattle.serde_json.specs.View.{items_of, view};
ghost use Rattle.catalog_text.specs.Json.{data_of, members_with, json};

use json_parts::{put_member, text_json};
use pp_value::{Pairs, Value, shown_ref};
use rh_base::{NoMemory, Text};
use serde_json::{Map, Value as Json};
use std::alloc::Global;

/// The JSON of a value.
#[cycle(json)]
#[tactic(auto, using(crate::specs::Json::data_list, crate::specs::Json::data_map))]
fn data_of(alloc: Global, value: &Value) -> Result<Json, NoMemory>
    ensures { IfOk result (λ json. view json ≡ data_of value.now) }
{
    match value {
        Value::Undef => Ok(Json::Null),
        Value::Bool(b) => Ok(Json::Bool(*b)),
        Value::Int(n) => Ok(Json::from(*n)),
        Value::Str(text) => text_json(alloc, text.as_str()),
        Value::List(items) => array_of(alloc, items.as_slice()),
        Value::Map(pairs) => object_of(alloc, pairs),
        Value::Refer(r) => {
            let text = shown_ref(alloc, r)?;
            text_json(alloc, text.as_str())
        }
        Value::Opaque => Ok(Json::Null),
    }
}

#[cycle(json)]
fn push_item(alloc: Global, item: &Value, items: &mut Vec<Json>) -> Result<(), NoMemory>
    ensures { OnOk result (map view items.new.items ≡ map view items.old.items ++ data_of item.now ∷ []) }
{
    let json = data_of(alloc, item)?;
    items.push(json)?;
    Ok(())
}

#[cycle(json)]
fn array_of(alloc: Global, items: &[Value]) -> Result<Json, NoMemory>
    ensures { IfOk result (λ json. view json ≡ array (items_of (map data_of items.now))) }
{
    let mut array = Vec::new(alloc);
    for item in items {
        push_item(alloc, item, &mut array)?;
    }
    Ok(Json::Array(array))
}

#[cycle(json)]
fn object_of(alloc: Global, pairs: &Pairs) -> Result<Json, NoMemory>
    ensures { IfOk result (λ json. view json ≡ object (members_with no_members pairs.now)) }
{
    let mut members = Map::new(alloc);
    for pair in pairs.as_slice() {
        let name = pair.0.copy(alloc)?;
        put_member(name, data_of(alloc, &pair.1)?, &mut members)?;
    }
    Ok(Json::Object(members))
}

/// A value as compact JSON.
#[tactic(auto, using(crate::proofs::JsonLaws::no_float))]
pub fn json_text(alloc: Global, value: &Value) -> Result<Text, NoMemory>
    ensures { IfOk result (λ text. text ≡ json value.now) }
{
    let json = data_of(alloc, value)?;
    Ok(Text::from_string(json.to_string(alloc)?))
}
