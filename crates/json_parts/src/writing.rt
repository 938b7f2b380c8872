//! Writing parts of JSON texts.

ghost use Rattle.std.specs.Prelude.{◌≡◌, ◌++◌, IfOk, OnOk, OnErr};
ghost use Rattle.serde_json.specs.Data.{string, put};
ghost use Rattle.serde_json.specs.View.{view, members_view};

use rh_base::{NoMemory, Text};
use serde_json::{Map, Value as Json};
use std::alloc::Global;

/// The JSON of a text.
pub fn text_json(alloc: Global, text: &str) -> Result<Json, NoMemory>
    ensures { IfOk result (λ json. view json ≡ string text.now) }
{
    Ok(Json::String(String::from_str(alloc, text)?))
}

/// Puts a member among those before it; one with the same key is replaced.
pub fn put_member(key: Text, json: Json, members: &mut Map<String, Json>) -> Result<(), NoMemory>
    ensures { OnOk result (members_view members.new.entries ≡ put key (view json) (members_view members.old.entries)) }
{
    let key = key.into_string();
    members.insert(key, json)?;
    Ok(())
}

/// Appends the bytes, or leaves all as it is.
pub fn append(into: &mut Vec<u8>, bytes: &[u8]) -> Result<(), NoMemory>
    ensures ok { OnOk result (into.new.items ≡ into.old.items ++ bytes.now) }
    ensures err { OnErr result (into.new.items ≡ into.old.items) }
{
    into.extend_from_slice(bytes)?;
    Ok(())
}
