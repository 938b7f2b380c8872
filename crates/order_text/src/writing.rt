//! Writing the text of an order.

ghost use Rattle.std.specs.Prelude.{◌≡◌, ◌∷◌, ◌++◌, [], map, IfOk, OnOk, OnErr};
ghost use Rattle.serde_json.specs.Data.{string};
ghost use Rattle.serde_json.specs.View.{view};
ghost use Rattle.order_text.specs.OrderText.{IsOrderText, order_text};

use json_parts::{append, text_json};
use rh_base::{NoMemory, Text};
use serde_json::Value as Json;
use std::alloc::Global;

fn push_text(alloc: Global, text: &Text, items: &mut Vec<Json>) -> Result<(), NoMemory>
    ensures { OnOk result (map view items.new.items ≡ map view items.old.items ++ string text.now ∷ []) }
{
    let json = text_json(alloc, text.as_str())?;
    items.push(json)?;
    Ok(())
}

fn items_of(alloc: Global, texts: &[Text]) -> Result<Vec<Json>, NoMemory>
    ensures { IfOk result (λ items. map view items.items ≡ map string texts.now) }
{
    let mut items = Vec::new(alloc);
    for text in texts {
        push_text(alloc, text, &mut items)?;
    }
    Ok(items)
}

/// The text of an order. It is UTF-8, and the same references are read from it.
fn written(alloc: Global, texts: &[Text]) -> Result<Vec<u8>, NoMemory>
    ensures text { IfOk result (λ bytes. bytes.items ≡ order_text texts.now) }
    ensures again { IfOk result (λ bytes. IsOrderText bytes.items texts.now) }
{
    let json = Json::Array(items_of(alloc, texts)?);
    Ok(json.to_vec(alloc)?)
}

/// Appends the text of an order: compact JSON, from which the same references are read.
pub fn order_to_json(alloc: Global, texts: &[Text], into: &mut Vec<u8>) -> Result<(), NoMemory>
    ensures ok { OnOk result (into.new.items ≡ into.old.items ++ order_text texts.now) }
    ensures err { OnErr result (into.new.items ≡ into.old.items) }
    ensures again { OnOk result (IsOrderText (order_text texts.now) texts.now) }
{
    let text = written(alloc, texts)?;
    append(into, text.as_slice())
}
