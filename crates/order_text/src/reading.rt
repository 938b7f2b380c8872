//! Reading the text of an order.

ghost use Rattle.std.specs.Prelude.{◌≡◌, ℕ, List, IfOk, IfErr, codes};
ghost use Rattle.serde_json.specs.View.{items_view};
ghost use Rattle.rh_base.specs.Reading.{Gives};
ghost use Rattle.rh_base.specs.Refused.{IfRefused, IsRefusal};
ghost use Rattle.order_text.specs.OrderText.{IsOrderText, texts_of};

use json_parts::text_of;
use rh_base::{Fault, Misread, NoMemory, Seq, Text};
use serde_json::{Category, Value as Json};
use std::alloc::Global;

fn texts_of(alloc: Global, items: &[Json]) -> Result<Seq<Text>, Misread>
    ensures { Gives (λ ts. ts) result (texts_of (items_view items.now)) }
{
    let mut texts = Seq::new(alloc);
    for item in items {
        let Some(text) = item.as_str() else {
            return Err(Misread::Form);
        };
        texts.push(text_of(alloc, text)?)?;
    }
    Ok(texts)
}

/// A text lists one order at most.
pub fn one_order()
    ensures { (bytes : List ℕ) (a b : List (List ℕ)) → IsOrderText bytes a → IsOrderText bytes b → a ≡ b }
{}

/// The references that a text lists, as they are shown: a JSON array of texts; any other text is refused. Whether they are
/// an allowed order is for the graph to say.
pub fn order_from_json(alloc: Global, bytes: &[u8]) -> Result<Seq<Text>, Fault>
    ensures found { IfOk result (IsOrderText bytes.now) }
    // Each order of this text is the one that is found.
    ensures only { (ts : List (List ℕ)) → IsOrderText bytes.now ts → IfOk result (λ found. found ≡ ts) }
    ensures refused { IfErr result (λ e. IfRefused e (λ r. IsRefusal 63 0 (codes "order") r
        × ((ts : List (List ℕ)) → IsOrderText bytes.now ts → ⊥))) }
{
    one_order();
    let json = match Json::from_slice(alloc, bytes) {
        Ok(json) => json,
        Err(e) => {
            if e.classify() == Category::Memory {
                return Err(Fault::Memory(NoMemory));
            }
            return Err(Fault::refused(alloc, 63, 0, "order"));
        }
    };
    let Some(items) = json.as_array() else {
        return Err(Fault::refused(alloc, 63, 0, "order"));
    };
    match texts_of(alloc, items.as_slice()) {
        Ok(texts) => Ok(texts),
        Err(Misread::Form) => Err(Fault::refused(alloc, 63, 0, "order")),
        Err(Misread::Memory(m)) => Err(Fault::Memory(m)),
    }
}
