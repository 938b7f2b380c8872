//! Lines on orders.

ghost use Rattle.std.specs.Prelude.{◌≡◌, ◌<◌, ◌++◌, length, map, IfOk, OnOk};
ghost use Rattle.std.specs.List.{AllByRecursion};
ghost use Rattle.verdict_text.specs.Lines.{name_at, order_line};

use crate::lines::push_bytes;
use order_text::order_to_json;
use rh_base::{NoMemory, Seq, Text};
use std::alloc::Global;

/// The name at a position.
fn name_at(alloc: Global, names: &[Text], i: u32) -> Result<Text, NoMemory>
    requires { i < length names.now }
    ensures { IfOk result (λ text. text ≡ name_at names.now i) }
{
    names[i as usize].copy(alloc)
}

/// The names in an order.
fn names_in(alloc: Global, names: &[Text], order: &[u32]) -> Result<Seq<Text>, NoMemory>
    requires { AllByRecursion (λ i. i < length names.now) order.now }
    ensures { IfOk result (λ texts. texts ≡ map (name_at names.now) order.now) }
{
    let mut texts = Seq::new(alloc);
    for i in order {
        texts.push(name_at(alloc, names, *i)?)?;
    }
    Ok(texts)
}

/// Appends a line on an order of resources, which have these names.
pub fn push_order(
    alloc: Global,
    names: &[Text],
    order: &[u32],
    into: &mut Vec<u8>,
) -> Result<(), NoMemory>
    requires { AllByRecursion (λ i. i < length names.now) order.now }
    ensures { OnOk result (into.new.items ≡ into.old.items ++ order_line names.now order.now) }
{
    let texts = names_in(alloc, names, order)?;
    push_bytes(b"order ", into)?;
    order_to_json(alloc, texts.as_slice(), into)?;
    push_bytes(b"\n", into)
}
