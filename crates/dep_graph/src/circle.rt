//! Circles, as they are told.

ghost use Rattle.std.specs.Prelude.{◌≡◌, ◌++◌, slice_get, IfOk, OnOk};
ghost use Rattle.rh_base.specs.Refused.{IfRefused};
ghost use Rattle.pp_value.specs.Shown.{shown_ref};
ghost use Rattle.pp_eval.specs.Evaluating.{refusal};
ghost use Rattle.graph_semantics.specs.Graphs.{start_text, end_text, reference_at};
ghost use Rattle.dep_graph.specs.Circles.{number_text, around_text};

use crate::structure::is_plain;
use crate::targets::resource_at;
use catalog::Catalog;
use pp_eval::refusal;
use pp_value::{Ref, shown_ref};
use rh_base::{Fault, NoMemory, Text};
use std::alloc::Global;

fn push_reference(alloc: Global, r: &Ref, text: &mut Text) -> Result<(), NoMemory>
    ensures { OnOk result (text.new ≡ text.old ++ shown_ref r.now) }
{
    let shown = shown_ref(alloc, r)?;
    text.push(shown.as_str())
}

/// Adds the reference of the resource at a place.
pub fn push_reference_at(
    alloc: Global,
    catalog: &Catalog,
    place: u32,
    text: &mut Text,
) -> Result<(), NoMemory>
    ensures { OnOk result (text.new ≡ text.old ++ reference_at catalog.now place) }
{
    match resource_at(catalog, place) {
        Some(r) => push_reference(alloc, &r.id, text),
        None => Ok(()),
    }
}

/// Adds a node where something begins.
fn push_start(alloc: Global, catalog: &Catalog, place: u32, text: &mut Text) -> Result<(), NoMemory>
    ensures { OnOk result (text.new ≡ text.old ++ start_text (slice_get catalog.now.resources place)) }
{
    let Some(r) = resource_at(catalog, place) else {
        return Ok(());
    };
    if !is_plain(r) {
        text.push("start ")?;
    }
    push_reference(alloc, &r.id, text)
}

/// Adds a node where something ends.
fn push_end(alloc: Global, catalog: &Catalog, place: u32, text: &mut Text) -> Result<(), NoMemory>
    ensures { OnOk result (text.new ≡ text.old ++ end_text (slice_get catalog.now.resources place)) }
{
    let Some(r) = resource_at(catalog, place) else {
        return Ok(());
    };
    text.push("end ")?;
    push_reference(alloc, &r.id, text)
}

fn push_number(
    alloc: Global,
    catalog: &Catalog,
    number: u32,
    text: &mut Text,
) -> Result<(), NoMemory>
    ensures { OnOk result (text.new ≡ text.old ++ number_text catalog.now number) }
{
    if number % 2 == 0 {
        push_start(alloc, catalog, number / 2, text)
    } else {
        push_end(alloc, catalog, number / 2, text)
    }
}

fn around(alloc: Global, catalog: &Catalog, bound: u32, numbers: &[u32]) -> Result<Text, NoMemory>
    ensures { IfOk result (λ text. text ≡ around_text catalog.now bound numbers.now) }
{
    let mut text = Text::new(alloc);
    for number in numbers {
        if *number < bound {
            push_number(alloc, catalog, *number, &mut text)?;
            text.push(" -> ")?;
        }
    }
    if let Some(first) = numbers.first() {
        push_number(alloc, catalog, *first, &mut text)?;
    }
    Ok(text)
}

/// The refusal of a circle. Numbers from the bound on are those of nodes that only join the sides of a relation.
pub fn circle(alloc: Global, catalog: &Catalog, bound: u32, numbers: &[u32]) -> Fault
    ensures { IfRefused result (λ x. x ≡ refusal 41 0 (around_text catalog.now bound numbers.now)) }
{
    match around(alloc, catalog, bound, numbers) {
        Ok(name) => refusal(alloc, 41, 0, name.as_str()),
        Err(m) => Fault::Memory(m),
    }
}
