//! The text of a graph.

ghost use Rattle.std.specs.Prelude.{◌≡◌, ◌<◌, ◌++◌, true, length, IfOk, OnOk};
ghost use Rattle.orders.specs.Relation.{comes};
ghost use Rattle.graph_semantics.specs.Graphs.{printed_at, resource_lines, pair_line, pair_lines, order_lines, graph_text};

use crate::answer::Graph;
use crate::circle::push_reference_at;
use crate::pairs::comes;
use catalog::Catalog;
use orders::Order;
use printed_names::printed;
use rh_base::{NoMemory, Text};
use std::alloc::Global;

/// Adds the reference of a resource as it is printed.
fn push_printed_at(
    alloc: Global,
    catalog: &Catalog,
    place: u32,
    text: &mut Text,
) -> Result<(), NoMemory>
    ensures { OnOk result (text.new ≡ text.old ++ printed_at catalog.now place) }
{
    let mut shown = Text::new(alloc);
    push_reference_at(alloc, catalog, place, &mut shown)?;
    let name = printed(alloc, shown.as_str())?;
    text.push(name.as_str())
}

fn push_resources(
    alloc: Global,
    catalog: &Catalog,
    plain: &[u32],
    text: &mut Text,
) -> Result<(), NoMemory>
    ensures { OnOk result (text.new ≡ text.old ++ resource_lines catalog.now plain.now) }
{
    for place in plain {
        push_printed_at(alloc, catalog, *place, text)?;
        text.push("\n")?;
    }
    Ok(())
}

fn push_pair(
    alloc: Global,
    catalog: &Catalog,
    left: u32,
    right: u32,
    text: &mut Text,
) -> Result<(), NoMemory>
    ensures { OnOk result (text.new ≡ text.old ++ pair_line true (printed_at catalog.now left) (printed_at catalog.now right)) }
{
    push_printed_at(alloc, catalog, left, text)?;
    text.push(" -> ")?;
    push_printed_at(alloc, catalog, right, text)?;
    text.push("\n")
}

fn push_pair_if(
    alloc: Global,
    catalog: &Catalog,
    before: bool,
    left: u32,
    right: u32,
    text: &mut Text,
) -> Result<(), NoMemory>
    ensures { OnOk result (text.new ≡ text.old ++ pair_line before (printed_at catalog.now left) (printed_at catalog.now right)) }
{
    if before {
        push_pair(alloc, catalog, left, right, text)
    } else {
        Ok(())
    }
}

/// Adds the lines of what comes after one plain resource.
fn push_row(
    alloc: Global,
    catalog: &Catalog,
    plain: &[u32],
    order: &Order,
    i: u32,
    text: &mut Text,
) -> Result<(), NoMemory>
    requires count { order.now.count ≡ length plain.now }
    requires i { i < length plain.now }
    ensures { OnOk result (text.new ≡ text.old ++ pair_lines catalog.now plain.now (comes order.now) i (length plain.now)) }
{
    for j in 0..order.count() {
        let before = comes(order, i, j);
        push_pair_if(
            alloc,
            catalog,
            before,
            plain[i as usize],
            plain[j as usize],
            text,
        )?;
    }
    Ok(())
}

fn push_rows(
    alloc: Global,
    catalog: &Catalog,
    plain: &[u32],
    order: &Order,
    text: &mut Text,
) -> Result<(), NoMemory>
    requires count { order.now.count ≡ length plain.now }
    ensures { OnOk result (text.new ≡ text.old ++ order_lines catalog.now plain.now (comes order.now) (length plain.now)) }
{
    for i in 0..order.count() {
        push_row(alloc, catalog, plain, order, i, text)?;
    }
    Ok(())
}

/// A line for each plain resource, and then one for each pair of which one comes before the other.
pub fn graph_text(alloc: Global, catalog: &Catalog, graph: &Graph) -> Result<Text, NoMemory>
    requires { graph.now.order.count ≡ length graph.now.plain }
    ensures { IfOk result (λ text. text ≡ graph_text catalog.now graph.now.plain (comes graph.now.order)) }
{
    let plain = graph.plain.as_slice();
    let mut text = Text::new(alloc);
    push_resources(alloc, catalog, plain, &mut text)?;
    push_rows(alloc, catalog, plain, &graph.order, &mut text)?;
    Ok(text)
}
