//! Labels of programs: those of one group have one label. What is found here is tested before it is used.
//!
//! Connected components by relabelling, pair by pair; then a topological sort of the labels, in which a circle is made one
//! label and the sort begins anew.

ghost use Rattle.std.specs.Prelude.{◌<◌, IfOk};
ghost use Rattle.orders.specs.Paths.{EndsBelow};

use crate::circles::merge_mutual;
use orders::{Order, OrderFault};
use rh_base::{NoMemory, Seq};
use std::alloc::Global;

/// So often are groups made one since the order leads around a circle of three or more. Where that isn't enough, all is one group.
const ROUNDS: u32 = 16;

/// The label of a program.
pub(crate) fn label_of(labels: &[u32], k: u32) -> u32 {
    match labels.get(k as usize) {
        Some(label) => *label,
        None => 0,
    }
}

/// Makes two labels one.
pub(crate) fn merge(labels: &mut [u32], to: u32, from: u32) {
    if to == from {
        return;
    }
    for label in labels.iter_mut() {
        if *label == from {
            *label = to;
        }
    }
}

/// Labels of programs, of which those of each pair have the same.
pub(crate) fn labels_of(
    alloc: Global,
    count: u32,
    pairs: &[(u32, u32)],
) -> Result<Vec<u32>, NoMemory> {
    let mut labels = Vec::new(alloc);
    for k in 0..count {
        labels.push(k)?;
    }
    for pair in pairs {
        let to = label_of(&labels, pair.0);
        let from = label_of(&labels, pair.1);
        merge(&mut labels, to, from);
    }
    Ok(labels)
}

/// Makes the labels of a circle one.
fn merge_all(labels: &mut [u32], circle: &[u32]) {
    let to = label_of(circle, 0);
    for from in circle {
        merge(labels, to, *from);
    }
}

/// Adds an edge between two labels that differ.
fn push_edge(edges: &mut Seq<(u32, u32)>, count: u32, from: u32, to: u32) -> Result<(), NoMemory>
    requires { EndsBelow count edges.old }
    ensures { EndsBelow count edges.new }
{
    if from == to || from >= count || to >= count {
        return Ok(());
    }
    edges.push((from, to))
}

/// Adds an edge from the label of a program to those of the programs that it comes before.
fn push_edges(
    order: &Order,
    labels: &[u32],
    a: u32,
    edges: &mut Seq<(u32, u32)>,
) -> Result<(), NoMemory>
    requires a { a < order.now.count }
    requires below { EndsBelow order.now.count edges.old }
    ensures { EndsBelow order.now.count edges.new }
{
    let count = order.count();
    let from = label_of(labels, a);
    for b in 0..count {
        if order.before(a, b) {
            push_edge(edges, count, from, label_of(labels, b))?;
        }
    }
    Ok(())
}

/// Edges between labels: a program of the first comes before one of the second.
fn edges_between(alloc: Global, order: &Order, labels: &[u32]) -> Result<Seq<(u32, u32)>, NoMemory>
    ensures { IfOk result (EndsBelow order.now.count) }
{
    let mut edges = Seq::new(alloc);
    for a in 0..order.count() {
        push_edges(order, labels, a, &mut edges)?;
    }
    Ok(edges)
}

/// The labels so that the order leads from one to later ones alone. Labels of a circle are made one.
pub(crate) fn sort_labels(
    alloc: Global,
    order: &Order,
    labels: &mut [u32],
) -> Result<Option<Seq<u32>>, NoMemory> {
    for _round in 0..ROUNDS {
        merge_mutual(alloc, order, labels)?;
        let edges = edges_between(alloc, order, labels)?;
        match Order::from_edges(alloc, order.count(), edges.as_slice()) {
            Ok(among) => return Ok(Some(among.first_extension()?)),
            Err(OrderFault::Cycle(circle)) => merge_all(labels, circle.as_slice()),
            Err(OrderFault::Memory(m)) => return Err(m),
        }
    }
    Ok(None)
}

/// The programs with this label, in this order.
fn labelled(
    alloc: Global,
    labels: &[u32],
    label: u32,
    programs: &[u32],
) -> Result<Seq<u32>, NoMemory> {
    let mut group = Seq::new(alloc);
    for k in programs {
        if label_of(labels, *k) == label {
            group.push(*k)?;
        }
    }
    Ok(group)
}

/// The programs by their labels.
pub(crate) fn by_labels(
    alloc: Global,
    labels: &[u32],
    sorted: &[u32],
    programs: &[u32],
) -> Result<Seq<Seq<u32>>, NoMemory> {
    let mut groups = Seq::new(alloc);
    for label in sorted {
        let group = labelled(alloc, labels, *label, programs)?;
        if !group.is_empty() {
            groups.push(group)?;
        }
    }
    Ok(groups)
}
