//! The lines on two graphs that are compared.

ghost use Rattle.std.specs.Prelude.{◌≡◌, ◌++◌, ◌<◌, length, IfOk, OnOk};
ghost use Rattle.std.specs.List.{AllByRecursion};
ghost use Rattle.plans.specs.Plans.{meant_by};
ghost use Rattle.equal_report.specs.Lines.{settled_lines, both_lines, equal_text, unequal_text, spent_line, spent_equal_text};

use crate::turns::Turns;
use fs_lang::Tree;
use rh_base::{NoMemory, Seq};
use std::alloc::Global;
use verdict_report::{NamedPlan, push_head, push_run};
use verdict_text::{push_bytes, push_tree};

/// Appends the lines on a deterministic graph.
pub fn push_settled(
    alloc: Global,
    named: &NamedPlan<'_>,
    pruned: u32,
    into: &mut Vec<u8>,
) -> Result<(), NoMemory>
    ensures { OnOk result (into.new.items ≡ into.old.items ++ settled_lines
        (length named.now.plan.now.programs.now) named.now.notes.now pruned) }
{
    push_head(alloc, named.plan.programs.len(), named.notes, pruned, into)?;
    push_bytes(b"deterministic\n", into)
}

/// Begins with the lines on both graphs, which are deterministic.
fn both(
    alloc: Global,
    left: &NamedPlan<'_>,
    pruned: u32,
    right: &NamedPlan<'_>,
    other_pruned: u32,
) -> Result<Vec<u8>, NoMemory>
    ensures { IfOk result (λ bytes. bytes.items ≡ both_lines left.now.notes.now right.now.notes.now
        (length left.now.plan.now.programs.now) pruned (length right.now.plan.now.programs.now) other_pruned) }
{
    let mut bytes = Vec::new(alloc);
    push_settled(alloc, left, pruned, &mut bytes)?;
    push_settled(alloc, right, other_pruned, &mut bytes)?;
    Ok(bytes)
}

/// The lines where they do the same.
pub fn equal_text(
    alloc: Global,
    left: &NamedPlan<'_>,
    pruned: u32,
    right: &NamedPlan<'_>,
    other_pruned: u32,
) -> Result<Seq<u8>, NoMemory>
    ensures { IfOk result (λ text. text ≡ equal_text left.now.notes.now right.now.notes.now
        (length left.now.plan.now.programs.now) pruned (length right.now.plan.now.programs.now) other_pruned) }
{
    let mut bytes = both(alloc, left, pruned, right, other_pruned)?;
    push_bytes(b"equal\n", &mut bytes)?;
    Ok(Seq::from_vec(bytes))
}

/// The lines where they don't: a run of the one and a run of the other, from the same tree.
pub fn unequal_text(
    alloc: Global,
    left: &Turns<'_>,
    pruned: u32,
    right: &Turns<'_>,
    other_pruned: u32,
    tree: &Tree,
) -> Result<Seq<u8>, NoMemory>
    requires left { AllByRecursion (λ i. i < length left.now.named.now.names.now) left.now.order.now }
    requires right { AllByRecursion (λ i. i < length right.now.named.now.names.now) right.now.order.now }
    ensures { IfOk result (λ text. text ≡ unequal_text left.now.named.now.notes.now right.now.named.now.notes.now
        left.now.named.now.names.now (meant_by left.now.named.now.plan.now) pruned left.now.order.now
        right.now.named.now.names.now (meant_by right.now.named.now.plan.now) other_pruned right.now.order.now tree.now) }
{
    let mut bytes = both(alloc, left.named, pruned, right.named, other_pruned)?;
    push_bytes(b"not equal\n", &mut bytes)?;
    push_tree(alloc, tree, &mut bytes)?;
    push_run(alloc, left.named, tree, left.order, &mut bytes)?;
    push_run(alloc, right.named, tree, right.order, &mut bytes)?;
    Ok(Seq::from_vec(bytes))
}

/// Appends that so many conflicts are spent.
fn push_spent(alloc: Global, budget: u64, into: &mut Vec<u8>) -> Result<(), NoMemory>
    ensures { OnOk result (into.new.items ≡ into.old.items ++ spent_line budget) }
{
    let line = format!(in alloc; "spent equal {budget}\n")?;
    push_bytes(line.as_str().as_bytes(), into)
}

/// The lines where the question's conflicts are spent.
pub fn spent_equal_text(
    alloc: Global,
    left: &NamedPlan<'_>,
    pruned: u32,
    right: &NamedPlan<'_>,
    other_pruned: u32,
    budget: u64,
) -> Result<Seq<u8>, NoMemory>
    ensures { IfOk result (λ text. text ≡ spent_equal_text left.now.notes.now right.now.notes.now
        (length left.now.plan.now.programs.now) pruned (length right.now.plan.now.programs.now) other_pruned budget) }
{
    let mut bytes = both(alloc, left, pruned, right, other_pruned)?;
    push_spent(alloc, budget, &mut bytes)?;
    Ok(Seq::from_vec(bytes))
}
