//! Which steps of a log are used: the last one, and each that a used one names. Steps name earlier ones alone, so a pass from the last
//! step backwards finds them all.

ghost use Rattle.std.specs.Prelude.{◌≡◌, ◌==◌, ◌+◌, ◌<◌, length, IfOk};
ghost use Rattle.std.specs.List.{list_any};
ghost use Rattle.trimmed_proofs.specs.Trimmed.{names};
ghost use Rattle.trimmed_proofs.specs.Marks.{MarksMore, NameEarlier, AreMarkedFrom};

use cnf::{Link, Step};
use rh_base::NoMemory;
use std::alloc::Global;

/// Marks the step with a number behind so many clauses, if there is one.
fn mark(count: u64, number: u64, marks: &mut [bool])
    ensures { MarksMore count marks.old marks.new (λ k. number == k) }
{
    if number <= count {
        return;
    }
    let place = (number - count - 1) as usize;
    if place < marks.len() {
        marks[place] = true;
    }
}

/// Marks the steps that links name.
fn mark_links(count: u64, links: &[Link], marks: &mut [bool])
    ensures { MarksMore count marks.old marks.new (λ k. list_any (λ link. link.number == k) links.now) }
{
    for link in links {
        mark(count, link.number, marks);
    }
}

/// Marks the steps that a step names.
#[tactic(auto, using(crate::proofs::MarkLaws::marked_both))]
fn mark_named(count: u64, step: &Step, marks: &mut [bool])
    ensures { MarksMore count marks.old marks.new (λ k. names k step.now) }
{
    mark(count, step.start, marks);
    mark_links(count, step.chain.as_slice(), marks);
}

/// Marks the steps that the one at a place names, if it is marked.
#[tactic(auto, using(crate::proofs::MarkLaws::marked_skip, crate::proofs::MarkLaws::marked_more))]
fn mark_from(count: u64, steps: &[Step], i: usize, marks: &mut [bool])
    requires place { i < length steps.now }
    requires earlier { NameEarlier count steps.now }
    requires so_far { AreMarkedFrom count steps.now (i + 1) marks.old }
    ensures { AreMarkedFrom count steps.now i marks.new }
{
    if marks[i] {
        mark_named(count, &steps[i], marks);
    }
}

/// Marks the last of some steps, and each that a marked one names.
pub(crate) fn used_steps(alloc: Global, count: u64, steps: &[Step]) -> Result<Vec<bool>, NoMemory>
    requires some { 0 < length steps.now }
    requires earlier { NameEarlier count steps.now }
    ensures { IfOk result (λ marks. AreMarkedFrom count steps.now 0 marks.items) }
{
    let mut marks = vec![in alloc; false; steps.len()]?;
    marks[steps.len() - 1] = true;
    for i in (0..steps.len()).rev() {
        mark_from(count, steps, i, &mut marks);
    }
    Ok(marks)
}
