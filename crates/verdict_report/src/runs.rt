//! The lines on runs: two that end apart, and two of which the second changes what the first left.

ghost use Rattle.std.specs.Prelude.{◌≡◌, ◌<◌, ◌++◌, length, map, IfOk, OnOk};
ghost use Rattle.std.specs.List.{AllByRecursion};
ghost use Rattle.fs_lang.specs.Meaning.{program_of};
ghost use Rattle.fs_lang.specs.Outcomes.{outcome_of};
ghost use Rattle.plans.specs.Plans.{meant_by};
ghost use Rattle.fs_semantics.specs.Programs.{and_then};
ghost use Rattle.fs_semantics.specs.Orders.{outcome};
ghost use Rattle.verdict_report.specs.Lines.{run_lines, runs_lines, difference_text, difference_of, outcome_lines, again_lines, change_of};
ghost use Rattle.verdict_report.specs.Told.{HasOrders, HasTurns};

use crate::lines::begun;
use crate::named::NamedPlan;
use fs_lang::{Outcome, Program, Tree};
use fs_replay::replay;
use order_encode::Witness;
use rh_base::{NoMemory, Seq};
use std::alloc::Global;
use verdict_text::{push_bytes, push_order, push_outcome, push_tree};

/// Appends an order, and the outcome of the programs in it.
pub fn push_run(
    alloc: Global,
    named: &NamedPlan<'_>,
    tree: &Tree,
    order: &[u32],
    into: &mut Vec<u8>,
) -> Result<(), NoMemory>
    requires { AllByRecursion (λ i. i < length named.now.names.now) order.now }
    ensures { OnOk result (into.new.items ≡ into.old.items ++ run_lines named.now.names.now (meant_by named.now.plan.now) tree.now order.now) }
{
    let ended = replay(alloc, named.plan.programs, order, tree)?;
    push_order(alloc, named.names, order, into)?;
    push_outcome(alloc, &ended, into)
}

/// Appends a tree, and two orders with their outcomes from it.
fn push_runs(
    alloc: Global,
    named: &NamedPlan<'_>,
    tree: &Tree,
    left: &[u32],
    right: &[u32],
    into: &mut Vec<u8>,
) -> Result<(), NoMemory>
    requires left { AllByRecursion (λ i. i < length named.now.names.now) left.now }
    requires right { AllByRecursion (λ i. i < length named.now.names.now) right.now }
    ensures { OnOk result (into.new.items ≡ into.old.items ++ runs_lines named.now.names.now
        (meant_by named.now.plan.now) tree.now left.now right.now) }
{
    push_tree(alloc, tree, into)?;
    push_run(alloc, named, tree, left, into)?;
    push_run(alloc, named, tree, right, into)
}

/// The lines on two orders that end apart from a tree.
fn text_apart(
    alloc: Global,
    named: &NamedPlan<'_>,
    pruned: u32,
    tree: &Tree,
    left: &[u32],
    right: &[u32],
) -> Result<Seq<u8>, NoMemory>
    requires left { AllByRecursion (λ i. i < length named.now.names.now) left.now }
    requires right { AllByRecursion (λ i. i < length named.now.names.now) right.now }
    ensures { IfOk result (λ text. text ≡ difference_text named.now.names.now
        (meant_by named.now.plan.now) named.now.notes.now pruned tree.now left.now right.now) }
{
    let mut bytes = begun(alloc, named, pruned, b"not deterministic\n")?;
    push_runs(alloc, named, tree, left, right, &mut bytes)?;
    Ok(Seq::from_vec(bytes))
}

/// The lines on two orders that end apart.
pub fn difference_text(
    alloc: Global,
    named: &NamedPlan<'_>,
    pruned: u32,
    witness: &Witness,
) -> Result<Seq<u8>, NoMemory>
    requires { HasOrders (length named.now.names.now) witness.now }
    ensures { IfOk result (λ text. text ≡ difference_of named.now.names.now (meant_by named.now.plan.now)
        named.now.notes.now pruned witness.now) }
{
    let Witness::Orders { tree, left, right } = witness else {
        unreachable!();
    };
    let first = left.as_slice();
    let second = right.as_slice();
    text_apart(alloc, named, pruned, tree, first, second)
}

/// The outcome of a second run, from where the first one ended.
fn again(
    alloc: Global,
    programs: &[Program],
    order: &[u32],
    ended: Outcome,
) -> Result<Outcome, NoMemory>
    requires { AllByRecursion (λ i. i < length programs.now) order.now }
    ensures { IfOk result (λ o. outcome_of o ≡ and_then (outcome_of ended) (outcome (map program_of programs.now) order.now)) }
{
    match ended {
        Outcome::Ended(tree) => replay(alloc, programs, order, &tree),
        Outcome::Error => Ok(Outcome::Error),
    }
}

/// Appends the outcomes of the first and of the second run.
fn push_outcomes(
    alloc: Global,
    programs: &[Program],
    tree: &Tree,
    order: &[u32],
    into: &mut Vec<u8>,
) -> Result<(), NoMemory>
    requires { AllByRecursion (λ i. i < length programs.now) order.now }
    ensures { OnOk result (into.new.items ≡ into.old.items ++ outcome_lines (map program_of programs.now) order.now tree.now) }
{
    let first = replay(alloc, programs, order, tree)?;
    push_outcome(alloc, &first, into)?;
    let second = again(alloc, programs, order, first)?;
    push_outcome(alloc, &second, into)
}

/// Appends a tree, an order, and the outcomes of two runs in it, one after the other.
fn push_again(
    alloc: Global,
    named: &NamedPlan<'_>,
    tree: &Tree,
    order: &[u32],
    into: &mut Vec<u8>,
) -> Result<(), NoMemory>
    requires { AllByRecursion (λ i. i < length named.now.names.now) order.now }
    ensures { OnOk result (into.new.items ≡ into.old.items ++ again_lines named.now.names.now (meant_by named.now.plan.now) tree.now order.now) }
{
    push_tree(alloc, tree, into)?;
    push_order(alloc, named.names, order, into)?;
    push_outcomes(alloc, named.plan.programs, tree, order, into)
}

/// The lines on a second run that changes what the first left.
pub fn change_text(
    alloc: Global,
    named: &NamedPlan<'_>,
    pruned: u32,
    witness: &Witness,
) -> Result<Seq<u8>, NoMemory>
    requires { HasTurns (length named.now.names.now) witness.now }
    ensures { IfOk result (λ text. text ≡ change_of named.now.names.now (meant_by named.now.plan.now)
        named.now.notes.now pruned witness.now) }
{
    let Witness::Twice { tree, order } = witness else {
        unreachable!();
    };
    let turns = order.as_slice();
    let mut bytes = begun(alloc, named, pruned, b"deterministic\nnot idempotent\n")?;
    push_again(alloc, named, tree, turns, &mut bytes)?;
    push_bytes(b"succeeds from some tree\n", &mut bytes)?;
    Ok(Seq::from_vec(bytes))
}
