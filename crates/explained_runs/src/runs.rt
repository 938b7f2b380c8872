//! How runs end, and where outcomes differ.

ghost use Rattle.std.specs.Prelude.{◌≡◌, ◌<◌, length, map, codes, IfOk};
ghost use Rattle.std.specs.List.{AllByRecursion};
ghost use Rattle.fs_lang.specs.Meaning.{program_of};
ghost use Rattle.fs_lang.specs.Outcomes.{outcome_of};
ghost use Rattle.failure_search.specs.Found.{reason_of};
ghost use Rattle.explained_text.specs.Lines.{fails_words};
ghost use Rattle.verdict_text.specs.Lines.{name_at};
ghost use Rattle.explained_runs.specs.Told.{TellsHow, ListsDifferences, ListsWhere};

use crate::exchange::name_at;
use explained_text::{push_differences, push_failure};
use failure_search::{Failed, find_failure};
use failure_semantics::{failing_orders, failures};
use fs_lang::{Outcome, Program, Tree};
use rh_base::{NoMemory, Text};
use std::alloc::Global;
use tree_differences::differences;

/// That a run fails, at which resource, and why.
fn fails_words(alloc: Global, names: &[Text], failed: &Failed) -> Result<Text, NoMemory>
    ensures { IfOk result (λ words. words ≡ fails_words (name_at names.now failed.now.resource)
        (program_of failed.now.failure.construct.now) (reason_of failed.now.failure.reason)) }
{
    let mut words = Text::new(alloc);
    push_failure(
        alloc,
        name_at(names, failed.resource),
        &failed.failure,
        &mut words,
    )?;
    Ok(words)
}

fn ends_words(alloc: Global) -> Result<Text, NoMemory>
    ensures { IfOk result (λ words. words ≡ codes "ends") }
{
    let mut words = Text::new(alloc);
    words.push("ends")?;
    Ok(words)
}

/// How the run of an order ends.
pub(crate) fn how_it_ends(
    alloc: Global,
    names: &[Text],
    programs: &[Program],
    order: &[u32],
    tree: &Tree,
) -> Result<Text, NoMemory>
    requires { AllByRecursion (λ i. i < length programs.now) order.now }
    ensures { IfOk result (TellsHow names.now (map program_of programs.now) order.now tree.now) }
{
    failures();
    failing_orders();
    match find_failure(alloc, programs, order, tree)? {
        Some(failed) => fails_words(alloc, names, &failed),
        None => ends_words(alloc),
    }
}

/// A line for each path at which two trees differ.
fn lines_between(alloc: Global, first: &Tree, second: &Tree) -> Result<Text, NoMemory>
    ensures { IfOk result (ListsDifferences first.now second.now) }
{
    let list = differences(alloc, first, second)?;
    let mut lines = Text::new(alloc);
    push_differences(alloc, &list, &mut lines)?;
    Ok(lines)
}

/// These lines where both outcomes are trees.
pub(crate) fn lines_where(
    alloc: Global,
    first: &Outcome,
    second: &Outcome,
) -> Result<Text, NoMemory>
    ensures { IfOk result (ListsWhere (outcome_of first.now) (outcome_of second.now)) }
{
    match (first, second) {
        (Outcome::Ended(left), Outcome::Ended(right)) => lines_between(alloc, left, right),
        _ => Ok(Text::new(alloc)),
    }
}
