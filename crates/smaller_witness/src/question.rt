//! Whether a tree shows what another one showed.

ghost use Rattle.std.specs.Prelude.{◌≡◌, ◌≢◌, ◌↔◌, length, map, Some, None, IsTrue, IfOk};
ghost use Rattle.fs_lang.specs.Meaning.{program_of};
ghost use Rattle.fs_lang.specs.Outcomes.{outcome_of};
ghost use Rattle.smaller_witness.specs.Smaller.{AreBelow, EndApart, ChangesAgain, IsAnswerable, Shows};

use fs_lang::{Outcome, Program, Tree};
use fs_replay::replay;
use rh_base::NoMemory;
use std::alloc::Global;
use tree_differences::{difference_lists, differences};

/// What a tree is to show: that two orders end apart from it, or that a second run in an order changes what the first left.
#[derive(Clone, Copy)]
pub(crate) enum Question<'a> {
    Apart(&'a [u32], &'a [u32]),
    Again(&'a [u32]),
}

fn are_apart(alloc: Global, first: &Tree, second: &Tree) -> Result<bool, NoMemory>
    ensures { IfOk result (λ apart. IsTrue apart ↔ (first.now ≢ second.now)) }
{
    difference_lists();
    let list = differences(alloc, first, second)?;
    let listed = list.as_slice();
    Ok(!listed.is_empty())
}

fn end_apart(alloc: Global, first: &Outcome, second: &Outcome) -> Result<bool, NoMemory>
    ensures { IfOk result (λ apart. IsTrue apart ↔ (outcome_of first.now ≢ outcome_of second.now)) }
{
    match (first, second) {
        (Outcome::Error, Outcome::Error) => Ok(false),
        (Outcome::Ended(left), Outcome::Ended(right)) => are_apart(alloc, left, right),
        _ => Ok(true),
    }
}

fn shows_apart(
    alloc: Global,
    programs: &[Program],
    left: &[u32],
    right: &[u32],
    tree: &Tree,
) -> Result<bool, NoMemory>
    requires left { AreBelow (length programs.now) left.now }
    requires right { AreBelow (length programs.now) right.now }
    ensures { IfOk result (λ shows. IsTrue shows ↔ EndApart (map program_of programs.now) left.now right.now tree.now) }
{
    let first = replay(alloc, programs, left, tree)?;
    let second = replay(alloc, programs, right, tree)?;
    end_apart(alloc, &first, &second)
}

fn shows_again(
    alloc: Global,
    programs: &[Program],
    order: &[u32],
    tree: &Tree,
) -> Result<bool, NoMemory>
    requires { AreBelow (length programs.now) order.now }
    ensures { IfOk result (λ shows. IsTrue shows ↔ ChangesAgain (map program_of programs.now) order.now tree.now) }
{
    let Outcome::Ended(after) = replay(alloc, programs, order, tree)? else {
        return Ok(false);
    };
    match replay(alloc, programs, order, &after)? {
        Outcome::Error => Ok(true),
        Outcome::Ended(last) => are_apart(alloc, &last, &after),
    }
}

pub(crate) fn shows(
    alloc: Global,
    programs: &[Program],
    question: Question,
    tree: &Tree,
) -> Result<bool, NoMemory>
    requires { IsAnswerable (length programs.now) question }
    ensures { IfOk result (λ shows. IsTrue shows ↔ Shows (map program_of programs.now) question.entry tree.now) }
{
    match question {
        Question::Apart(left, right) => shows_apart(alloc, programs, left, right, tree),
        Question::Again(order) => shows_again(alloc, programs, order, tree),
    }
}
