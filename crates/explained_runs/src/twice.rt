//! A second run that changes what the first left.

ghost use Rattle.std.specs.Prelude.{◌≡◌, ◌<◌, ℕ, List, length, map, Some, IfOk};
ghost use Rattle.std.specs.List.{AllByRecursion};
ghost use Rattle.fs_lang.specs.Meaning.{program_of};
ghost use Rattle.fs_semantics.specs.Orders.{outcome};
ghost use Rattle.given_hosts.specs.Given.{IsSecondRunCounterexampleFrom};
ghost use Rattle.orders.specs.Relation.{Relation, Comes};
ghost use Rattle.explained_runs.specs.Lines.{again_lines};
ghost use Rattle.explained_runs.specs.Told.{ListsWhere, TellsAgain};
ghost use Rattle.explained_runs.specs.Steps.{TellsSecond};

use crate::pieces::push_second;
use crate::runs::{how_it_ends, lines_where};
use fs_lang::{Outcome, Path, Program, Tree};
use fs_replay::replay;
use rh_base::{NoMemory, Seq, Text};
use smaller_witness::smaller_again;
use std::alloc::Global;
use verdict_text::{push_bytes, push_tree};

/// A line for each path at which a run changes a tree.
fn lines_changed(
    alloc: Global,
    programs: &[Program],
    order: &[u32],
    after: Tree,
) -> Result<Text, NoMemory>
    requires { AllByRecursion (λ i. i < length programs.now) order.now }
    ensures { IfOk result (ListsWhere (Some after) (outcome (map program_of programs.now) order.now after)) }
{
    let second = replay(alloc, programs, order, &after)?;
    lines_where(alloc, &Outcome::Ended(after), &second)
}

/// The lines of a second run, where the first began in this tree.
fn put_together(alloc: Global, tree: &Tree, how: &Text, list: &Text) -> Result<Seq<u8>, NoMemory>
    ensures { IfOk result (λ lines. lines ≡ again_lines tree.now how.now list.now) }
{
    let mut bytes = Vec::new(alloc);
    push_tree(alloc, tree, &mut bytes)?;
    push_second(alloc, how.as_str(), &mut bytes)?;
    push_bytes(list.as_str().as_bytes(), &mut bytes)?;
    Ok(Seq::from_vec(bytes))
}

/// The lines on a second run, where the first began in one tree and ended in another.
fn second_lines(
    alloc: Global,
    names: &[Text],
    programs: &[Program],
    tree: &Tree,
    order: &[u32],
    after: Tree,
) -> Result<Seq<u8>, NoMemory>
    requires { AllByRecursion (λ i. i < length programs.now) order.now }
    ensures { IfOk result (TellsSecond names.now (map program_of programs.now) tree.now order.now after) }
{
    let how = how_it_ends(alloc, names, programs, order, &after)?;
    let list = lines_changed(alloc, programs, order, after)?;
    put_together(alloc, tree, &how, &list)
}

/// The lines on a second run that changes what the first left from a tree in which the given folders stand, or from a part of it in
/// which they do.
pub fn again_lines(
    alloc: Global,
    names: &[Text],
    programs: &[Program],
    tree: &Tree,
    order: &[u32],
    given: &[Path],
) -> Result<Seq<u8>, NoMemory>
    requires { AllByRecursion (λ i. i < length programs.now) order.now }
    ensures { IfOk result (λ lines. (o : Relation)
        → IsSecondRunCounterexampleFrom given.now (map program_of programs.now) (Comes o) tree.now order.now
        → TellsAgain given.now names.now (map program_of programs.now) o order.now lines) }
{
    let smaller = smaller_again(alloc, programs, order, tree, given)?;
    match replay(alloc, programs, order, &smaller)? {
        Outcome::Ended(after) => second_lines(alloc, names, programs, &smaller, order, after),
        Outcome::Error => Ok(Seq::new(alloc)),
    }
}
