//! Two orders that end apart.

ghost use Rattle.std.specs.Prelude.{◌≡◌, ◌<◌, length, map, IfOk};
ghost use Rattle.std.specs.List.{AllByRecursion};
ghost use Rattle.fs_lang.specs.Meaning.{program_of};
ghost use Rattle.fs_semantics.specs.Orders.{IsExchange};
ghost use Rattle.given_hosts.specs.Given.{IsCounterexampleFrom};
ghost use Rattle.orders.specs.Relation.{Relation, Comes};
ghost use Rattle.explained_runs.specs.Lines.{apart_lines};
ghost use Rattle.explained_runs.specs.Told.{ListsWhere, TellsApart};
ghost use Rattle.explained_runs.specs.Steps.{TellsBoth};
ghost use Rattle.fs_semantics.specs.Orders.{outcome};

use crate::exchange::{first_apart, name_at};
use crate::pieces::{push_exchange, push_first};
use crate::runs::{how_it_ends, lines_where};
use fs_lang::{Path, Program, Tree};
use fs_replay::replay;
use rh_base::{NoMemory, Seq, Text};
use smaller_witness::smaller_apart;
use std::alloc::Global;
use verdict_text::{push_bytes, push_tree};

/// A line for each path at which the outcomes of two orders differ.
fn lines_apart(
    alloc: Global,
    programs: &[Program],
    tree: &Tree,
    left: &[u32],
    right: &[u32],
) -> Result<Text, NoMemory>
    requires left { AllByRecursion (λ i. i < length programs.now) left.now }
    requires right { AllByRecursion (λ i. i < length programs.now) right.now }
    ensures { IfOk result (ListsWhere (outcome (map program_of programs.now) left.now tree.now)
        (outcome (map program_of programs.now) right.now tree.now)) }
{
    let first = replay(alloc, programs, left, tree)?;
    let second = replay(alloc, programs, right, tree)?;
    lines_where(alloc, &first, &second)
}

/// The lines of two runs from a tree.
fn put_together(
    alloc: Global,
    a: &str,
    b: &str,
    tree: &Tree,
    how: &Text,
    other: &Text,
    list: &Text,
) -> Result<Seq<u8>, NoMemory>
    ensures { IfOk result (λ lines. lines ≡ apart_lines a.now b.now tree.now how.now other.now list.now) }
{
    let mut bytes = Vec::new(alloc);
    push_exchange(alloc, a, b, &mut bytes)?;
    push_tree(alloc, tree, &mut bytes)?;
    push_first(alloc, a, how.as_str(), &mut bytes)?;
    push_first(alloc, b, other.as_str(), &mut bytes)?;
    push_bytes(list.as_str().as_bytes(), &mut bytes)?;
    Ok(Seq::from_vec(bytes))
}

/// The lines on the runs of two orders from a tree.
fn both_lines(
    alloc: Global,
    names: &[Text],
    programs: &[Program],
    tree: &Tree,
    left: &[u32],
    right: &[u32],
) -> Result<Seq<u8>, NoMemory>
    requires left { AllByRecursion (λ i. i < length programs.now) left.now }
    requires right { AllByRecursion (λ i. i < length programs.now) right.now }
    ensures { IfOk result (TellsBoth names.now (map program_of programs.now) tree.now left.now right.now) }
{
    let (a, b) = first_apart(left, right);
    let how = how_it_ends(alloc, names, programs, left, tree)?;
    let other = how_it_ends(alloc, names, programs, right, tree)?;
    let list = lines_apart(alloc, programs, tree, left, right)?;
    let first = name_at(names, a);
    let second = name_at(names, b);
    put_together(alloc, first, second, tree, &how, &other, &list)
}

/// The lines on two orders that end apart from a tree in which the given folders stand, or from a part of it in which they do.
pub fn apart_lines(
    alloc: Global,
    names: &[Text],
    programs: &[Program],
    tree: &Tree,
    left: &[u32],
    right: &[u32],
    given: &[Path],
) -> Result<Seq<u8>, NoMemory>
    requires left { AllByRecursion (λ i. i < length programs.now) left.now }
    requires right { AllByRecursion (λ i. i < length programs.now) right.now }
    ensures { IfOk result (λ lines. (order : Relation)
        → IsCounterexampleFrom given.now (map program_of programs.now) (Comes order) tree.now left.now right.now
        → IsExchange (Comes order) left.now right.now → TellsApart given.now names.now (map program_of programs.now) order lines) }
{
    let smaller = smaller_apart(alloc, programs, left, right, tree, given)?;
    both_lines(alloc, names, programs, &smaller, left, right)
}
