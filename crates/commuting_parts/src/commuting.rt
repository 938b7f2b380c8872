//! Whether two programs commute, by their parts.

ghost use Rattle.std.specs.Prelude.{◌≡◌, IsTrue, IfOk};
ghost use Rattle.std.specs.BTreeSet.{BTreeSet as Set};
ghost use Rattle.fs_semantics.specs.FileTree.{Path as Segments};
ghost use Rattle.fs_semantics.specs.Programs.{Id, run};
ghost use Rattle.fs_semantics.specs.Changes.{Commutes};
ghost use Rattle.fs_lang.specs.Meaning.{test_of, program_of};
ghost use Rattle.commuting_parts.specs.Runs.{SwapFrom, LeavesTest};
ghost use Rattle.commuting_parts.specs.Prints.{TreeWith, CommuteWith};
ghost use Rattle.commuting_parts.specs.Parts.{runs};

use crate::apart::{are_apart, print_of};
use crate::folders::folders_behind;
use crate::gathering::{divide, folders_first};
use crate::laws::prints;
use crate::left::leaves_test;
use crate::parts::commute_by_shared;
use crate::same::same_program;
use crate::sweeping::commute_by_sweeps;
use fs_lang::{Path, Program, Test};
use rh_base::NoMemory;
use std::alloc::Global;
use std::collections::BTreeSet;

/// How many choices and lists are looked into, one within the other.
const DEPTH: u32 = 8;

pub(crate) fn does_nothing(program: &Program) -> bool
    ensures { IsTrue result → program_of program.now ≡ Id }
{
    matches!(program, Program::Id)
}

fn is_choice(program: &Program) -> bool {
    matches!(program, Program::If(..))
}

/// Whether one of the two does nothing, or both are one program.
fn is_plain_pair(e: &Program, f: &Program) -> bool
    ensures { IsTrue result → (folders : Set Segments) → CommuteWith folders (program_of e.now) (program_of f.now) }
{
    if does_nothing(e) || does_nothing(f) {
        return true;
    }
    same_program(e, f)
}

fn wholes_are_apart(
    alloc: Global,
    folders: &BTreeSet<Path>,
    e: &Program,
    f: &Program,
) -> Result<bool, NoMemory>
    ensures { IfOk result (λ told. IsTrue told → CommuteWith folders.now (program_of e.now) (program_of f.now)) }
{
    let left = print_of(alloc, e)?;
    let right = print_of(alloc, f)?;
    prints();
    Ok(are_apart(folders, &left, &right))
}

/// Whether the program leaves the test as it is.
fn is_left(
    alloc: Global,
    folders: &BTreeSet<Path>,
    test: &Test,
    f: &Program,
) -> Result<bool, NoMemory>
    ensures { IfOk result (λ told. IsTrue told → LeavesTest (TreeWith folders.now) (test_of test.now) (run (program_of f.now))) }
{
    let print = print_of(alloc, f)?;
    prints();
    Ok(leaves_test(&print, test))
}

/// Whether a choice commutes with a program that leaves its test.
#[cycle(commuting)]
#[tactic(auto, using(fs_lang::specs::Meaning::program_of_if))]
fn choice_commutes(
    alloc: Global,
    depth: u32,
    folders: &BTreeSet<Path>,
    e: &Program,
    f: &Program,
) -> Result<bool, NoMemory>
    ensures { IfOk result (λ told. IsTrue told → CommuteWith folders.now (program_of e.now) (program_of f.now)) }
{
    let Program::If(test, g, h) = e else {
        return Ok(false);
    };
    if !is_left(alloc, folders, test, f)? {
        return Ok(false);
    }
    if !commute_with(alloc, depth, folders, g.get(), f)? {
        return Ok(false);
    }
    commute_with(alloc, depth, folders, h.get(), f)
}

/// Lists of which one begins with folders that it makes sure of.
#[cycle(commuting)]
fn commute_behind_folders(
    alloc: Global,
    depth: u32,
    folders: &BTreeSet<Path>,
    es: &[Program],
    fs: &[Program],
) -> Result<bool, NoMemory>
    ensures { IfOk result (λ told. IsTrue told → SwapFrom (TreeWith folders.now) (runs es.now) (runs fs.now)) }
{
    let divided = divide(alloc, es)?;
    let others = divide(alloc, fs)?;
    let left = divided.get();
    let right = others.get();
    match folders_behind(alloc, folders, left, right)? {
        None => Ok(false),
        Some(behind) => {
            let rest = left.rest.get();
            let other = right.rest.get();
            commute_with(alloc, depth, &behind, rest, other)
        }
    }
}

#[cycle(commuting)]
fn lists_commute(
    alloc: Global,
    depth: u32,
    folders: &BTreeSet<Path>,
    es: &[Program],
    fs: &[Program],
) -> Result<bool, NoMemory>
    ensures { IfOk result (λ told. IsTrue told → SwapFrom (TreeWith folders.now) (runs es.now) (runs fs.now)) }
{
    if folders_first(es) > 0 || folders_first(fs) > 0 {
        return commute_behind_folders(alloc, depth, folders, es, fs);
    }
    if commute_by_shared(alloc, folders, es, fs)? {
        return Ok(true);
    }
    commute_by_sweeps(alloc, folders, es, fs)
}

/// Where neither is a choice.
#[cycle(commuting)]
#[tactic(auto, using(fs_lang::specs::Meaning::program_of_steps))]
fn others_commute(
    alloc: Global,
    depth: u32,
    folders: &BTreeSet<Path>,
    e: &Program,
    f: &Program,
) -> Result<bool, NoMemory>
    ensures { IfOk result (λ told. IsTrue told → CommuteWith folders.now (program_of e.now) (program_of f.now)) }
{
    match (e, f) {
        (Program::Steps(es), Program::Steps(fs)) => {
            lists_commute(alloc, depth, folders, es.as_slice(), fs.as_slice())
        }
        _ => wholes_are_apart(alloc, folders, e, f),
    }
}

/// Whether the two commute from the trees in which these folders stand.
#[cycle(commuting)]
fn commute_with(
    alloc: Global,
    depth: u32,
    folders: &BTreeSet<Path>,
    e: &Program,
    f: &Program,
) -> Result<bool, NoMemory>
    ensures { IfOk result (λ told. IsTrue told → CommuteWith folders.now (program_of e.now) (program_of f.now)) }
{
    if is_plain_pair(e, f) {
        return Ok(true);
    }
    if depth == 0 {
        return Ok(false);
    }
    if is_choice(e) {
        return choice_commutes(alloc, depth - 1, folders, e, f);
    }
    if is_choice(f) {
        return choice_commutes(alloc, depth - 1, folders, f, e);
    }
    others_commute(alloc, depth - 1, folders, e, f)
}

/// Whether two programs commute, as far as it is seen by their parts: they share steps word for word, and what is own to each is
/// apart from the rest. Where the answer is no, nothing is known.
pub fn commute_by_parts(alloc: Global, e: &Program, f: &Program) -> Result<bool, NoMemory>
    ensures { IfOk result (λ told. IsTrue told → Commutes (program_of e.now) (program_of f.now)) }
{
    let folders = BTreeSet::new(alloc);
    commute_with(alloc, DEPTH, &folders, e, f)
}
