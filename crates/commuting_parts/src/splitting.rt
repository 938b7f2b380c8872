//! Lists of steps in two halves, and what each of them is about.

ghost use Rattle.std.specs.Prelude.{◌≡◌, ◌≤◌, [], ◌∷◌, ◌++◌, false, length, slice_index_or, IsTrue, IfOk, IfSome};
ghost use Rattle.fs_semantics.specs.Programs.{If, Rm};
ghost use Rattle.fs_lang.specs.Meaning.{test_of, program_of};
ghost use Rattle.effect_sets.specs.Footprints.{footprint};
ghost use Rattle.commuting_parts.specs.Parts.{part, IsApartFrom};
ghost use Rattle.commuting_parts.specs.Sweeps.{sweep, RemovesAt};
ghost use Rattle.commuting_parts.specs.Splits.{WhereMarked, AreAhead, AreOrderedParts, IsSplit};

use crate::commuting::does_nothing;
use crate::gathering::print_of_list;
use crate::parts::{Parts, is_marked, parted, step_is_apart};
use crate::same::same_path;
use fs_lang::{Path, Program, Test};
use rh_base::{NoMemory, Seq};
use std::alloc::Global;
use std::collections::BTreeSet;

/// The parts of the steps ahead of the first sweep, and those of the rest.
#[derive(Debug, Drop)]
pub(crate) struct Split {
    pub first: Parts,
    pub behind: Parts,
}

/// Whether the program removes what stands at the path.
fn removes(program: &Program, p: &Path) -> bool
    ensures { IsTrue result → program_of program.now ≡ Rm p.now }
{
    match program {
        Program::Rm(q) => same_path(q, p),
        _ => false,
    }
}

/// The path of a folder that goes if it is empty.
fn swept_if<'a>(test: &'a Test, e: &Program, f: &Program) -> Option<&'a Path>
    ensures { IfSome result (λ p. If (test_of test.now) (program_of e.now) (program_of f.now) ≡ sweep p.now) }
{
    let Test::IsEmpty(p) = test else {
        return None;
    };
    if removes(e, p) && does_nothing(f) {
        Some(p)
    } else {
        None
    }
}

/// The path of what goes if it is a file.
fn dropped_if<'a>(test: &'a Test, e: &Program, f: &Program) -> Option<&'a Path>
    ensures { IfSome result (λ p. RemovesAt p.now (If (test_of test.now) (program_of e.now) (program_of f.now))) }
{
    let Test::IsFile(p) = test else {
        return None;
    };
    if removes(e, p) && does_nothing(f) {
        Some(p)
    } else {
        None
    }
}

/// The folder that a sweep is about.
#[tactic(auto, using(fs_lang::specs::Meaning::program_of_if))]
pub(crate) fn swept_path(step: &Program) -> Option<&Path>
    ensures { IfSome result (λ p. program_of step.now ≡ sweep p.now) }
{
    match step {
        Program::If(test, e, f) => swept_if(test, e.get(), f.get()),
        _ => None,
    }
}

/// What is removed, asked for or not.
#[tactic(auto, using(fs_lang::specs::Meaning::program_of_if))]
fn dropped_path(step: &Program) -> Option<&Path>
    ensures { IfSome result (λ p. RemovesAt p.now (program_of step.now)) }
{
    match step {
        Program::Rm(p) => Some(p),
        Program::If(test, e, f) => dropped_if(test, e.get(), f.get()),
        _ => None,
    }
}

/// The path of what a step removes, if it does nothing else.
pub(crate) fn removed_path(step: &Program) -> Option<&Path>
    ensures { IfSome result (λ p. RemovesAt p.now (program_of step.now)) }
{
    match swept_path(step) {
        Some(p) => Some(p),
        None => dropped_path(step),
    }
}

/// How many steps stand ahead of the first sweep.
pub(crate) fn up_to_sweeps(steps: &[Program]) -> usize
    ensures { result ≤ length steps.now }
{
    let mut count = 0;
    for step in steps {
        if swept_path(step).is_some() {
            return count;
        }
        count += 1;
    }
    count
}

fn marks_from(marks: &[bool], from: usize) -> &[bool] {
    if from <= marks.len() {
        &marks[from..]
    } else {
        &[]
    }
}

/// Whether the step is apart from the shared ones ahead of it.
fn is_ahead(
    alloc: Global,
    folders: &BTreeSet<Path>,
    step: &Program,
    front: &[Program],
) -> Result<bool, NoMemory>
    ensures { IfOk result (λ told. IsTrue told → IsApartFrom folders.now (footprint (part front.now)) (program_of step.now)) }
{
    let print = print_of_list(alloc, front)?;
    step_is_apart(alloc, folders, step, &print)
}

/// Takes a marked step to those ahead of the next; of another one, whether it is apart from them.
fn take_step(
    alloc: Global,
    folders: &BTreeSet<Path>,
    step: &Program,
    is_marked: bool,
    front: &mut Seq<Program>,
) -> Result<bool, NoMemory>
    ensures { IfOk result (λ told. IsTrue told → WhereMarked is_marked (front.new ≡ front.old ++ step.now ∷ [])
        ((front.new ≡ front.old) × IsApartFrom folders.now (footprint (part front.old)) (program_of step.now))) }
{
    if is_marked {
        let copy = step.copy(alloc)?;
        front.push(copy)?;
        return Ok(true);
    }
    is_ahead(alloc, folders, step, front.as_slice())
}

/// Whether each step that isn't marked is apart from the marked ones ahead of it.
fn are_ahead(
    alloc: Global,
    folders: &BTreeSet<Path>,
    steps: &[Program],
    marks: &[bool],
) -> Result<bool, NoMemory>
    ensures { IfOk result (λ told. IsTrue told → AreAhead folders.now (λ i. slice_index_or marks.now i false) 0 [] steps.now) }
{
    let mut front = Seq::new(alloc);
    for i in 0..steps.len() {
        if !take_step(alloc, folders, &steps[i], is_marked(marks, i), &mut front)? {
            return Ok(false);
        }
    }
    Ok(true)
}

/// The parts of these steps, if the own ones may go ahead of the shared ones.
fn ordered_parts(
    alloc: Global,
    folders: &BTreeSet<Path>,
    steps: &[Program],
    marks: &[bool],
) -> Result<Option<Parts>, NoMemory>
    ensures { IfOk result (λ found. IfSome found (AreOrderedParts folders.now steps.now)) }
{
    if !are_ahead(alloc, folders, steps, marks)? {
        return Ok(None);
    }
    let parts = parted(alloc, steps, marks)?;
    Ok(Some(parts))
}

/// The steps ahead of the first sweep and the rest, each of them those that are marked and the others. Nothing where an own step
/// of the rest may not go ahead of those that are marked.
pub(crate) fn halve(
    alloc: Global,
    folders: &BTreeSet<Path>,
    steps: &[Program],
    marks: &[bool],
) -> Result<Option<Split>, NoMemory>
    ensures { IfOk result (λ found. IfSome found (IsSplit folders.now steps.now)) }
{
    let count = up_to_sweeps(steps);
    let (front, back) = steps.split_at(count);
    match ordered_parts(alloc, folders, back, marks_from(marks, count))? {
        None => Ok(None),
        Some(behind) => {
            let first = parted(alloc, front, marks)?;
            Ok(Some(Split { first, behind }))
        }
    }
}
