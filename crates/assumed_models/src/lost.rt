//! Programs in which edits are lost.

ghost use Rattle.std.specs.Prelude.{◌≡◌, ◌++◌, map, IfOk, OnOk};
ghost use Rattle.std.specs.List.{flat_map};
ghost use Rattle.fs_semantics.specs.Programs.{If};
ghost use Rattle.fs_lang.specs.Meaning.{test_of, program_of};
ghost use Rattle.assumed_models.specs.Edits.{edits_beside, marks_of};
ghost use Rattle.assumed_models.specs.LostEdits.{drops_behind, inside, lost_steps, with_lost_edits};

use crate::edits::Edits;
use fs_lang::{Program, Test};
use model_words::{branching, push, sequence};
use rh_base::{Boxed, NoMemory, Seq};
use std::alloc::Global;

/// What follows a construct.
fn drops_behind(
    alloc: Global,
    edits: &Edits,
    place: usize,
    program: &Program,
) -> Result<Seq<Program>, NoMemory>
    ensures { IfOk result (λ drops. map program_of drops ≡ drops_behind (marks_of (edits_beside place edits.now))
        (program_of program.now)) }
{
    match program {
        Program::Creat(p, _) => edits.drops(alloc, place, p),
        Program::Link(p, _) => edits.drops(alloc, place, p),
        Program::Rm(p) => edits.drops(alloc, place, p),
        Program::Cp(_, p) => edits.drops(alloc, place, p),
        Program::Id | Program::Err | Program::Mkdir(_) | Program::Steps(_) | Program::If(_, _, _) =>
            Ok(Seq::new(alloc)),
    }
}

/// Adds steps.
fn push_all(more: Seq<Program>, steps: &mut Seq<Program>) -> Result<(), NoMemory>
    ensures { OnOk result (map program_of steps.new ≡ map program_of steps.old ++ map program_of more) }
{
    for step in more.into_vec() {
        push(steps, step)?;
    }
    Ok(())
}

/// Adds a construct, and what follows it.
#[cycle(lost)]
fn push_lost(
    alloc: Global,
    edits: &Edits,
    place: usize,
    program: Boxed<Program>,
    steps: &mut Seq<Program>,
) -> Result<(), NoMemory>
    ensures { OnOk result (map program_of steps.new ≡ map program_of steps.old ++ lost_steps
        (marks_of (edits_beside place edits.now)) (program_of program)) }
{
    let drops = drops_behind(alloc, edits, place, program.get())?;
    let step = inside(alloc, edits, place, program)?;
    push(steps, step)?;
    push_all(drops, steps)
}

/// Steps, each with what follows it.
#[cycle(lost)]
fn all_inside(
    alloc: Global,
    edits: &Edits,
    place: usize,
    programs: Seq<Program>,
) -> Result<Seq<Program>, NoMemory>
    ensures { IfOk result (λ steps. map program_of steps ≡ flat_map
        (lost_steps (marks_of (edits_beside place edits.now))) (map program_of programs)) }
{
    let mut steps = Seq::new(alloc);
    for program in programs.into_vec() {
        let whole = Boxed::new(alloc, program)?;
        push_lost(alloc, edits, place, whole, &mut steps)?;
    }
    Ok(steps)
}

/// A choice, each branch with what follows it.
#[cycle(lost)]
fn branches(
    alloc: Global,
    edits: &Edits,
    place: usize,
    a: Test,
    e: Boxed<Program>,
    f: Boxed<Program>,
) -> Result<Program, NoMemory>
    ensures { IfOk result (λ g. program_of g ≡ If (test_of a)
        (with_lost_edits (marks_of (edits_beside place edits.now)) (program_of e))
        (with_lost_edits (marks_of (edits_beside place edits.now)) (program_of f))) }
{
    let left = with_lost(alloc, edits, place, e)?;
    let right = with_lost(alloc, edits, place, f)?;
    Ok(branching(a, left, right))
}

/// A construct in which edits are lost, without what follows it.
#[cycle(lost)]
fn inside(
    alloc: Global,
    edits: &Edits,
    place: usize,
    program: Boxed<Program>,
) -> Result<Program, NoMemory>
    ensures { IfOk result (λ g. program_of g ≡ inside (marks_of (edits_beside place edits.now)) (program_of program)) }
{
    match program.into_inner() {
        Program::Steps(es) => Ok(Program::Steps(all_inside(alloc, edits, place, es)?)),
        Program::If(a, e, f) => branches(alloc, edits, place, a, e, f),
        other => Ok(other),
    }
}

/// A construct in which edits are lost, with what follows it.
#[cycle(lost)]
fn with_lost(
    alloc: Global,
    edits: &Edits,
    place: usize,
    program: Boxed<Program>,
) -> Result<Boxed<Program>, NoMemory>
    ensures { IfOk result (λ g. program_of g ≡ with_lost_edits (marks_of (edits_beside place edits.now)) (program_of program)) }
{
    let mut steps = Seq::new(alloc);
    push_lost(alloc, edits, place, program, &mut steps)?;
    Boxed::new(alloc, sequence(steps))
}

/// The program of the resource at a place, in which each construct that writes a path is directly followed by the drops of the marks of
/// the path's edits by other resources.
pub fn with_lost_edits(
    alloc: Global,
    edits: &Edits,
    place: usize,
    program: Program,
) -> Result<Program, NoMemory>
    ensures { IfOk result (λ g. program_of g ≡ with_lost_edits (marks_of (edits_beside place edits.now)) (program_of program)) }
{
    let whole = Boxed::new(alloc, program)?;
    let lost = with_lost(alloc, edits, place, whole)?;
    Ok(lost.into_inner())
}
