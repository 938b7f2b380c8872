//! The footprint of a program, from left to right.
//!
//! A forward analysis of data flow (Kildall 1973) in one pass, since programs have no loops. What is read, written and made
//! sure of is so in some run; a folder is sure where it is so in every run that comes there, so behind a choice where it is so
//! behind both branches, and to look at it isn't to read it. Where neither branch changes which folders are sure nothing is
//! copied for the second one.

ghost use Rattle.std.specs.Prelude.{◌≡◌, ◌&&◌, OnOk};
ghost use Rattle.fs_semantics.specs.Programs.{If, Rm, Cp};
ghost use Rattle.fs_lang.specs.Meaning.{test_of, program_of, programs_in};
ghost use Rattle.effect_sets.specs.Footprints.{joined, looking, making, removing, ensuring, sure_after, sure_after_steps, footprint_after, steps_footprint};
ghost use Rattle.effect_sets.specs.Members.{members, with_one, without_one};
ghost use Rattle.effect_sets.specs.Telling.{found_footprint};

use crate::found::{Found, ensure, look, make, remove};
use crate::keeping::{ensured_path, keeps};
use crate::looking::look_for;
use crate::sets::{add, common, copied, take_out};
use fs_lang::{Path, Program, Test};
use rh_base::NoMemory;
use std::alloc::Global;
use std::collections::BTreeSet;

/// A path that is removed isn't sure to be a folder any more.
fn walk_removal(
    alloc: Global,
    p: &Path,
    sure: &mut BTreeSet<Path>,
    found: &mut Found,
) -> Result<(), NoMemory>
    ensures footprint { OnOk result (found_footprint found.new ≡ joined (found_footprint found.old) (removing p.now (members sure.old))) }
    ensures sure { OnOk result (members sure.new ≡ without_one p.now (members sure.old)) }
{
    remove(alloc, found, p, sure)?;
    take_out(sure, p);
    Ok(())
}

/// A copy looks at the one path and makes the other.
fn walk_copy(
    alloc: Global,
    from: &Path,
    p: &Path,
    sure: &BTreeSet<Path>,
    found: &mut Found,
) -> Result<(), NoMemory>
    ensures { OnOk result (found_footprint found.new ≡ joined (found_footprint found.old)
        (joined (looking from.now (members sure.now)) (making p.now (members sure.now)))) }
{
    look(alloc, found, from, sure)?;
    make(alloc, found, p, sure)
}

/// A path that is made sure to be a folder.
fn walk_ensured(
    alloc: Global,
    p: &Path,
    sure: &mut BTreeSet<Path>,
    found: &mut Found,
) -> Result<(), NoMemory>
    ensures footprint { OnOk result (found_footprint found.new ≡ joined (found_footprint found.old) (ensuring p.now (members sure.old))) }
    ensures sure { OnOk result (members sure.new ≡ with_one p.now (members sure.old)) }
{
    ensure(alloc, found, p, sure)?;
    add(alloc, sure, p)
}

/// Adds the footprint of a program to what was found, and takes over which paths are sure to be folders behind it.
#[cycle(walked)]
#[tactic(auto, using(crate::proofs::WalkLaws::same_found, fs_lang::specs::Meaning::program_of_steps, fs_lang::specs::Meaning::program_of_if))]
pub(crate) fn walk(
    alloc: Global,
    program: &Program,
    sure: &mut BTreeSet<Path>,
    found: &mut Found,
) -> Result<(), NoMemory>
    ensures footprint { OnOk result
        (found_footprint found.new ≡ joined (found_footprint found.old) (footprint_after (program_of program.now) (members sure.old))) }
    ensures sure { OnOk result (members sure.new ≡ sure_after (program_of program.now) (members sure.old)) }
{
    match program {
        Program::Id | Program::Err => Ok(()),
        Program::Mkdir(p) => make(alloc, found, p, sure),
        Program::Creat(p, _) => make(alloc, found, p, sure),
        Program::Link(p, _) => make(alloc, found, p, sure),
        Program::Rm(p) => walk_removal(alloc, p, sure, found),
        Program::Cp(from, p) => walk_copy(alloc, from, p, sure, found),
        Program::Steps(es) => walk_all(alloc, es.as_slice(), sure, found),
        Program::If(a, e, f) => walk_choice(alloc, a, e.get(), f.get(), sure, found),
    }
}

#[cycle(walked)]
fn walk_all(
    alloc: Global,
    programs: &[Program],
    sure: &mut BTreeSet<Path>,
    found: &mut Found,
) -> Result<(), NoMemory>
    ensures footprint { OnOk result
        (found_footprint found.new ≡ joined (found_footprint found.old) (steps_footprint (programs_in programs.now) (members sure.old))) }
    ensures sure { OnOk result (members sure.new ≡ sure_after_steps (programs_in programs.now) (members sure.old)) }
{
    for program in programs {
        walk(alloc, program, sure, found)?;
    }
    Ok(())
}

#[cycle(walked)]
fn walk_choice(
    alloc: Global,
    test: &Test,
    e: &Program,
    f: &Program,
    sure: &mut BTreeSet<Path>,
    found: &mut Found,
) -> Result<(), NoMemory>
    ensures footprint { OnOk result
        (found_footprint found.new ≡ joined (found_footprint found.old)
        (footprint_after (If (test_of test.now) (program_of e.now) (program_of f.now)) (members sure.old))) }
    ensures sure { OnOk result
        (members sure.new ≡ sure_after (If (test_of test.now) (program_of e.now) (program_of f.now))
        (members sure.old)) }
{
    match ensured_path(test, e, f) {
        Some(p) => walk_ensured(alloc, p, sure, found),
        None => {
            look_for(alloc, test, sure, found)?;
            walk_branches(alloc, e, f, sure, found)
        }
    }
}

/// Both branches from the same paths; afterwards those are sure that are so behind both.
#[cycle(walked)]
fn walk_branches(
    alloc: Global,
    e: &Program,
    f: &Program,
    sure: &mut BTreeSet<Path>,
    found: &mut Found,
) -> Result<(), NoMemory>
    ensures footprint { OnOk result
        (found_footprint found.new ≡ joined (found_footprint found.old)
        (joined (footprint_after (program_of e.now) (members sure.old))
        (footprint_after (program_of f.now) (members sure.old)))) }
    ensures sure { OnOk result
        (members sure.new ≡ (λ q. sure_after (program_of e.now) (members sure.old) q && sure_after (program_of f.now)
        (members sure.old) q)) }
{
    let first = keeps(e, sure);
    let second = keeps(f, sure);
    if first && second {
        walk(alloc, e, sure, found)?;
        return walk(alloc, f, sure, found);
    }
    walk_apart(alloc, e, f, sure, found)
}

/// The same, where a branch changes the paths that are sure: the second one begins with a copy of them.
#[cycle(walked)]
fn walk_apart(
    alloc: Global,
    e: &Program,
    f: &Program,
    sure: &mut BTreeSet<Path>,
    found: &mut Found,
) -> Result<(), NoMemory>
    ensures footprint { OnOk result
        (found_footprint found.new ≡ joined (found_footprint found.old)
        (joined (footprint_after (program_of e.now) (members sure.old))
        (footprint_after (program_of f.now) (members sure.old)))) }
    ensures sure { OnOk result
        (members sure.new ≡ (λ q. sure_after (program_of e.now) (members sure.old) q && sure_after (program_of f.now)
        (members sure.old) q)) }
{
    let mut other = copied(alloc, sure)?;
    walk(alloc, e, sure, found)?;
    walk(alloc, f, &mut other, found)?;
    *sure = common(alloc, sure, &other)?;
    Ok(())
}
