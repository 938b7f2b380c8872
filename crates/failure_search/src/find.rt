//! The construct that fails.

ghost use Rattle.std.specs.Prelude.{◌≡◌, ◌<◌, length, map, None, IfOk};
ghost use Rattle.std.specs.List.{AllByRecursion};
ghost use Rattle.failure_semantics.specs.Failures.{Reason as R};
ghost use Rattle.fs_semantics.specs.Programs.{If, run, run_all};
ghost use Rattle.fs_lang.specs.Meaning.{test_of, program_of, programs_in};
ghost use Rattle.failure_semantics.specs.Told.{no_place, not_gone, no_copy};
ghost use Rattle.failure_search.specs.Found.{reason_of, Finds, FindsInSteps, IsFound};

use crate::failure::{Failed, Failure, Reason};
use crate::fronts::{Searched, search};
use crate::questions::{holds, is_empty_dir, is_file, is_none};
use crate::steps::failing_step;
use failure_semantics::reasons;
use fs_lang::{Path, Program, Test, Tree};
use rh_base::NoMemory;
use std::alloc::Global;

/// Why nothing could be made at the path.
fn no_place<'a>(tree: &Tree, p: &Path) -> Reason<'a>
    ensures { reason_of result ≡ no_place tree.now p.now }
{
    if is_none(tree, p) {
        Reason::NoFolder
    } else {
        Reason::Exists
    }
}

/// Why nothing could be removed at the path.
fn not_gone<'a>(tree: &Tree, p: &Path) -> Reason<'a>
    ensures { reason_of result ≡ not_gone tree.now p.now }
{
    if is_none(tree, p) {
        Reason::NothingThere
    } else if is_empty_dir(tree, p) {
        Reason::TheRoot
    } else {
        Reason::NotEmpty
    }
}

/// Why no file could be copied.
fn no_copy<'a>(tree: &Tree, from: &Path, p: &Path) -> Reason<'a>
    ensures { reason_of result ≡ no_copy tree.now from.now p.now }
{
    if is_file(tree, from) {
        no_place(tree, p)
    } else {
        Reason::NoFile
    }
}

/// The failure of a program that ends in Error. Where it is `err`, that is for the given reason.
#[cycle(find)]
#[tactic(auto, using(fs_lang::specs::Meaning::program_of_steps, fs_lang::specs::Meaning::program_of_if))]
fn find<'a>(
    alloc: Global,
    why: Reason<'a>,
    program: &'a Program,
    tree: &Tree,
) -> Result<Failure<'a>, NoMemory>
    requires { run (program_of program.now) tree.now ≡ None }
    ensures { IfOk result (Finds (reason_of why.entry) (program_of program.now) tree.now) }
{
    reasons();
    let reason = match program {
        Program::Steps(es) => return find_in_steps(alloc, why, es.as_slice(), tree),
        Program::If(a, e, f) => return find_in_branch(alloc, a, e.get(), f.get(), tree),
        Program::Id => unreachable!(),
        Program::Err => why,
        Program::Mkdir(p) => no_place(tree, p),
        Program::Creat(p, _) => no_place(tree, p),
        Program::Link(p, _) => no_place(tree, p),
        Program::Rm(p) => not_gone(tree, p),
        Program::Cp(p, q) => no_copy(tree, p, q),
    };
    Ok(Failure {
        construct: program,
        reason,
    })
}

#[cycle(find)]
fn find_in_steps<'a>(
    alloc: Global,
    why: Reason<'a>,
    steps: &'a [Program],
    tree: &Tree,
) -> Result<Failure<'a>, NoMemory>
    requires { run_all (programs_in steps.now) tree.now ≡ None }
    ensures { IfOk result (FindsInSteps (reason_of why.entry) (programs_in steps.now) tree.now) }
{
    let (step, reached) = failing_step(alloc, steps, tree)?;
    find(alloc, why, step, &reached)
}

#[cycle(find)]
fn find_in_branch<'a>(
    alloc: Global,
    test: &'a Test,
    first: &'a Program,
    second: &'a Program,
    tree: &Tree,
) -> Result<Failure<'a>, NoMemory>
    requires { run (If (test_of test.now) (program_of first.now) (program_of second.now)) tree.now ≡ None }
    ensures { IfOk result (λ f. (r : R) → Finds r (If (test_of test.now) (program_of first.now) (program_of second.now)) tree.now f) }
{
    if holds(test, tree) {
        find(alloc, Reason::NeedsNot(test), first, tree)
    } else {
        find(alloc, Reason::Needs(test), second, tree)
    }
}

/// Where the run of programs in this order fails, if it ends in Error: the program at which it does, the construct that
/// gives Error, and why.
pub fn find_failure<'a>(
    alloc: Global,
    programs: &'a [Program],
    order: &[u32],
    tree: &Tree,
) -> Result<Option<Failed<'a>>, NoMemory>
    requires { AllByRecursion (λ i. i < length programs.now) order.now }
    ensures { IfOk result (IsFound (map program_of programs.now) order.now tree.now) }
{
    match search(alloc, programs, order, tree)? {
        Searched::Ends(_) => Ok(None),
        Searched::Fails(place, reached) => {
            let resource = order[place];
            let program = &programs[resource as usize];
            let failure = find(alloc, Reason::Always, program, &reached)?;
            Ok(Some(Failed { resource, failure }))
        }
    }
}
