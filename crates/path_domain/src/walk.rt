//! What programs mention.

ghost use Rattle.std.specs.Prelude.{◌≡◌, ◌++◌, OnOk};
ghost use Rattle.fs_lang.specs.Meaning.{test_of, program_of, programs_in};
ghost use Rattle.finite_domain.specs.Matters.{matters_of_test, matters_of, matters_of_steps};
ghost use Rattle.path_domain.specs.Gathered.{gathered_of, gather};

use crate::found::{Found, see, see_both, watch, write};
use fs_lang::{Program, Test};
use rh_base::NoMemory;
use std::alloc::Global;

#[cycle(asked)]
#[tactic(auto, using(fs_lang::specs::Meaning::test_of_not, fs_lang::specs::Meaning::test_of_and, fs_lang::specs::Meaning::test_of_or))]
fn walk_test(alloc: Global, test: &Test, found: &mut Found) -> Result<(), NoMemory>
    ensures { OnOk result (gathered_of found.new ≡ gather (matters_of_test (test_of test.now)) (gathered_of found.old)) }
{
    match test {
        Test::True | Test::False => Ok(()),
        Test::Not(a) => walk_test(alloc, a.get(), found),
        Test::And(a, b) => walk_both(alloc, a.get(), b.get(), found),
        Test::Or(a, b) => walk_both(alloc, a.get(), b.get(), found),
        Test::IsFile(p) => see(alloc, found, p),
        Test::IsLink(p) => see(alloc, found, p),
        Test::IsDir(p) => see(alloc, found, p),
        Test::IsEmpty(p) => watch(alloc, found, p),
        Test::IsNone(p) => see(alloc, found, p),
    }
}

#[cycle(asked)]
fn walk_both(alloc: Global, a: &Test, b: &Test, found: &mut Found) -> Result<(), NoMemory>
    ensures { OnOk result (gathered_of found.new ≡ gather (matters_of_test (test_of a.now) ++ matters_of_test (test_of b.now)) (gathered_of found.old)) }
{
    walk_test(alloc, a, found)?;
    walk_test(alloc, b, found)
}

#[cycle(walked)]
#[tactic(auto, using(fs_lang::specs::Meaning::program_of_steps, fs_lang::specs::Meaning::program_of_if))]
fn walk(alloc: Global, program: &Program, found: &mut Found) -> Result<(), NoMemory>
    ensures { OnOk result (gathered_of found.new ≡ gather (matters_of (program_of program.now)) (gathered_of found.old)) }
{
    match program {
        Program::Id | Program::Err => Ok(()),
        Program::Mkdir(p) => see(alloc, found, p),
        Program::Creat(p, content) => write(alloc, found, p, content),
        Program::Link(p, target) => write(alloc, found, p, target),
        Program::Rm(p) => watch(alloc, found, p),
        Program::Cp(from, p) => see_both(alloc, found, from, p),
        Program::Steps(es) => walk_all(alloc, es.as_slice(), found),
        Program::If(a, e, f) => walk_choice(alloc, a, e.get(), f.get(), found),
    }
}

/// What all these programs mention, in order.
#[cycle(walked)]
pub(crate) fn walk_all(
    alloc: Global,
    programs: &[Program],
    found: &mut Found,
) -> Result<(), NoMemory>
    ensures { OnOk result (gathered_of found.new ≡ gather (matters_of_steps (programs_in programs.now)) (gathered_of found.old)) }
{
    for program in programs {
        walk(alloc, program, found)?;
    }
    Ok(())
}

#[cycle(walked)]
fn walk_choice(
    alloc: Global,
    a: &Test,
    e: &Program,
    f: &Program,
    found: &mut Found,
) -> Result<(), NoMemory>
    ensures { OnOk result (gathered_of found.new ≡ gather
        (matters_of_test (test_of a.now) ++ (matters_of (program_of e.now) ++ matters_of (program_of f.now)))
        (gathered_of found.old)) }
{
    walk_test(alloc, a, found)?;
    walk(alloc, e, found)?;
    walk(alloc, f, found)
}
