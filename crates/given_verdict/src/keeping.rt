//! Whether programs leave given folders standing.

ghost use Rattle.std.specs.Prelude.{◌≡◌, map, IsTrue};
ghost use Rattle.std.specs.List.{AllByRecursion};
ghost use Rattle.fs_semantics.specs.FileTree.{is_among};
ghost use Rattle.fs_semantics.specs.Programs.{Steps};
ghost use Rattle.fs_lang.specs.Meaning.{program_of, programs_in};
ghost use Rattle.given_hosts.specs.Guard.{KeepsGiven};
ghost use Rattle.given_verdict.specs.Keeping.{Spares};

use fs_lang::{Path, Program};
use sure_folders::folders;

fn is_given(p: &Path, given: &[Path]) -> bool
    ensures { result ≡ is_among p.now given.now }
{
    for q in given {
        if p == q {
            return true;
        }
    }
    false
}

/// Whether the program has no removal of one of the paths.
#[cycle(sparing)]
#[tactic(auto, using(fs_lang::specs::Meaning::program_of_steps, fs_lang::specs::Meaning::program_of_if))]
fn spares(program: &Program, given: &[Path]) -> bool
    ensures { IsTrue result → Spares given.now (program_of program.now) }
{
    match program {
        Program::Rm(p) => !is_given(p, given),
        Program::Steps(es) => all_spare(es.as_slice(), given),
        Program::If(_test, e, f) => {
            let first = spares(e.get(), given);
            let second = spares(f.get(), given);
            first && second
        }
        Program::Id => true,
        Program::Err => true,
        Program::Mkdir(_) => true,
        Program::Creat(_, _) => true,
        Program::Link(_, _) => true,
        Program::Cp(_, _) => true,
    }
}

#[cycle(sparing)]
fn all_spare(programs: &[Program], given: &[Path]) -> bool
    ensures { IsTrue result → AllByRecursion (Spares given.now) (map program_of programs.now) }
{
    for program in programs {
        if !spares(program, given) {
            return false;
        }
    }
    true
}

/// Whether no program removes a given folder, as far as is seen without a run.
pub(crate) fn all_keep(programs: &[Program], given: &[Path]) -> bool
    ensures spares { IsTrue result → AllByRecursion (Spares given.now) (map program_of programs.now) }
    ensures keeps { IsTrue result → AllByRecursion (KeepsGiven given.now) (map program_of programs.now) }
{
    folders();
    all_spare(programs, given)
}
