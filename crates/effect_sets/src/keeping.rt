//! Which paths are sure to be folders, and whether they stay so. It is asked of both branches ahead of a choice, so that the
//! set is copied only where one of them changes it.

ghost use Rattle.std.specs.Prelude.{◌≡◌, IsTrue, option_map};
ghost use Rattle.fs_semantics.specs.Programs.{If};
ghost use Rattle.fs_lang.specs.Meaning.{test_of, program_of, programs_in};
ghost use Rattle.effect_sets.specs.Footprints.{ensured, sure_after, sure_after_steps};
ghost use Rattle.effect_sets.specs.Members.{members};

use fs_lang::{Path, Program, Test};
use std::collections::BTreeSet;

/// The path of `if dir?(p) then id else mkdir(p)`, and of no other choice.
pub(crate) fn ensured_path<'a>(test: &'a Test, e: &Program, f: &Program) -> Option<&'a Path>
    ensures { option_map (λ p. p.now) result ≡ ensured (test_of test.now) (program_of e.now) (program_of f.now) }
{
    let Test::IsDir(p) = test else {
        return None;
    };
    let Program::Id = e else {
        return None;
    };
    let Program::Mkdir(q) = f else {
        return None;
    };
    if p == q { Some(p) } else { None }
}

/// Whether these paths are surely folders after the program too, and no others.
#[cycle(kept)]
#[tactic(auto, using(fs_lang::specs::Meaning::program_of_steps, fs_lang::specs::Meaning::program_of_if))]
pub(crate) fn keeps(program: &Program, sure: &BTreeSet<Path>) -> bool
    ensures { IsTrue result → sure_after (program_of program.now) (members sure.now) ≡ members sure.now }
{
    match program {
        Program::Rm(p) => !sure.contains(p),
        Program::Steps(es) => all_keep(es.as_slice(), sure),
        Program::If(a, e, f) => choice_keeps(a, e.get(), f.get(), sure),
        _ => true,
    }
}

#[cycle(kept)]
fn all_keep(programs: &[Program], sure: &BTreeSet<Path>) -> bool
    ensures { IsTrue result → sure_after_steps (programs_in programs.now) (members sure.now) ≡ members sure.now }
{
    for program in programs {
        if !keeps(program, sure) {
            return false;
        }
    }
    true
}

#[cycle(kept)]
fn choice_keeps(test: &Test, e: &Program, f: &Program, sure: &BTreeSet<Path>) -> bool
    ensures { IsTrue result → sure_after (If (test_of test.now) (program_of e.now) (program_of f.now))
        (members sure.now) ≡ members sure.now }
{
    match ensured_path(test, e, f) {
        Some(p) => sure.contains(p),
        None => {
            let first = keeps(e, sure);
            let second = keeps(f, sure);
            first && second
        }
    }
}
