//! The domain of two lists of programs together.

ghost use Rattle.std.specs.Prelude.{◌≡◌, ◌++◌, map, IfOk, OnOk};
ghost use Rattle.fs_lang.specs.Meaning.{program_of, programs_in};
ghost use Rattle.fs_interpreter.specs.Places.{CoversSteps};
ghost use Rattle.finite_domain.specs.Layouts.{IsLayout};
ghost use Rattle.path_domain.specs.Laid.{layout_of};
ghost use Rattle.size_limits.specs.Paths.{HasPaths};

use fs_lang::Program;
use path_domain::{Domain, domain};
use rh_base::{NoMemory, Seq};
use size_limits::paths_of;
use std::alloc::Global;

/// Adds equal programs.
fn copy_all(alloc: Global, programs: &[Program], into: &mut Seq<Program>) -> Result<(), NoMemory>
    ensures { OnOk result (into.new ≡ into.old ++ programs.now) }
{
    for program in programs {
        into.push(program.copy(alloc)?)?;
    }
    Ok(())
}

/// Equal programs, those of the right list behind those of the left.
pub(crate) fn joined(
    alloc: Global,
    left: &[Program],
    right: &[Program],
) -> Result<Seq<Program>, NoMemory>
    ensures { IfOk result (λ all. all ≡ left.now ++ right.now) }
{
    let mut all = Seq::new(alloc);
    copy_all(alloc, left, &mut all)?;
    copy_all(alloc, right, &mut all)?;
    Ok(all)
}

/// The domain of both.
pub(crate) fn domain_of_both(
    alloc: Global,
    left: &[Program],
    right: &[Program],
) -> Result<Domain, NoMemory>
    ensures layout { IfOk result (λ d. IsLayout (map program_of left.now ++ map program_of right.now) (layout_of d)) }
    ensures left { IfOk result (λ d. CoversSteps d.table (programs_in left.now)) }
    ensures right { IfOk result (λ d. CoversSteps d.table (programs_in right.now)) }
{
    let all = joined(alloc, left, right)?;
    domain(alloc, all.as_slice())
}

/// How many paths the domain of both has.
pub fn paths_of_both(alloc: Global, left: &[Program], right: &[Program]) -> Result<u64, NoMemory>
    ensures { IfOk result (HasPaths (map program_of left.now ++ map program_of right.now)) }
{
    let d = domain_of_both(alloc, left, right)?;
    Ok(paths_of(&d))
}
