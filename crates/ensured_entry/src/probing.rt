//! The domain of the programs and the probe.

ghost use Rattle.std.specs.Prelude.{◌≡◌, ◌++◌, ◌∷◌, [], map, IfOk};
ghost use Rattle.fs_lang.specs.Meaning.{program_of, programs_in};
ghost use Rattle.fs_interpreter.specs.Places.{CoversSteps};
ghost use Rattle.finite_domain.specs.Layouts.{IsLayout};
ghost use Rattle.path_domain.specs.Laid.{layout_of};
ghost use Rattle.size_limits.specs.Paths.{HasPaths};
ghost use Rattle.wanted_entry.specs.Entries.{probe_of};
ghost use Rattle.ensured_entry.specs.Probed.{IsProbed};

use fs_lang::Program;
use path_domain::{Domain, domain};
use rh_base::{NoMemory, Seq};
use size_limits::paths_of;
use std::alloc::Global;
use wanted_entry::Wanted;

/// Equal programs.
fn copies(alloc: Global, programs: &[Program]) -> Result<Seq<Program>, NoMemory>
    ensures { IfOk result (λ all. all ≡ programs.now) }
{
    let mut all = Seq::new(alloc);
    for program in programs {
        all.push(program.copy(alloc)?)?;
    }
    Ok(all)
}

/// The programs, and behind them the probe.
fn with_probe(
    alloc: Global,
    programs: &[Program],
    wanted: &Wanted,
) -> Result<Seq<Program>, NoMemory>
    ensures { IfOk result (IsProbed programs.now wanted.now) }
{
    let mut all = copies(alloc, programs)?;
    let probe = wanted.probe(alloc)?;
    all.push(probe)?;
    Ok(all)
}

/// The domain of the programs and the probe.
pub(crate) fn domain_with_probe(
    alloc: Global,
    programs: &[Program],
    wanted: &Wanted,
) -> Result<Domain, NoMemory>
    ensures layout { IfOk result (λ d. IsLayout (map program_of programs.now ++ probe_of wanted.now ∷ []) (layout_of d)) }
    ensures covers { IfOk result (λ d. CoversSteps d.table (programs_in programs.now)) }
{
    let all = with_probe(alloc, programs, wanted)?;
    domain(alloc, all.as_slice())
}

/// How many paths the domain of the programs and the probe has.
pub fn paths_with_probe(
    alloc: Global,
    programs: &[Program],
    wanted: &Wanted,
) -> Result<u64, NoMemory>
    ensures { IfOk result (HasPaths (map program_of programs.now ++ probe_of wanted.now ∷ [])) }
{
    let d = domain_with_probe(alloc, programs, wanted)?;
    Ok(paths_of(&d))
}
