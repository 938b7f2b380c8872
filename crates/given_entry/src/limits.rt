//! The limits of what is asked about with a probe, where folders are given.

ghost use Rattle.std.specs.Prelude.{map, IfOk, IfErr};
ghost use Rattle.rh_base.specs.Refused.{IfRefused};
ghost use Rattle.fs_lang.specs.Meaning.{program_of};
ghost use Rattle.size_limits.specs.Paths.{HasPaths};
ghost use Rattle.given_verdict.specs.Limits.{HasFewPathsWith, IsLightWith};
ghost use Rattle.given_entry.specs.Sizes.{probed, HasFewPathsProbed, IsTooWideProbed, IsTooLargeProbed};

use ensured_entry::paths_with_probe;
use fs_lang::{Path, Program};
use given_verdict::check_size_with;
use guarded_graph::guarded_programs;
use host_limits::Limits;
use rh_base::{Fault, NoMemory};
use size_limits::path_counts;
use std::alloc::Global;
use wanted_entry::Wanted;

/// How many paths the domain of the programs and the probe has, with the given paths.
fn path_count_probed(
    alloc: Global,
    programs: &[Program],
    given: &[Path],
    wanted: &Wanted,
) -> Result<u64, NoMemory>
    ensures { IfOk result (HasPaths (probed given.now (map program_of programs.now) wanted.now)) }
{
    if given.is_empty() {
        return paths_with_probe(alloc, programs, wanted);
    }
    let all = guarded_programs(alloc, programs, given)?;
    paths_with_probe(alloc, all.as_slice(), wanted)
}

/// Refuses programs of which, with the probe, the domain has too many paths.
fn check_probed(
    alloc: Global,
    programs: &[Program],
    given: &[Path],
    wanted: &Wanted,
    limits: Limits,
) -> Result<(), Fault>
    ensures paths { IfOk result (λ u. HasFewPathsProbed limits given.now (map program_of programs.now) wanted.now) }
    ensures refused { IfErr result (λ e. IfRefused e (IsTooWideProbed limits given.now (map program_of programs.now) wanted.now)) }
    ensures only { HasFewPathsProbed limits given.now (map program_of programs.now) wanted.now → IfErr result (λ e. IfRefused e (λ r. ⊥)) }
{
    path_counts();
    if path_count_probed(alloc, programs, given, wanted)? > limits.domain_paths() {
        return Err(Fault::refused(alloc, 70, 0, "domain"));
    }
    Ok(())
}

/// Refuses a graph that is too large to be asked about, or whose domain with the probe is.
#[tactic(auto, using(crate::proofs::LimitLaws::too_wide, crate::proofs::LimitLaws::too_large))]
pub(crate) fn check_size_probed(
    alloc: Global,
    programs: &[Program],
    given: &[Path],
    wanted: &Wanted,
    limits: Limits,
) -> Result<(), Fault>
    ensures paths { IfOk result (λ u. HasFewPathsWith limits given.now (map program_of programs.now)) }
    ensures probed { IfOk result (λ u. HasFewPathsProbed limits given.now (map program_of programs.now) wanted.now) }
    ensures weight { IfOk result (λ u. IsLightWith limits (map program_of programs.now)) }
    ensures refused { IfErr result (λ e. IfRefused e (IsTooLargeProbed limits given.now (map program_of programs.now) wanted.now)) }
    ensures only { HasFewPathsWith limits given.now (map program_of programs.now)
        → HasFewPathsProbed limits given.now (map program_of programs.now) wanted.now
        → IsLightWith limits (map program_of programs.now) → IfErr result (λ e. IfRefused e (λ r. ⊥)) }
{
    check_probed(alloc, programs, given, wanted, limits)?;
    check_size_with(alloc, programs, given, limits)?;
    Ok(())
}
