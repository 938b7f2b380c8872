//! The limits of what is asked about, where folders are given.

ghost use Rattle.std.specs.Prelude.{◌≡◌, map, false, IsTrue, IfOk, IfErr};
ghost use Rattle.rh_base.specs.Refused.{IfRefused};
ghost use Rattle.fs_lang.specs.Meaning.{program_of};
ghost use Rattle.host_limits.specs.Limits.{IsWeightWithin, IsWeightOver};
ghost use Rattle.size_limits.specs.Paths.{HasPaths};
ghost use Rattle.given_verdict.specs.Graphs.{asked_programs};
ghost use Rattle.given_verdict.specs.Limits.{HasFewPathsWith, IsLightWith, IsTooLargeWith};

use fs_lang::{Path, Program};
use guarded_graph::guarded_programs;
use host_limits::Limits;
use rh_base::{Fault, NoMemory};
use size_limits::{path_count, path_counts, weight, weights};
use std::alloc::Global;

/// How many paths the domain of these programs has, with the given paths.
fn path_count_with(alloc: Global, programs: &[Program], given: &[Path]) -> Result<u64, NoMemory>
    ensures { IfOk result (HasPaths (asked_programs given.now (map program_of programs.now))) }
{
    if given.is_empty() {
        return path_count(alloc, programs);
    }
    let all = guarded_programs(alloc, programs, given)?;
    path_count(alloc, all.as_slice())
}

/// Whether the weight is over the limit.
fn is_over(limits: Limits, weight: u64) -> bool
    ensures over { IsTrue result → IsWeightOver limits weight }
    ensures within { result ≡ false → IsWeightWithin limits weight }
{
    match limits.weight() {
        Some(most) => weight > most,
        None => false,
    }
}

/// Refuses programs that are too large to be asked about, from the trees in which these folders stand. The given paths are paths
/// of the domain; they don't weigh.
pub fn check_size_with(
    alloc: Global,
    programs: &[Program],
    given: &[Path],
    limits: Limits,
) -> Result<(), Fault>
    ensures paths { IfOk result (λ u. HasFewPathsWith limits given.now (map program_of programs.now)) }
    ensures weight { IfOk result (λ u. IsLightWith limits (map program_of programs.now)) }
    ensures refused { IfErr result (λ e. IfRefused e (IsTooLargeWith limits given.now (map program_of programs.now))) }
    // Programs within both limits aren't refused.
    ensures only { HasFewPathsWith limits given.now (map program_of programs.now)
        → IsLightWith limits (map program_of programs.now) → IfErr result (λ e. IfRefused e (λ r. ⊥)) }
{
    path_counts();
    weights();
    if path_count_with(alloc, programs, given)? > limits.domain_paths() {
        return Err(Fault::refused(alloc, 70, 0, "domain"));
    }
    let weighs = weight(alloc, programs)?;
    if is_over(limits, weighs) {
        return Err(Fault::refused(alloc, 70, 0, "weight"));
    }
    Ok(())
}
