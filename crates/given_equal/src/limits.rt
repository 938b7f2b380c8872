//! The limits of two graphs that are compared, where folders are given.

ghost use Rattle.std.specs.Prelude.{map, IfOk, IfErr};
ghost use Rattle.rh_base.specs.Refused.{IfRefused};
ghost use Rattle.fs_lang.specs.Meaning.{program_of};
ghost use Rattle.size_limits.specs.Paths.{HasPaths};
ghost use Rattle.given_equal.specs.Sizes.{joined, HasFewPathsJoined, IsTooWideJoined, AreWithinWith, IsTooLargeJoined};

use equal_graphs::paths_of_both;
use fs_lang::{Path, Program};
use given_verdict::check_size_with;
use guarded_graph::guarded_programs;
use host_limits::Limits;
use rh_base::{Fault, NoMemory};
use size_limits::path_counts;
use std::alloc::Global;

/// How many paths the domain of both has, with the given paths.
fn path_count_joined(
    alloc: Global,
    left: &[Program],
    right: &[Program],
    given: &[Path],
) -> Result<u64, NoMemory>
    ensures { IfOk result (HasPaths (joined given.now (map program_of left.now) (map program_of right.now))) }
{
    if given.is_empty() {
        return paths_of_both(alloc, left, right);
    }
    let one = guarded_programs(alloc, left, given)?;
    let second = guarded_programs(alloc, right, given)?;
    paths_of_both(alloc, one.as_slice(), second.as_slice())
}

/// Refuses programs of which together the domain has too many paths.
fn check_joined(
    alloc: Global,
    left: &[Program],
    right: &[Program],
    given: &[Path],
    limits: Limits,
) -> Result<(), Fault>
    ensures paths { IfOk result (λ u. HasFewPathsJoined limits given.now (map program_of left.now) (map program_of right.now)) }
    ensures refused { IfErr result
        (λ e. IfRefused e (IsTooWideJoined limits given.now (map program_of left.now) (map program_of right.now))) }
    ensures only { HasFewPathsJoined limits given.now (map program_of left.now) (map program_of right.now)
        → IfErr result (λ e. IfRefused e (λ r. ⊥)) }
{
    path_counts();
    if path_count_joined(alloc, left, right, given)? > limits.domain_paths() {
        return Err(Fault::refused(alloc, 70, 0, "domain"));
    }
    Ok(())
}

/// Refuses graphs that are too large to be compared.
#[tactic(auto, using(crate::proofs::LimitLaws::both_too_wide, crate::proofs::LimitLaws::left_too_large, crate::proofs::LimitLaws::right_too_large))]
pub(crate) fn check_within(
    alloc: Global,
    left: &[Program],
    right: &[Program],
    given: &[Path],
    limits: Limits,
) -> Result<(), Fault>
    ensures within { IfOk result (λ u. AreWithinWith limits given.now (map program_of left.now) (map program_of right.now)) }
    ensures refused { IfErr result
        (λ e. IfRefused e (IsTooLargeJoined limits given.now (map program_of left.now) (map program_of right.now))) }
    ensures only { AreWithinWith limits given.now (map program_of left.now) (map program_of right.now)
        → IfErr result (λ e. IfRefused e (λ r. ⊥)) }
{
    check_joined(alloc, left, right, given, limits)?;
    check_size_with(alloc, left, given, limits)?;
    check_size_with(alloc, right, given, limits)?;
    Ok(())
}
