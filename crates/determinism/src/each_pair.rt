//! Whether the programs of a pair commute, asked over the domain of these two alone, so that a conflict about one pair goes
//! through no gate of another.

ghost use Rattle.std.specs.Prelude.{◌≡◌, ◌≤◌, ◌<◌, map, length, slice_index_or, IsTrue, IfOk, IfSome};
ghost use Rattle.fs_semantics.specs.Programs.{Id};
ghost use Rattle.fs_semantics.specs.Changes.{Commutes};
ghost use Rattle.fs_lang.specs.Meaning.{program_of};
ghost use Rattle.determinism.specs.Settled.{PairCommutes};

use crate::pairs::question;
use answering::refuted;
use commute_prune::unordered;
use fs_lang::Program;
use kept_graph::program_at;
use plans::Plan;
use proof_check::Verified;
use rh_base::{NoMemory, Seq};
use std::alloc::Global;

/// Copies of two of the programs.
fn two_programs(
    alloc: Global,
    programs: &[Program],
    a: u32,
    b: u32,
) -> Result<Seq<Program>, NoMemory>
    requires a { a < length programs.now }
    requires b { b < length programs.now }
    ensures long { IfOk result (λ two. length two ≡ 2) }
    ensures first { IfOk result (λ two. slice_index_or (map program_of two) 0 Id ≡ slice_index_or (map program_of programs.now) a Id) }
    ensures second { IfOk result (λ two. slice_index_or (map program_of two) 1 Id ≡ slice_index_or (map program_of programs.now) b Id) }
{
    let mut two = Seq::new(alloc);
    two.push(program_at(alloc, programs, a)?)?;
    two.push(program_at(alloc, programs, b)?)?;
    Ok(two)
}

/// A refuted formula, where two programs commute.
fn commute(
    alloc: Global,
    programs: &[Program],
    a: u32,
    b: u32,
    budget: u64,
) -> Result<Option<Verified>, NoMemory>
    requires a { a < length programs.now }
    requires b { b < length programs.now }
    requires budget { 1 ≤ budget }
    ensures { IfOk result (λ found. IfSome found
        (λ v. Commutes (slice_index_or (map program_of programs.now) a Id)
        (slice_index_or (map program_of programs.now) b Id))) }
{
    let two = two_programs(alloc, programs, a, b)?;
    let order = unordered(alloc, 2)?;
    let pair = Plan {
        programs: two.as_slice(),
        order: &order,
    };
    let (cnf, firsts) = question(alloc, &pair)?;
    refuted(alloc, cnf, firsts.as_slice(), budget)
}

/// A refuted formula, where the programs of a pair commute. There is none where they don't, where the budget was spent, or where the
/// numbers aren't those of programs.
pub(crate) fn pair_commutes(
    alloc: Global,
    programs: &[Program],
    pair: (u32, u32),
    budget: u64,
) -> Result<Option<Verified>, NoMemory>
    requires { 1 ≤ budget }
    ensures { IfOk result (λ found. IfSome found (λ v. PairCommutes (map program_of programs.now) pair)) }
{
    let n = programs.len();
    if pair.0 as usize >= n || pair.1 as usize >= n {
        return Ok(None);
    }
    commute(alloc, programs, pair.0, pair.1, budget)
}

/// Whether the programs of a pair commute by the steps that they share, as those of packages do that list the same files: no formula is
/// needed then. Where it isn't told nothing is known.
pub(crate) fn commute_by_parts(
    alloc: Global,
    programs: &[Program],
    pair: (u32, u32),
) -> Result<bool, NoMemory>
    ensures { IfOk result (λ told. IsTrue told → PairCommutes (map program_of programs.now) pair) }
{
    let n = programs.len();
    if pair.0 as usize >= n || pair.1 as usize >= n {
        return Ok(false);
    }
    commuting_parts::commute_by_parts(
        alloc,
        &programs[pair.0 as usize],
        &programs[pair.1 as usize],
    )
}
