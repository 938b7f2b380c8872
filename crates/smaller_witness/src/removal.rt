//! Trees without a part.

ghost use Rattle.std.specs.Prelude.{IfOk};
ghost use Rattle.fs_lang.specs.Meaning.{program_of};
ghost use Rattle.fs_lang.specs.Outcomes.{outcome_of};
ghost use Rattle.smaller_witness.specs.Smaller.{OnlyRemoves, EndsWithin};

use fs_lang::{Outcome, Path, Program, Tree};
use fs_replay::run;
use rh_base::{NoMemory, Seq};
use std::alloc::Global;

/// The entries at and below a path, as they stand.
fn part_at<'a>(alloc: Global, tree: &'a Tree, p: &Path) -> Result<Vec<&'a Path>, NoMemory> {
    let mut part = Vec::new(alloc);
    for (q, _) in tree.entries() {
        if q == p || p.is_ancestor(q) {
            part.push(q)?;
        }
    }
    Ok(part)
}

#[tactic(auto, using(crate::proofs::SmallerLaws::only_rm))]
fn removal(alloc: Global, q: &Path) -> Result<Program, NoMemory>
    ensures { IfOk result (λ e. OnlyRemoves (program_of e)) }
{
    Ok(Program::Rm(q.copy(alloc)?))
}

/// The program that removes them, each after what stands below it.
#[tactic(auto, using(fs_lang::specs::Meaning::program_of_steps, crate::proofs::SmallerLaws::only_steps))]
fn removals(alloc: Global, part: &[&Path]) -> Result<Program, NoMemory>
    ensures { IfOk result (λ e. OnlyRemoves (program_of e)) }
{
    let mut steps = Seq::new(alloc);
    for q in part.iter().rev() {
        steps.push(removal(alloc, q)?)?;
    }
    Ok(Program::Steps(steps))
}

/// The tree without what stands at the path and below it.
pub(crate) fn without(alloc: Global, tree: &Tree, p: &Path) -> Result<Outcome, NoMemory>
    ensures { IfOk result (λ o. EndsWithin tree.now (outcome_of o)) }
{
    let part = part_at(alloc, tree, p)?;
    let program = removals(alloc, &part)?;
    run(alloc, &program, tree)
}
