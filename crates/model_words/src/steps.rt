//! Lists of steps.

ghost use Rattle.std.specs.Prelude.{◌≡◌, ◌∷◌, ◌++◌, [], ◌==◌, filter, map, length, IfOk, OnOk};
ghost use Rattle.fs_lang.specs.Meaning.{program_of};
ghost use Rattle.fs_semantics.specs.Programs.{Id, Creat, If, IsFile};
ghost use Rattle.model_semantics.specs.Words.{sequence, dir, dirs, sweep, mark, deepest, deepest_first};

use crate::programs::{branching, creation, is_file};
use crate::words::{dir, sweep};
use fs_lang::{Path, Program};
use rh_base::{Boxed, NoMemory, Seq};
use std::alloc::Global;

/// The program of some steps.
#[tactic(auto, using(fs_lang::specs::Meaning::program_of_steps, crate::proofs::StepLaws::two_or_more))]
pub fn sequence(steps: Seq<Program>) -> Program
    ensures { program_of result ≡ sequence (map program_of steps) }
{
    if steps.is_empty() {
        return Program::Id;
    }
    if steps.len() > 1 {
        return Program::Steps(steps);
    }
    only(steps)
}

/// The program of one step.
fn only(steps: Seq<Program>) -> Program
    requires { length steps ≡ 1 }
    ensures { program_of result ≡ sequence (map program_of steps) }
{
    let mut items = steps.into_vec();
    match items.pop() {
        Some(step) => step,
        None => Program::Id,
    }
}

/// Adds a step.
#[tactic(auto, using(crate::proofs::StepLaws::one_more))]
pub fn push(steps: &mut Seq<Program>, step: Program) -> Result<(), NoMemory>
    ensures { OnOk result (map program_of steps.new ≡ map program_of steps.old ++ program_of step ∷ []) }
{
    steps.push(step)
}

/// Adds the step that makes a folder.
pub fn push_dir(alloc: Global, p: &Path, steps: &mut Seq<Program>) -> Result<(), NoMemory>
    ensures { OnOk result (map program_of steps.new ≡ map program_of steps.old ++ dir p.now ∷ []) }
{
    let step = dir(alloc, p)?;
    push(steps, step)
}

/// Adds the steps that make the folders above a path.
pub fn push_dirs(alloc: Global, p: &Path, steps: &mut Seq<Program>) -> Result<(), NoMemory>
    ensures { OnOk result (map program_of steps.new ≡ map program_of steps.old ++ dirs p.now) }
{
    let count = p.segments().len().saturating_sub(1);
    for n in 0..count {
        let above = p.front(alloc, n + 1)?;
        push_dir(alloc, &above, steps)?;
    }
    Ok(())
}

/// Makes an empty file unless a file is there.
fn empty_file(alloc: Global, m: &Path) -> Result<Program, NoMemory>
    ensures { IfOk result (λ e. program_of e ≡ If (IsFile m.now) Id (Creat m.now [])) }
{
    let nothing = Boxed::new(alloc, Program::Id)?;
    let fresh = Boxed::new(alloc, creation(alloc, m, "")?)?;
    let test = is_file(alloc, m)?;
    Ok(branching(test, nothing, fresh))
}

/// Adds the steps of a mark.
pub fn push_mark(alloc: Global, m: &Path, steps: &mut Seq<Program>) -> Result<(), NoMemory>
    ensures { OnOk result (map program_of steps.new ≡ map program_of steps.old ++ mark m.now) }
{
    push_dirs(alloc, m, steps)?;
    let step = empty_file(alloc, m)?;
    push(steps, step)
}

/// How many segments the longest of the paths has.
fn deepest(paths: &[Path]) -> usize
    ensures { result ≡ deepest paths.now }
{
    let mut depth = 0;
    for p in paths {
        depth = depth.max(p.segments().len());
    }
    depth
}

/// Adds the sweeps of the folders of some depth.
fn push_sweeps_at(
    alloc: Global,
    depth: usize,
    paths: &[Path],
    steps: &mut Seq<Program>,
) -> Result<(), NoMemory>
    ensures { OnOk result (map program_of steps.new ≡ map program_of steps.old ++ map sweep (filter (λ p. length p == depth) paths.now)) }
{
    for p in paths {
        if p.segments().len() == depth {
            let step = sweep(alloc, p)?;
            push(steps, step)?;
        }
    }
    Ok(())
}

/// Adds the sweeps of folders, deeper ones first.
pub fn push_sweeps(alloc: Global, paths: &[Path], steps: &mut Seq<Program>) -> Result<(), NoMemory>
    ensures { OnOk result (map program_of steps.new ≡ map program_of steps.old ++ map sweep (deepest_first paths.now)) }
{
    let mut depth = deepest(paths);
    while depth > 0 {
        push_sweeps_at(alloc, depth, paths, steps)?;
        depth -= 1;
    }
    push_sweeps_at(alloc, 0, paths, steps)
}
