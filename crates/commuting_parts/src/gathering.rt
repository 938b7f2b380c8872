//! Steps that are gathered into programs.

ghost use Rattle.std.specs.Prelude.{◌≡◌, ◌≤◌, length, IfOk};
ghost use Rattle.fs_semantics.specs.FileTree.{Tree};
ghost use Rattle.fs_semantics.specs.Programs.{run};
ghost use Rattle.fs_lang.specs.Meaning.{program_of};
ghost use Rattle.commuting_parts.specs.Parts.{runs, part, IsDivided};
ghost use Rattle.commuting_parts.specs.Prints.{IsPrintOf};

use crate::apart::print_of;
use effect_sets::Footprint;
use fs_lang::{Program, Test};
use rh_base::{Boxed, NoMemory, Seq};
use std::alloc::Global;

/// The first steps of a list, which make sure of folders, and the rest, with the footprint of each.
#[derive(Debug, Drop)]
pub(crate) struct Divided {
    pub made: Boxed<Program>,
    pub made_print: Boxed<Footprint>,
    pub rest: Boxed<Program>,
    pub rest_print: Boxed<Footprint>,
}

fn copied(alloc: Global, steps: &[Program]) -> Result<Seq<Program>, NoMemory>
    ensures { IfOk result (λ copies. copies ≡ steps.now) }
{
    let mut copies = Seq::new(alloc);
    for step in steps {
        copies.push(step.copy(alloc)?)?;
    }
    Ok(copies)
}

/// The program of these steps, which is the step itself where there is one.
#[tactic(auto, using(fs_lang::specs::Meaning::program_of_steps))]
fn gathered(alloc: Global, steps: &[Program]) -> Result<Boxed<Program>, NoMemory>
    ensures { IfOk result (λ e. (t : Tree) → run (program_of e) t ≡ runs steps.now t) }
{
    if steps.len() == 1 {
        return Boxed::new(alloc, steps[0].copy(alloc)?);
    }
    Boxed::new(alloc, Program::Steps(copied(alloc, steps)?))
}

/// The footprint of the program in a box, in one too.
fn boxed_print(alloc: Global, program: &Boxed<Program>) -> Result<Boxed<Footprint>, NoMemory>
    ensures { IfOk result (IsPrintOf (program_of program.now)) }
{
    Boxed::new(alloc, print_of(alloc, program.get())?)
}

/// The footprint of these steps.
#[tactic(auto, using(fs_lang::specs::Meaning::program_of_steps))]
pub(crate) fn print_of_steps(
    alloc: Global,
    steps: Seq<Program>,
) -> Result<Boxed<Footprint>, NoMemory>
    ensures { IfOk result (IsPrintOf (part steps)) }
{
    let whole = Boxed::new(alloc, Program::Steps(steps))?;
    boxed_print(alloc, &whole)
}

/// The footprint of a list of steps.
pub(crate) fn print_of_list(alloc: Global, steps: &[Program]) -> Result<Footprint, NoMemory>
    ensures { IfOk result (IsPrintOf (part steps.now)) }
{
    let print = print_of_steps(alloc, copied(alloc, steps)?)?;
    Ok(print.into_inner())
}

fn makes_folder(step: &Program) -> bool {
    let Program::If(Test::IsDir(_), e, f) = step else {
        return false;
    };
    matches!(e.get(), Program::Id) && matches!(f.get(), Program::Mkdir(_))
}

/// How many steps stand ahead of the first one that doesn't make sure of a folder.
pub(crate) fn folders_first(steps: &[Program]) -> usize
    ensures { result ≤ length steps.now }
{
    let mut count = 0;
    for step in steps {
        if !makes_folder(step) {
            return count;
        }
        count += 1;
    }
    count
}

/// The steps that make sure of folders, as far as they come first, and the rest.
pub(crate) fn divide(alloc: Global, steps: &[Program]) -> Result<Boxed<Divided>, NoMemory>
    ensures { IfOk result (IsDivided steps.now) }
{
    let count = folders_first(steps);
    let (first, others) = steps.split_at(count);
    let made = gathered(alloc, first)?;
    let rest = gathered(alloc, others)?;
    let made_print = boxed_print(alloc, &made)?;
    let rest_print = boxed_print(alloc, &rest)?;
    let divided = Divided {
        made,
        made_print,
        rest,
        rest_print,
    };
    let boxed = Boxed::new(alloc, divided)?;
    Ok(boxed)
}
