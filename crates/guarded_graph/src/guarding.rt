//! The guard, and the graph with it.

ghost use Rattle.std.specs.Prelude.{◌≡◌, ◌+◌, ◌∷◌, ◌++◌, [], length, map, IfOk};
ghost use Rattle.fs_semantics.specs.Programs.{IsDir, Id, Err, Mkdir, If};
ghost use Rattle.fs_lang.specs.Meaning.{test_of, program_of};
ghost use Rattle.orders.specs.Relation.{comes};
ghost use Rattle.plans.specs.Plans.{meant_by};
ghost use Rattle.given_hosts.specs.Guard.{need, guard, guarded, guard_before};

use crate::pairs::order_behind;
use fs_lang::{Path, Program, Test};
use orders::Order;
use plans::Plan;
use rh_base::{Boxed, NoMemory, Seq};
use std::alloc::Global;

/// Programs with their order, the last of which goes first: the guard, or another one.
#[derive(Drop)]
pub struct Guarded {
    pub programs: Seq<Program>,
    pub order: Order,
}

/// One program where a test holds, and another where it doesn't.
#[tactic(auto, using(fs_lang::specs::Meaning::program_of_if))]
fn branching(a: Test, e: Boxed<Program>, f: Boxed<Program>) -> Program
    ensures { program_of result ≡ If (test_of a) (program_of e) (program_of f) }
{
    Program::If(a, e, f)
}

/// Nothing where the path is a folder, and the program where it isn't.
fn unless_folder(alloc: Global, p: &Path, e: Boxed<Program>) -> Result<Program, NoMemory>
    ensures { IfOk result (λ f. program_of f ≡ If (IsDir p.now) Id (program_of e)) }
{
    let nothing = Boxed::new(alloc, Program::Id)?;
    let test = Test::IsDir(p.copy(alloc)?);
    Ok(branching(test, nothing, e))
}

/// Ends in Error where the path isn't a folder.
fn fails_unless_folder(alloc: Global, p: &Path) -> Result<Program, NoMemory>
    ensures { IfOk result (λ e. program_of e ≡ If (IsDir p.now) Id Err) }
{
    let failing = Boxed::new(alloc, Program::Err)?;
    unless_folder(alloc, p, failing)
}

/// Makes a folder at the path where there is none.
fn made_folder(alloc: Global, p: &Path) -> Result<Program, NoMemory>
    ensures { IfOk result (λ e. program_of e ≡ If (IsDir p.now) Id (Mkdir p.now)) }
{
    let making = Boxed::new(alloc, Program::Mkdir(p.copy(alloc)?))?;
    unless_folder(alloc, p, making)
}

/// Ends in Error where the folder doesn't stand, and makes sure of it.
#[tactic(auto, using(fs_lang::specs::Meaning::program_of_steps))]
fn need(alloc: Global, p: &Path) -> Result<Program, NoMemory>
    ensures { IfOk result (λ e. program_of e ≡ need p.now) }
{
    let mut steps = Seq::new(alloc);
    steps.push(fails_unless_folder(alloc, p)?)?;
    steps.push(made_folder(alloc, p)?)?;
    Ok(Program::Steps(steps))
}

fn needs(alloc: Global, given: &[Path]) -> Result<Seq<Program>, NoMemory>
    ensures { IfOk result (λ all. map program_of all ≡ map need given.now) }
{
    let mut all = Seq::new(alloc);
    for p in given {
        all.push(need(alloc, p)?)?;
    }
    Ok(all)
}

/// The guard: it changes nothing where the given folders stand, and ends in Error where one doesn't.
#[tactic(auto, using(fs_lang::specs::Meaning::program_of_steps, crate::proofs::GuardLaws::steps_are))]
pub fn guard_of(alloc: Global, given: &[Path]) -> Result<Program, NoMemory>
    ensures { IfOk result (λ e. program_of e ≡ guard given.now) }
{
    Ok(Program::Steps(needs(alloc, given)?))
}

/// Copies of the programs.
fn copies(alloc: Global, programs: &[Program]) -> Result<Seq<Program>, NoMemory>
    ensures { IfOk result (λ all. all ≡ programs.now) }
{
    let mut all = Seq::new(alloc);
    for program in programs {
        all.push(program.copy(alloc)?)?;
    }
    Ok(all)
}

/// The programs, and behind them one more.
fn with_last(
    alloc: Global,
    programs: &[Program],
    last: Boxed<Program>,
) -> Result<Seq<Program>, NoMemory>
    ensures { IfOk result (λ all. map program_of all ≡ map program_of programs.now ++ program_of last ∷ []) }
{
    let mut all = copies(alloc, programs)?;
    all.push(last.into_inner())?;
    Ok(all)
}

/// The programs, and behind them the guard.
pub fn guarded_programs(
    alloc: Global,
    programs: &[Program],
    given: &[Path],
) -> Result<Seq<Program>, NoMemory>
    ensures { IfOk result (λ all. map program_of all ≡ guarded given.now (map program_of programs.now)) }
{
    let last = Boxed::new(alloc, guard_of(alloc, given)?)?;
    with_last(alloc, programs, last)
}

/// The graph with a program in front, as the one with the next number.
pub fn with_first(alloc: Global, plan: &Plan<'_>, first: Program) -> Result<Guarded, NoMemory>
    ensures programs { IfOk result (λ g. map program_of g.programs ≡ meant_by plan.now ++ program_of first ∷ []) }
    ensures count { IfOk result (λ g. length g.programs ≡ g.order.count) }
    ensures more { IfOk result (λ g. g.order.count ≡ plan.now.order.now.count + 1) }
    ensures order { IfOk result (λ g. comes g.order ≡ guard_before plan.now.order.now.count (comes plan.now.order.now)) }
{
    let last = Boxed::new(alloc, first)?;
    let all = with_last(alloc, plan.programs, last)?;
    let behind = order_behind(alloc, plan.order)?;
    Ok(Guarded {
        programs: all,
        order: behind,
    })
}

/// The graph with the guard in front, as the program with the next number.
pub fn with_guard(alloc: Global, plan: &Plan<'_>, given: &[Path]) -> Result<Guarded, NoMemory>
    ensures programs { IfOk result (λ g. map program_of g.programs ≡ guarded given.now (meant_by plan.now)) }
    ensures count { IfOk result (λ g. length g.programs ≡ g.order.count) }
    ensures more { IfOk result (λ g. g.order.count ≡ plan.now.order.now.count + 1) }
    ensures order { IfOk result (λ g. comes g.order ≡ guard_before plan.now.order.now.count (comes plan.now.order.now)) }
{
    let guard = guard_of(alloc, given)?;
    let graph = with_first(alloc, plan, guard)?;
    Ok(graph)
}
