//! Whether all orders end alike behind a first run. It is asked where a program may remove a given folder: a second run then begins
//! where that may be missing, and needn't end as from the trees in which it stands.

ghost use Rattle.std.specs.Prelude.{◌≡◌, ◌≢◌, ◌↔◌, ◌<◌, [], ◌++◌, length, map, IsTrue, IfOk, OnOk};
ghost use Rattle.std.specs.List.{AllByRecursion};
ghost use Rattle.fs_semantics.specs.Orders.{Told};
ghost use Rattle.fs_lang.specs.Meaning.{program_of};
ghost use Rattle.given_hosts.specs.Given.{IsDeterministicFrom};
ghost use Rattle.given_hosts.specs.Guard.{first_run};
ghost use Rattle.sure_folders.specs.Pruning.{chosen};
ghost use Rattle.orders.specs.Relation.{comes};
ghost use Rattle.plans.specs.Plans.{meant_by};
ghost use Rattle.proof_check.specs.Refuted.{HasNoModel};
ghost use Rattle.given_verdict.specs.Second.{IsChangeFrom};
ghost use Rattle.given_verdict.specs.Behind.{IsDifferenceBehind, EndsDifferently, IsDifferentOf};
ghost use Rattle.given_verdict.specs.Asks.{AnswersAgainOn, IsDeterministicOn, IsJudgedBehindOn, NeverChangedOn};

use crate::asking::Asking;
use crate::first::rest_of;
use crate::second::push_all;
use answering::Answer;
use determinism::{First, Sure, joined, judge_order};
use fs_lang::{Path, Program, Tree};
use given_hosts::{guards, second_runs};
use guarded_graph::{guard_of, with_first};
use kept_graph::{end_alike, program_at};
use order_encode::Witness;
use plans::Plan;
use proof_check::Verified;
use rh_base::{NoMemory, Seq};
use std::alloc::Global;

/// Adds copies of the programs with these numbers.
fn push_programs(
    alloc: Global,
    steps: &mut Seq<Program>,
    programs: &[Program],
    order: &[u32],
) -> Result<(), NoMemory>
    requires { AllByRecursion (λ k. k < length programs.now) order.now }
    ensures { OnOk result (map program_of steps.new ≡ map program_of steps.old ++ chosen (map program_of programs.now) order.now) }
{
    for k in order {
        steps.push(program_at(alloc, programs, *k)?)?;
    }
    Ok(())
}

/// A first run as one program: the guard, and then the programs in this order.
#[tactic(auto, using(fs_lang::specs::Meaning::program_of_steps))]
fn run_of(
    alloc: Global,
    programs: &[Program],
    given: &[Path],
    order: &[u32],
) -> Result<Program, NoMemory>
    requires { AllByRecursion (λ k. k < length programs.now) order.now }
    ensures { IfOk result (λ e. program_of e ≡ first_run given.now (map program_of programs.now) order.now) }
{
    let mut steps = Seq::new(alloc);
    steps.push(guard_of(alloc, given)?)?;
    push_programs(alloc, &mut steps, programs, order)?;
    Ok(Program::Steps(steps))
}

/// Asks whether all orders end alike behind a run in the first extension.
fn ask_behind(alloc: Global, asked: &Asking<'_>) -> Result<First, NoMemory>
    ensures { IfOk result (IsJudgedBehindOn asked.now) }
{
    let first = asked.plan.order.first_extension()?;
    let run = run_of(alloc, asked.plan.programs, asked.given, first.as_slice())?;
    let graph = with_first(alloc, asked.plan, run)?;
    let guarded = Plan {
        programs: graph.programs.as_slice(),
        order: &graph.order,
    };
    let answered = judge_order(alloc, &guarded, asked.budget)?;
    Ok(answered)
}

/// Whether a second run in the order doesn't end as the first does.
fn ends_differently(
    alloc: Global,
    programs: &[Program],
    tree: &Tree,
    order: &[u32],
) -> Result<bool, NoMemory>
    requires { AllByRecursion (λ k. k < length programs.now) order.now }
    ensures { IfOk result (λ told. IsTrue told ↔ EndsDifferently (map program_of programs.now) tree.now order.now) }
{
    let mut twice = Seq::new(alloc);
    push_all(&mut twice, order)?;
    push_all(&mut twice, order)?;
    let alike = end_alike(alloc, programs, tree, order, twice.as_slice())?;
    Ok(!alike)
}

/// The one of two orders in which a second run ends differently.
fn different_of(
    alloc: Global,
    programs: &[Program],
    tree: Tree,
    left: Seq<u32>,
    right: Seq<u32>,
) -> Result<Witness, NoMemory>
    requires { AllByRecursion (λ k. k < length programs.now) left }
    ensures { IfOk result (IsDifferentOf (map program_of programs.now) tree left right) }
{
    if ends_differently(alloc, programs, &tree, left.as_slice())? {
        return Ok(Witness::Twice { tree, order: left });
    }
    Ok(Witness::Twice { tree, order: right })
}

/// The second run that changes something, where two orders end differently behind a first run.
fn changed_run(
    alloc: Global,
    plan: &Plan<'_>,
    given: &[Path],
    witness: Witness,
) -> Result<Witness, NoMemory>
    requires given { given.now ≢ [] }
    requires deterministic { IsDeterministicFrom given.now (meant_by plan.now) (Told (comes plan.now.order.now)) }
    requires differs { IsDifferenceBehind given.now (meant_by plan.now) plan.now.order.now witness }
    ensures { IfOk result (IsChangeFrom given.now (meant_by plan.now) plan.now.order.now) }
{
    guards();
    second_runs();
    match witness {
        Witness::Orders { tree, left, right } => {
            let first = rest_of(alloc, left.as_slice())?;
            let second = rest_of(alloc, right.as_slice())?;
            different_of(alloc, plan.programs, tree, first, second)
        }
        Witness::Twice { .. } | Witness::Ends { .. } => unreachable!(),
    }
}

/// Two refuted formulas as one. If the whole weren't found right, the second would stand alone.
fn both(alloc: Global, same: Verified, alike: Verified) -> Result<Verified, NoMemory>
    ensures { IfOk result (λ v. HasNoModel v.formula) }
{
    let mut parts = Vec::new(alloc);
    parts.push(same)?;
    parts.push(alike)?;
    if let Some(whole) = joined(alloc, parts.as_slice())? {
        return Ok(whole);
    }
    match parts.pop() {
        Some(last) => {
            let _formula = last.cnf();
            Ok(last)
        }
        None => unreachable!(),
    }
}

/// What was refuted: that a second run in the first extension changes something, and that orders end differently behind the first,
/// if pruning alone didn't show that.
fn proof_of(alloc: Global, same: Verified, sure: Sure) -> Result<Verified, NoMemory>
    requires { HasNoModel same.formula }
    ensures { IfOk result (λ v. HasNoModel v.formula) }
{
    match sure {
        Sure::Pruned => Ok(same),
        Sure::Proved(alike) => both(alloc, same, alike),
    }
}

/// Asks whether all orders end alike behind a run in the first extension, where a second run in that changes nothing, as this
/// formula shows which was refuted.
pub(crate) fn ask_others(
    alloc: Global,
    asked: &Asking<'_>,
    same: Verified,
) -> Result<Answer, NoMemory>
    requires given { asked.now.given.now ≢ [] }
    requires deterministic { IsDeterministicOn asked.now }
    requires never { NeverChangedOn asked.now }
    requires same { HasNoModel same.formula }
    ensures { IfOk result (AnswersAgainOn asked.now) }
{
    guards();
    second_runs();
    match ask_behind(alloc, asked)? {
        First::Sure { sure, .. } => Ok(Answer::Refuted(proof_of(alloc, same, sure)?)),
        First::Differs { witness, .. } => Ok(Answer::Shown(changed_run(
            alloc,
            asked.plan,
            asked.given,
            witness,
        )?)),
        First::Spent { cnf, log, .. } => Ok(Answer::Spent(cnf, log)),
    }
}
