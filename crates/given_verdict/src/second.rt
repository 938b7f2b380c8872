//! Whether a second run changes anything, where the first begins in a tree in which given folders stand. The guard stands ahead of
//! the first run alone: the second begins in what the first left.

ghost use Rattle.std.specs.Prelude.{◌≡◌, ◌≢◌, [], ◌∷◌, ◌++◌, IfOk, OnOk};
ghost use Rattle.plans.specs.Plans.{meant_by};
ghost use Rattle.proof_check.specs.Refuted.{HasNoModel};
ghost use Rattle.order_encode.specs.Asked.{CanShow};
ghost use Rattle.order_encode.specs.declared.witness.Witness.{Witness};
ghost use Rattle.answering.specs.Answers.{AnswersBy};
ghost use Rattle.given_verdict.specs.Second.{StatesSecondFrom, NeverChangedFrom, IsChangeTree, IsOfEnd, IsWithFirst};
ghost use Rattle.given_verdict.specs.Asks.{AnswersSecondOn, IsChangeTreeOn, NeverChangedOn, StatesSecondOn};

use crate::asking::Asking;
use answering::{Answer, answer_to};
use finite_domain::{domains, shadows};
use fs_lang::Path;
use guarded_graph::guarded_programs;
use order_encode::{Question, Witness, ask_parting};
use order_places::allowed_orders;
use orders::Order;
use path_domain::domain;
use plans::Plan;
use rh_base::{NoMemory, Seq};
use std::alloc::Global;

pub(crate) fn push_all(list: &mut Seq<u32>, more: &[u32]) -> Result<(), NoMemory>
    ensures { OnOk result (list.new ≡ list.old ++ more.now) }
{
    for k in more {
        list.push(*k)?;
    }
    Ok(())
}

/// The guard, and then a run.
fn one_run(alloc: Global, guard: u32, first: &[u32]) -> Result<Seq<u32>, NoMemory>
    ensures { IfOk result (λ run. run ≡ guard ∷ first.now) }
{
    let mut run = Seq::new(alloc);
    run.push(guard)?;
    push_all(&mut run, first)?;
    Ok(run)
}

/// The guard, and then two runs.
fn two_runs(alloc: Global, guard: u32, first: &[u32]) -> Result<Seq<u32>, NoMemory>
    ensures { IfOk result (λ runs. runs ≡ guard ∷ (first.now ++ first.now)) }
{
    let mut runs = one_run(alloc, guard, first)?;
    push_all(&mut runs, first)?;
    Ok(runs)
}

/// The question whether one run ends differently than two: where it ends in a tree that the second doesn't leave as it is.
fn second_question(alloc: Global, plan: &Plan<'_>, given: &[Path]) -> Result<Question, NoMemory>
    requires { given.now ≢ [] }
    ensures states { IfOk result (λ q. StatesSecondFrom given.now (meant_by plan.now) plan.now.order.now q.formula) }
    ensures never { IfOk result (λ q. HasNoModel q.formula → NeverChangedFrom given.now (meant_by plan.now) plan.now.order.now) }
    ensures models { IfOk result (λ q. (w : Witness) → CanShow q w → IsChangeTree given.now (meant_by plan.now) plan.now.order.now w) }
{
    domains();
    shadows();
    allowed_orders();
    let first = plan.order.first_extension()?;
    let all = guarded_programs(alloc, plan.programs, given)?;
    let guard = plan.order.count();
    let once = one_run(alloc, guard, first.as_slice())?;
    let twice = two_runs(alloc, guard, first.as_slice())?;
    let d = domain(alloc, all.as_slice())?;
    ask_parting(
        alloc,
        all.as_slice(),
        once,
        all.as_slice(),
        twice.as_slice(),
        &d,
    )
}

/// The tree, with the first extension.
fn with_first(order: &Order, witness: Witness) -> Result<Witness, NoMemory>
    requires { IsOfEnd witness }
    ensures { IfOk result (IsWithFirst order.now witness) }
{
    match witness {
        Witness::Ends { tree, .. } => {
            let first = order.first_extension()?;
            Ok(Witness::Twice { tree, order: first })
        }
        Witness::Orders { .. } | Witness::Twice { .. } => unreachable!(),
    }
}

/// Asks it.
fn ask_runs(alloc: Global, asked: &Asking<'_>) -> Result<Answer, NoMemory>
    requires given { asked.now.given.now ≢ [] }
    ensures { IfOk result (AnswersBy (StatesSecondOn asked.now)
        (NeverChangedOn asked.now)
        (IsChangeTreeOn asked.now) asked.now.budget) }
{
    let question = second_question(alloc, asked.plan, asked.given)?;
    answer_to(alloc, question, asked.budget)
}

/// Asks whether a second run in the first extension changes anything, where the first run begins in a tree in which the given folders
/// stand.
pub(crate) fn ask_second_from(alloc: Global, asked: &Asking<'_>) -> Result<Answer, NoMemory>
    requires given { asked.now.given.now ≢ [] }
    ensures { IfOk result (AnswersSecondOn asked.now) }
{
    allowed_orders();
    let found = ask_runs(alloc, asked)?;
    match found {
        Answer::Shown(witness) => Ok(Answer::Shown(with_first(asked.plan.order, witness)?)),
        Answer::Refuted(verified) => Ok(Answer::Refuted(verified)),
        Answer::Spent(cnf, log) => Ok(Answer::Spent(cnf, log)),
    }
}
