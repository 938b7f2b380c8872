//! Answering whether a graph ensures an entry.

ghost use Rattle.std.specs.Prelude.{◌≤◌, IfSome, IfOk};
ghost use Rattle.fs_semantics.specs.Orders.{Told};
ghost use Rattle.orders.specs.Relation.{comes};
ghost use Rattle.plans.specs.Plans.{meant_by};
ghost use Rattle.determinism.specs.Answers.{IsJudged};
ghost use Rattle.success.specs.Questions.{IsEnd};
ghost use Rattle.verdict.specs.Settled.{IsSettled};
ghost use Rattle.wanted_entry.specs.Entries.{Ensures};
ghost use Rattle.ensured_entry.specs.Questions.{IsEntryProof};
ghost use Rattle.ensured_entry.specs.Ensured.{IsEnsured};

use crate::ensured::{Ensured, Late};
use crate::missing::ask_run;
use crate::trying::{Tried, try_runs};
use answering::Answer;
use determinism::{First, judge_order};
use order_encode::Witness;
use plans::Plan;
use proof_check::Verified;
use rh_base::NoMemory;
use std::alloc::Global;
use success::ask_end;
use verdict::{Ends, Settled};
use wanted_entry::Wanted;

/// Asks whether the graph succeeds.
fn ask_success(
    alloc: Global,
    plan: &Plan<'_>,
    wanted: &Wanted,
    budget: u64,
    settled: Settled,
    proof: Verified,
) -> Result<Ensured, NoMemory>
    requires budget { 1 ≤ budget }
    requires settled { IsSettled (meant_by plan.now) plan.now.order.now settled }
    requires holds { Ensures (meant_by plan.now) (Told (comes plan.now.order.now)) wanted.now }
    requires proof { IsEntryProof (meant_by plan.now) plan.now.order.now wanted.now proof.formula }
    ensures { IfOk result (IsEnsured (meant_by plan.now) plan.now.order.now wanted.now budget) }
{
    let end = ask_end(alloc, plan, budget)?;
    match end {
        Answer::Shown(witness) => Ok(Ensured::Holds {
            settled,
            proof,
            ends: Ends::From(witness),
        }),
        Answer::Refuted(verified) => Ok(Ensured::Holds {
            settled,
            proof,
            ends: Ends::Never(verified),
        }),
        Answer::Spent(cnf, log) => Ok(Ensured::Spent {
            settled,
            asked: Late::Succeeds,
            cnf,
            log,
        }),
    }
}

/// Where the graph ensures the entry: whether it succeeds, which is asked unless a run that ends is known.
fn ensure_held(
    alloc: Global,
    plan: &Plan<'_>,
    wanted: &Wanted,
    budget: u64,
    settled: Settled,
    end: Option<Witness>,
    proof: Verified,
) -> Result<Ensured, NoMemory>
    requires budget { 1 ≤ budget }
    requires settled { IsSettled (meant_by plan.now) plan.now.order.now settled }
    requires end { IfSome end (IsEnd (meant_by plan.now) plan.now.order.now) }
    requires holds { Ensures (meant_by plan.now) (Told (comes plan.now.order.now)) wanted.now }
    requires proof { IsEntryProof (meant_by plan.now) plan.now.order.now wanted.now proof.formula }
    ensures { IfOk result (IsEnsured (meant_by plan.now) plan.now.order.now wanted.now budget) }
{
    match end {
        Some(witness) => {
            Ok(Ensured::Holds {
                settled,
                proof,
                ends: Ends::From(witness),
            })
        }
        None => ask_success(alloc, plan, wanted, budget, settled, proof),
    }
}

/// Asks whether a run ends without the entry.
fn ask_entry(
    alloc: Global,
    plan: &Plan<'_>,
    wanted: &Wanted,
    budget: u64,
    settled: Settled,
    end: Option<Witness>,
) -> Result<Ensured, NoMemory>
    requires budget { 1 ≤ budget }
    requires settled { IsSettled (meant_by plan.now) plan.now.order.now settled }
    requires end { IfSome end (IsEnd (meant_by plan.now) plan.now.order.now) }
    ensures { IfOk result (IsEnsured (meant_by plan.now) plan.now.order.now wanted.now budget) }
{
    let answer = ask_run(alloc, plan, wanted, budget)?;
    match answer {
        Answer::Shown(witness) => { Ok(Ensured::Fails { settled, witness }) }
        Answer::Refuted(proof) => { ensure_held(alloc, plan, wanted, budget, settled, end, proof) }
        Answer::Spent(cnf, log) => {
            Ok(Ensured::Spent {
                settled,
                asked: Late::Ensures,
                cnf,
                log,
            })
        }
    }
}

/// Tries a few trees, and asks where their runs don't tell.
fn ensure_sure(
    alloc: Global,
    plan: &Plan<'_>,
    wanted: &Wanted,
    budget: u64,
    settled: Settled,
) -> Result<Ensured, NoMemory>
    requires budget { 1 ≤ budget }
    requires settled { IsSettled (meant_by plan.now) plan.now.order.now settled }
    ensures { IfOk result (IsEnsured (meant_by plan.now) plan.now.order.now wanted.now budget) }
{
    let tried = try_runs(alloc, plan, wanted)?;
    match tried {
        Tried::Missed(witness) => { Ok(Ensured::Fails { settled, witness }) }
        Tried::Ended(witness) => ask_entry(alloc, plan, wanted, budget, settled, Some(witness)),
        Tried::Nothing => ask_entry(alloc, plan, wanted, budget, settled, None),
    }
}

/// Goes on from the answer to the question of order.
fn ensure_on(
    alloc: Global,
    plan: &Plan<'_>,
    wanted: &Wanted,
    budget: u64,
    answered: First,
) -> Result<Ensured, NoMemory>
    requires budget { 1 ≤ budget }
    requires judged { IsJudged (meant_by plan.now) plan.now.order.now budget answered }
    ensures { IfOk result (IsEnsured (meant_by plan.now) plan.now.order.now wanted.now budget) }
{
    match answered {
        First::Sure { pruned, sure } => ensure_sure(
            alloc,
            plan,
            wanted,
            budget,
            Settled { pruned, sure },
        ),
        First::Differs { pruned, witness } => {
            Ok(Ensured::First(First::Differs { pruned, witness }))
        }
        First::Spent { pruned, cnf, log } => {
            Ok(Ensured::First(First::Spent { pruned, cnf, log }))
        }
    }
}

/// Whether every run that ends has the wanted entry, over every file tree and all orders, however large the graph is. First it is asked
/// whether the programs are deterministic; then a few trees are tried; then it is asked whether the first extension ends, from a tree
/// over the domain of the programs and the probe, in one without the entry; and where it doesn't, whether the graph succeeds from some
/// tree. Each question has the whole budget; a budget of `u64::MAX` stands for none.
pub fn judge_entry(
    alloc: Global,
    plan: &Plan<'_>,
    wanted: &Wanted,
    budget: u64,
) -> Result<Ensured, NoMemory>
    requires { 1 ≤ budget }
    ensures { IfOk result (IsEnsured (meant_by plan.now) plan.now.order.now wanted.now budget) }
{
    let answered = judge_order(alloc, plan, budget)?;
    ensure_on(alloc, plan, wanted, budget, answered)
}
