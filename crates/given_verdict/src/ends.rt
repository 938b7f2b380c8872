//! Whether the graph succeeds from a tree in which given folders stand.

ghost use Rattle.std.specs.Prelude.{◌≢◌, [], IfOk};
ghost use Rattle.given_verdict.specs.Ends.{IsFirstRun, IsRunOf, HasOneOrder};
ghost use Rattle.given_verdict.specs.Asks.{AnswersEndOn, IsDeterministicOn};

use crate::asking::Asking;
use answering::Answer;
use fs_lang::Tree;
use given_hosts::{guarded_graphs, guards, none_given};
use guarded_graph::with_guard;
use order_encode::Witness;
use order_extensions::has_first_extension;
use orders::Order;
use plans::Plan;
use rh_base::NoMemory;
use std::alloc::Global;
use success::ask_end;

/// A run from this tree in the first extension.
fn first_run(alloc: Global, order: &Order, tree: &Tree) -> Result<Witness, NoMemory>
    ensures { IfOk result (IsFirstRun order.now tree.now) }
{
    let copy = tree.copy(alloc)?;
    let first = order.first_extension()?;
    Ok(Witness::Ends {
        tree: copy,
        order: first,
    })
}

/// The tree of a run or of two, with the first extension.
pub fn run_of(alloc: Global, order: &Order, witness: &Witness) -> Result<Witness, NoMemory>
    requires { HasOneOrder witness.now }
    ensures { IfOk result (IsRunOf order.now witness.now) }
{
    match witness {
        Witness::Twice { tree, .. } => first_run(alloc, order, tree),
        Witness::Ends { tree, .. } => first_run(alloc, order, tree),
        Witness::Orders { .. } => unreachable!(),
    }
}

/// Asks whether the graph succeeds: the question of the graph with the guard in front. The order that is told has no guard.
fn end_guarded(alloc: Global, asked: &Asking<'_>) -> Result<Answer, NoMemory>
    requires given { asked.now.given.now ≢ [] }
    requires deterministic { IsDeterministicOn asked.now }
    ensures { IfOk result (AnswersEndOn asked.now) }
{
    guards();
    guarded_graphs();
    let graph = with_guard(alloc, asked.plan, asked.given)?;
    // First extensions stand for all orders.
    has_first_extension(asked.plan.order);
    has_first_extension(&graph.order);
    let guarded = Plan {
        programs: graph.programs.as_slice(),
        order: &graph.order,
    };
    let found = ask_end(alloc, &guarded, asked.budget)?;
    match found {
        Answer::Refuted(verified) => Ok(Answer::Refuted(verified)),
        Answer::Shown(witness) => Ok(Answer::Shown(run_of(alloc, asked.plan.order, &witness)?)),
        Answer::Spent(cnf, log) => Ok(Answer::Spent(cnf, log)),
    }
}

/// Asks whether the graph succeeds from a tree in which the given folders stand. Where no folder is given the graph itself is asked.
pub(crate) fn ask_end_from(alloc: Global, asked: &Asking<'_>) -> Result<Answer, NoMemory>
    requires deterministic { IsDeterministicOn asked.now }
    ensures { IfOk result (AnswersEndOn asked.now) }
{
    none_given();
    if asked.given.is_empty() {
        return ask_end(alloc, asked.plan, asked.budget);
    }
    end_guarded(alloc, asked)
}
