//! The question of the whole graph. It is asked of what pruning keeps, between what goes first and what goes last: each order of the
//! whole ends as one of these does, and the formula has an order of the kept programs alone.

ghost use Rattle.std.specs.Prelude.{◌≡◌, ◌≤◌, map, IfOk};
ghost use Rattle.fs_semantics.specs.Orders.{Told, IsDeterministic};
ghost use Rattle.fs_lang.specs.Meaning.{program_of};
ghost use Rattle.orders.specs.Relation.{comes};
ghost use Rattle.plans.specs.Plans.{meant_by};
ghost use Rattle.kept_graph.specs.Kept.{IsKept};
ghost use Rattle.kept_graph.specs.Contracted.{IsContracted};
ghost use Rattle.answering.specs.Answers.{AnswersBy};
ghost use Rattle.order_encode.specs.declared.witness.Witness.TheVariants as orders;
ghost use Rattle.determinism.specs.Questions.{States};
ghost use Rattle.determinism.specs.First.{IsDifference};
ghost use Rattle.determinism.specs.Answers.{AnswersOrder, HasTwoOrders};

use crate::asking::{ask, question};
use answering::{Answer, answer_to};
use commute_prune::{are_proper, pruning};
use finite_domain::{domains, witnesses_over_the_domain};
use fs_lang::Tree;
use kept_graph::{Contracted, Kept, contract, contractions, expand};
use order_encode::Witness;
use plans::Plan;
use rh_base::{NoMemory, Seq};
use std::alloc::Global;

/// So many kept programs leave two numbers for what goes first and what goes last.
const MOST: usize = u32::MAX as usize - 2;

/// The tree and the two orders of a difference.
pub(crate) fn two_orders(witness: Witness) -> (Tree, Seq<u32>, Seq<u32>)
    requires { HasTwoOrders witness }
    ensures { witness ≡ orders.Orders result.0 result.1 result.2 }
{
    match witness {
        Witness::Orders { tree, left, right } => (tree, left, right),
        Witness::Twice { .. } | Witness::Ends { .. } => unreachable!(),
    }
}

/// Asks whether orders of what is kept, between what goes first and what goes last, have different outcomes.
fn ask_contracted(
    alloc: Global,
    plan: &Plan<'_>,
    kept: &Kept,
    contracted: &Contracted,
    budget: u64,
) -> Result<Answer, NoMemory>
    requires kept { IsKept (meant_by plan.now) plan.now.order.now kept.now }
    requires contracted { IsContracted (meant_by plan.now) plan.now.order.now kept.now.pruned contracted.now }
    requires budget { 1 ≤ budget }
    ensures { IfOk result (AnswersBy (States (meant_by plan.now) (Told (comes plan.now.order.now)))
        (IsDeterministic (meant_by plan.now) (Told (comes plan.now.order.now)))
        (IsDifference (map program_of contracted.now.programs) (Told (comes contracted.now.order))) budget) }
{
    domains();
    witnesses_over_the_domain();
    contractions();
    are_proper(plan.programs);
    let asked = Plan {
        programs: contracted.programs.as_slice(),
        order: &contracted.order,
    };
    let question = question(alloc, &asked)?;
    answer_to(alloc, question, budget)
}

/// The difference of the whole graph that one of the contracted graph stands for.
fn expanded(
    alloc: Global,
    plan: &Plan<'_>,
    kept: &Kept,
    contracted: &Contracted,
    witness: Witness,
) -> Result<Witness, NoMemory>
    requires kept { IsKept (meant_by plan.now) plan.now.order.now kept.now }
    requires contracted { IsContracted (meant_by plan.now) plan.now.order.now kept.now.pruned contracted.now }
    requires shown { IsDifference (map program_of contracted.now.programs) (Told (comes contracted.now.order)) witness }
    ensures { IfOk result (IsDifference (meant_by plan.now) (Told (comes plan.now.order.now))) }
{
    contractions();
    are_proper(plan.programs);
    let (tree, left, right) = two_orders(witness);
    let first = expand(alloc, &kept.pruned, left.as_slice())?;
    let second = expand(alloc, &kept.pruned, right.as_slice())?;
    Ok(Witness::Orders {
        tree,
        left: first,
        right: second,
    })
}

/// Asks whether allowed orders of the whole graph have different outcomes.
pub(crate) fn ask_whole(
    alloc: Global,
    plan: &Plan<'_>,
    kept: &Kept,
    budget: u64,
) -> Result<Answer, NoMemory>
    requires kept { IsKept (meant_by plan.now) plan.now.order.now kept.now }
    requires budget { 1 ≤ budget }
    ensures { IfOk result (AnswersOrder (meant_by plan.now) plan.now.order.now budget) }
{
    if kept.pruned.kept.len() >= MOST {
        return ask(alloc, plan, budget);
    }
    let contracted = contract(alloc, plan, kept)?;
    match ask_contracted(alloc, plan, kept, &contracted, budget)? {
        Answer::Shown(witness) => Ok(Answer::Shown(expanded(
            alloc,
            plan,
            kept,
            &contracted,
            witness,
        )?)),
        Answer::Refuted(verified) => Ok(Answer::Refuted(verified)),
        Answer::Spent(cnf, log) => Ok(Answer::Spent(cnf, log)),
    }
}
