//! Whether a graph is deterministic from the trees in which given folders stand.

ghost use Rattle.std.specs.Prelude.{◌≡◌, ◌≢◌, [], drop, IfOk};
ghost use Rattle.determinism.specs.First.{IfDiffers};
ghost use Rattle.determinism.specs.Answers.{HasTwoOrders};
ghost use Rattle.determinism.specs.declared.first.First.TheVariants as variants;
ghost use Rattle.given_verdict.specs.First.{IsUnguarded, IsAnswerWithout};
ghost use Rattle.given_verdict.specs.Settled.{without};
ghost use Rattle.given_verdict.specs.Asks.{IsJudgedOn};

use crate::asking::Asking;
use commute_prune::pruning;
use determinism::{First, judge_order};
use given_hosts::{guarded_graphs, guards};
use guarded_graph::{guard_is_pruned, with_guard};
use order_encode::Witness;
use plans::Plan;
use rh_base::{NoMemory, Seq};
use std::alloc::Global;
use verdict::Settled;

/// An order without the first of its numbers.
pub(crate) fn rest_of(alloc: Global, order: &[u32]) -> Result<Seq<u32>, NoMemory>
    ensures { IfOk result (λ rest. rest ≡ drop 1 order.now) }
{
    match order.split_first() {
        Some((_, rest)) => Ok(Seq::from_vec(rest.to_vec(alloc)?)),
        None => Ok(Seq::new(alloc)),
    }
}

/// A difference whose orders begin with the guard, without it.
fn unguarded(alloc: Global, witness: Witness) -> Result<Witness, NoMemory>
    requires { HasTwoOrders witness }
    ensures { IfOk result (IsUnguarded witness) }
{
    match witness {
        Witness::Orders { tree, left, right } => {
            let left = rest_of(alloc, left.as_slice())?;
            let right = rest_of(alloc, right.as_slice())?;
            Ok(Witness::Orders { tree, left, right })
        }
        Witness::Twice { .. } | Witness::Ends { .. } => unreachable!(),
    }
}

/// That orders differ, said of the graph without the guard.
#[tactic(auto, using(crate::proofs::FirstLaws::differs_are))]
fn differs_without(alloc: Global, pruned: u32, witness: Witness) -> Result<First, NoMemory>
    requires { HasTwoOrders witness }
    ensures { IfOk result (IsAnswerWithout (variants.Differs pruned witness)) }
{
    let witness = unguarded(alloc, witness)?;
    Ok(First::Differs {
        pruned: pruned.saturating_sub(1),
        witness,
    })
}

/// An answer about the graph with the guard, as one about the graph.
pub fn answer_without(alloc: Global, answered: First) -> Result<First, NoMemory>
    requires { IfDiffers answered HasTwoOrders }
    ensures { IfOk result (IsAnswerWithout answered) }
{
    match answered {
        First::Sure { pruned, sure } => Ok(First::Sure {
            pruned: pruned.saturating_sub(1),
            sure,
        }),
        First::Differs { pruned, witness } => differs_without(alloc, pruned, witness),
        First::Spent { pruned, cnf, log } => Ok(First::Spent {
            pruned: pruned.saturating_sub(1),
            cnf,
            log,
        }),
    }
}

/// Why the graph is deterministic, where this is why the graph with the guard is: one program less was pruned.
pub fn settled_without(settled: Settled) -> Settled
    ensures { result ≡ without settled }
{
    Settled {
        pruned: settled.pruned.saturating_sub(1),
        sure: settled.sure,
    }
}

/// Asks about the graph with the guard in front. What pruning keeps is what it keeps of the programs, whatever is given.
fn first_guarded(alloc: Global, asked: &Asking<'_>) -> Result<First, NoMemory>
    requires given { asked.now.given.now ≢ [] }
    ensures { IfOk result (IsJudgedOn asked.now) }
{
    pruning();
    guards();
    guarded_graphs();
    guard_is_pruned();
    let graph = with_guard(alloc, asked.plan, asked.given)?;
    let guarded = Plan {
        programs: graph.programs.as_slice(),
        order: &graph.order,
    };
    let answered = judge_order(alloc, &guarded, asked.budget)?;
    answer_without(alloc, answered)
}

/// Whether the programs are deterministic from the trees in which the given folders stand, however large the graph is. Where no folder
/// is given the graph itself is asked.
pub(crate) fn first_from(alloc: Global, asked: &Asking<'_>) -> Result<First, NoMemory>
    ensures { IfOk result (IsJudgedOn asked.now) }
{
    if asked.given.is_empty() {
        return judge_order(alloc, asked.plan, asked.budget);
    }
    first_guarded(alloc, asked)
}
