//! Comparing two graphs. A witness of the formula has a run of the left graph; its tree is what matters, since the orders that
//! are told are the first extensions.

ghost use Rattle.std.specs.Prelude.{◌≡◌, ◌≤◌, IfOk};
ghost use Rattle.plans.specs.Plans.{meant_by};
ghost use Rattle.determinism.specs.Answers.{IsJudged};
ghost use Rattle.verdict.specs.Settled.{IsSettled};
ghost use Rattle.equal_graphs.specs.Questions.{tree_in};
ghost use Rattle.equal_graphs.specs.Compared.{IsCompared};

use crate::asking::ask_equal;
use crate::compared::Compared;
use crate::trying::try_runs;
use answering::Answer;
use determinism::{First, judge_order};
use fs_lang::Tree;
use order_encode::Witness;
use plans::Plan;
use rh_base::NoMemory;
use std::alloc::Global;
use verdict::Settled;

/// The tree of a witness.
fn tree_in(witness: Witness) -> Tree
    ensures { result ≡ tree_in witness }
{
    match witness {
        Witness::Orders { tree, .. } => tree,
        Witness::Twice { tree, .. } => tree,
        Witness::Ends { tree, .. } => tree,
    }
}

/// Asks whether two graphs do the same of which each is deterministic.
fn ask_settled(
    alloc: Global,
    left: &Plan<'_>,
    right: &Plan<'_>,
    budget: u64,
    one: Settled,
    second: Settled,
) -> Result<Compared, NoMemory>
    requires budget { 1 ≤ budget }
    requires left_settled { IsSettled (meant_by left.now) left.now.order.now one }
    requires right_settled { IsSettled (meant_by right.now) right.now.order.now second }
    ensures { IfOk result (IsCompared (meant_by left.now) left.now.order.now (meant_by right.now) right.now.order.now budget) }
{
    let answer = ask_equal(alloc, left, right, budget)?;
    match answer {
        Answer::Shown(witness) => Ok(Compared::Differ {
            left: one,
            right: second,
            tree: tree_in(witness),
        }),
        Answer::Refuted(proof) => Ok(Compared::Equal {
            left: one,
            right: second,
            proof,
        }),
        Answer::Spent(cnf, log) => Ok(Compared::Spent {
            left: one,
            right: second,
            cnf,
            log,
        }),
    }
}

/// Tries a few trees, and asks where their runs don't tell.
fn compare_settled(
    alloc: Global,
    left: &Plan<'_>,
    right: &Plan<'_>,
    budget: u64,
    one: Settled,
    second: Settled,
) -> Result<Compared, NoMemory>
    requires budget { 1 ≤ budget }
    requires left_settled { IsSettled (meant_by left.now) left.now.order.now one }
    requires right_settled { IsSettled (meant_by right.now) right.now.order.now second }
    ensures { IfOk result (IsCompared (meant_by left.now) left.now.order.now (meant_by right.now) right.now.order.now budget) }
{
    let found = try_runs(alloc, left, right)?;
    match found {
        Some(tree) => Ok(Compared::Differ {
            left: one,
            right: second,
            tree,
        }),
        None => ask_settled(alloc, left, right, budget, one, second),
    }
}

/// Goes on from the answer to the question of order of the right graph.
fn compare_right(
    alloc: Global,
    left: &Plan<'_>,
    right: &Plan<'_>,
    budget: u64,
    one: Settled,
    answered: First,
) -> Result<Compared, NoMemory>
    requires budget { 1 ≤ budget }
    requires left_settled { IsSettled (meant_by left.now) left.now.order.now one }
    requires judged { IsJudged (meant_by right.now) right.now.order.now budget answered }
    ensures { IfOk result (IsCompared (meant_by left.now) left.now.order.now (meant_by right.now) right.now.order.now budget) }
{
    match answered {
        First::Sure { pruned, sure } => compare_settled(
            alloc,
            left,
            right,
            budget,
            one,
            Settled { pruned, sure },
        ),
        First::Differs { pruned, witness } => Ok(Compared::Right {
            left: one,
            right: First::Differs { pruned, witness },
        }),
        First::Spent { pruned, cnf, log } => Ok(Compared::Right {
            left: one,
            right: First::Spent { pruned, cnf, log },
        }),
    }
}

/// Asks whether the right graph is deterministic, where the left one is, and goes on from there.
fn judge_right(
    alloc: Global,
    left: &Plan<'_>,
    right: &Plan<'_>,
    budget: u64,
    one: Settled,
) -> Result<Compared, NoMemory>
    requires budget { 1 ≤ budget }
    requires left_settled { IsSettled (meant_by left.now) left.now.order.now one }
    ensures { IfOk result (IsCompared (meant_by left.now) left.now.order.now (meant_by right.now) right.now.order.now budget) }
{
    let answered = judge_order(alloc, right, budget)?;
    compare_right(alloc, left, right, budget, one, answered)
}

/// Goes on from the answer to the question of order of the left graph.
fn compare_left(
    alloc: Global,
    left: &Plan<'_>,
    right: &Plan<'_>,
    budget: u64,
    answered: First,
) -> Result<Compared, NoMemory>
    requires budget { 1 ≤ budget }
    requires judged { IsJudged (meant_by left.now) left.now.order.now budget answered }
    ensures { IfOk result (IsCompared (meant_by left.now) left.now.order.now (meant_by right.now) right.now.order.now budget) }
{
    match answered {
        First::Sure { pruned, sure } => judge_right(
            alloc,
            left,
            right,
            budget,
            Settled { pruned, sure },
        ),
        First::Differs { pruned, witness } => {
            Ok(Compared::Left(First::Differs { pruned, witness }))
        }
        First::Spent { pruned, cnf, log } => {
            Ok(Compared::Left(First::Spent { pruned, cnf, log }))
        }
    }
}

/// Whether two graphs do the same, however large they are. First it is asked whether the left one is deterministic, and then whether the
/// right one is; then both are run from a few trees; then it is asked whether a tree over the domain of the programs of both gives the
/// first extension of the one another outcome than that of the other. Each question has the whole budget; a budget of `u64::MAX` stands
/// for none.
pub fn compare(
    alloc: Global,
    left: &Plan<'_>,
    right: &Plan<'_>,
    budget: u64,
) -> Result<Compared, NoMemory>
    requires { 1 ≤ budget }
    ensures { IfOk result (IsCompared (meant_by left.now) left.now.order.now (meant_by right.now) right.now.order.now budget) }
{
    let answered = judge_order(alloc, left, budget)?;
    compare_left(alloc, left, right, budget, answered)
}
