//! Answering the first question.
//!
//! Where more than a few programs are kept pairs are looked at before the question of order is asked, and else before it is
//! asked of the whole graph: mostly a tree that is tried tells, and a formula over every given folder is large. No pair is
//! tried twice from the same trees. What a model over the kept programs shows is completed by what was pruned and replayed on
//! the whole graph, which is asked about where that doesn't bear it out: a step of counterexample-guided refinement (Clarke,
//! Grumberg, Jha, Lu and Veith 2000). That what is kept is deterministic or isn't is a law, by finite search, and not asked.
//! Each search has the whole budget; what is told to be spent is the last one, over a formula that states the question, and a
//! pair that isn't refuted is only left open.

ghost use Rattle.std.specs.Prelude.{◌≡◌, ◌≢◌, ◌+◌, ◌≤◌, [], map, IfSome, IfOk};
ghost use Rattle.fs_semantics.specs.Orders.{Told, IsDeterministic, IsExchange, IsCounterexample};
ghost use Rattle.fs_lang.specs.Meaning.{program_of};
ghost use Rattle.orders.specs.Relation.{comes, Comes};
ghost use Rattle.plans.specs.Plans.{meant_by};
ghost use Rattle.kept_graph.specs.Kept.{IsKept};
ghost use Rattle.determinism.specs.Questions.{IsKeptDeterministic};
ghost use Rattle.determinism.specs.Answers.{IsJudged};

use crate::asking::ask;
use crate::first::{First, Sure};
use crate::settling::{Settled, settle};
use crate::whole::{ask_whole, two_orders};
use answering::Answer;
use commute_prune::pruning;
use finite_search::determinism_is_decided;
use fs_lang::Tree;
use kept_graph::{Completed, Kept, keep, kept_graphs, refute};
use order_encode::Witness;
use orders::Order;
use plans::Plan;
use rh_base::{NoMemory, Seq};
use std::alloc::Global;
use tried_trees::Difference;

/// Of so many kept programs the order is asked about at once: the formula is small, and its refutation rests on no footprint.
const FEW: usize = 4;

/// How many programs aren't kept.
fn pruned_count(order: &Order, kept: &Kept) -> u32
    requires { kept.now.order.count ≤ order.now.count }
    ensures { result + kept.now.order.count ≡ order.now.count }
{
    order.count() - kept.order.count()
}

/// Asks about the whole graph.
fn judge_whole(alloc: Global, plan: &Plan<'_>, kept: &Kept, budget: u64) -> Result<First, NoMemory>
    requires budget { 1 ≤ budget }
    requires kept { IsKept (meant_by plan.now) plan.now.order.now kept.now }
    requires some { kept.now.pruned.kept ≢ [] }
    requires differ { IsKeptDeterministic (meant_by plan.now) (Told (comes plan.now.order.now)) kept.now.pruned.kept → ⊥ }
    ensures { IfOk result (IsJudged (meant_by plan.now) plan.now.order.now budget) }
{
    pruning();
    let pruned = pruned_count(plan.order, kept);
    let answer = ask_whole(alloc, plan, kept, budget)?;
    match answer {
        Answer::Refuted(verified) => Ok(First::Sure {
            pruned,
            sure: Sure::Proved(verified),
        }),
        Answer::Shown(witness) => Ok(First::Differs { pruned, witness }),
        Answer::Spent(cnf, log) => Ok(First::Spent { pruned, cnf, log }),
    }
}

/// Looks at pairs of all programs, and tries trees: what comes of that, if these tell.
fn judge_looked(
    alloc: Global,
    plan: &Plan<'_>,
    kept: &Kept,
    budget: u64,
) -> Result<Option<First>, NoMemory>
    requires budget { 1 ≤ budget }
    requires kept { IsKept (meant_by plan.now) plan.now.order.now kept.now }
    requires some { kept.now.pruned.kept ≢ [] }
    ensures { IfOk result (λ found. IfSome found (IsJudged (meant_by plan.now) plan.now.order.now budget)) }
{
    pruning();
    determinism_is_decided();
    let pruned = pruned_count(plan.order, kept);
    let settled = settle(alloc, plan, budget)?;
    match settled {
        Settled::Alike(verified) => Ok(Some(First::Sure {
            pruned,
            sure: Sure::Proved(verified),
        })),
        Settled::Differ(Difference { tree, left, right }) => Ok(Some(First::Differs {
            pruned,
            witness: Witness::Orders { tree, left, right },
        })),
        Settled::Open => Ok(None),
    }
}

/// Asks about the whole graph, where what is kept doesn't tell. Of few kept programs no pair was looked at before.
fn judge_all(alloc: Global, plan: &Plan<'_>, kept: &Kept, budget: u64) -> Result<First, NoMemory>
    requires budget { 1 ≤ budget }
    requires kept { IsKept (meant_by plan.now) plan.now.order.now kept.now }
    requires some { kept.now.pruned.kept ≢ [] }
    requires differ { IsKeptDeterministic (meant_by plan.now) (Told (comes plan.now.order.now)) kept.now.pruned.kept → ⊥ }
    ensures { IfOk result (IsJudged (meant_by plan.now) plan.now.order.now budget) }
{
    if kept.programs.as_slice().len() > FEW {
        return judge_whole(alloc, plan, kept, budget);
    }
    match judge_looked(alloc, plan, kept, budget)? {
        Some(told) => Ok(told),
        None => judge_whole(alloc, plan, kept, budget),
    }
}

/// Tries two orders of the kept programs on the whole graph, and asks about that where they end alike there.
fn judge_found(
    alloc: Global,
    plan: &Plan<'_>,
    kept: &Kept,
    budget: u64,
    tree: Tree,
    left: &[u32],
    right: &[u32],
) -> Result<First, NoMemory>
    requires budget { 1 ≤ budget }
    requires kept { IsKept (meant_by plan.now) plan.now.order.now kept.now }
    requires some { kept.now.pruned.kept ≢ [] }
    requires counterexample { IsCounterexample (map program_of kept.now.programs) (Comes kept.now.order) tree left.now right.now }
    requires exchange { IsExchange (Comes kept.now.order) left.now right.now }
    ensures { IfOk result (IsJudged (meant_by plan.now) plan.now.order.now budget) }
{
    pruning();
    kept_graphs();
    let completed = refute(alloc, plan, kept, &tree, left, right)?;
    match completed {
        Some(Completed { left, right }) => Ok(First::Differs {
            pruned: pruned_count(plan.order, kept),
            witness: Witness::Orders { tree, left, right },
        }),
        None => judge_all(alloc, plan, kept, budget),
    }
}

/// Asks about what is kept, and about the whole graph where that doesn't tell.
fn judge_kept(alloc: Global, plan: &Plan<'_>, kept: &Kept, budget: u64) -> Result<First, NoMemory>
    requires budget { 1 ≤ budget }
    requires kept { IsKept (meant_by plan.now) plan.now.order.now kept.now }
    requires some { kept.now.pruned.kept ≢ [] }
    requires enough { IsDeterministic (map program_of kept.now.programs) (Told (comes kept.now.order))
        → IsDeterministic (meant_by plan.now) (Told (comes plan.now.order.now)) }
    ensures { IfOk result (IsJudged (meant_by plan.now) plan.now.order.now budget) }
{
    pruning();
    kept_graphs();
    let pruned = pruned_count(plan.order, kept);
    let rest = Plan {
        programs: kept.programs.as_slice(),
        order: &kept.order,
    };
    let answer = ask(alloc, &rest, budget)?;
    match answer {
        Answer::Refuted(verified) => Ok(First::Sure {
            pruned,
            sure: Sure::Proved(verified),
        }),
        Answer::Shown(witness) => {
            let (tree, left, right) = two_orders(witness);
            judge_found(
                alloc,
                plan,
                kept,
                budget,
                tree,
                left.as_slice(),
                right.as_slice(),
            )
        }
        Answer::Spent(cnf, log) => Ok(First::Spent { pruned, cnf, log }),
    }
}

/// Looks at pairs, and tries trees; and asks about what is kept where these don't tell.
fn judge_pairs(alloc: Global, plan: &Plan<'_>, kept: &Kept, budget: u64) -> Result<First, NoMemory>
    requires budget { 1 ≤ budget }
    requires kept { IsKept (meant_by plan.now) plan.now.order.now kept.now }
    requires some { kept.now.pruned.kept ≢ [] }
    requires enough { IsDeterministic (map program_of kept.now.programs) (Told (comes kept.now.order))
        → IsDeterministic (meant_by plan.now) (Told (comes plan.now.order.now)) }
    ensures { IfOk result (IsJudged (meant_by plan.now) plan.now.order.now budget) }
{
    if kept.programs.as_slice().len() <= FEW {
        return judge_kept(alloc, plan, kept, budget);
    }
    match judge_looked(alloc, plan, kept, budget)? {
        Some(told) => Ok(told),
        None => judge_kept(alloc, plan, kept, budget),
    }
}

/// Whether the programs are deterministic, however large the graph is. Where pruning keeps some, each two of all whose order may matter
/// are tried from a few trees, and asked about by themselves. Where that doesn't tell, the kept programs are asked about, and then all;
/// each time it is first asked whether those commute of which neither comes before the other. Each formula has the whole budget; a
/// budget of `u64::MAX` stands for none.
pub fn judge_order(alloc: Global, plan: &Plan<'_>, budget: u64) -> Result<First, NoMemory>
    requires { 1 ≤ budget }
    ensures { IfOk result (IsJudged (meant_by plan.now) plan.now.order.now budget) }
{
    pruning();
    let kept = keep(alloc, plan)?;
    if kept.programs.is_empty() {
        return Ok(First::Sure {
            pruned: pruned_count(plan.order, &kept),
            sure: Sure::Pruned,
        });
    }
    judge_pairs(alloc, plan, &kept, budget)
}
