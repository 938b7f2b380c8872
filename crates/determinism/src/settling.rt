//! Answers without a question of order: each two programs whose order may matter are asked about by themselves; and where they
//! don't commute they are put next to one another from a few trees.

ghost use Rattle.std.specs.Prelude.{◌≤◌, IfOk, IfSome};
ghost use Rattle.plans.specs.Plans.{meant_by};
ghost use Rattle.tried_trees.specs.Tried.{IsDifference};
ghost use Rattle.determinism.specs.Settled.{IsByProof, IsLook, AreSettled, IsSettled};

use crate::each_pair::{commute_by_parts, pair_commutes};
use crate::joining::joined;
use commute_prune::{are_proper, doubtful_pairs, sure_pairs};
use fs_lang::{Program, Tree};
use plans::Plan;
use proof_check::Verified;
use rh_base::{NoMemory, Seq};
use std::alloc::Global;
use tried_trees::{Difference, first_trees, try_pairs, try_tree};

/// So many pairs are tried before any is asked about. A missing arrow makes few pairs doubtful, and mostly the first tree tells;
/// where more are doubtful most of them commute, as packages do that share a file.
const MOST_TRIED: usize = 64;

/// What is known without a question of order.
#[derive(Drop)]
pub(crate) enum Settled {
    /// No order matters.
    Alike(Verified),
    /// Two orders end differently.
    Differ(Difference),
    /// Nothing is known yet.
    Open,
}

/// What is known of a pair.
#[derive(Drop)]
enum Look {
    /// The two commute, as a refuted formula shows.
    Commute(Verified),
    /// Orders that put them the one way and the other end differently.
    Differ(Difference),
    /// They don't commute, as far as is known, but no tree that was tried shows it.
    Open,
}

/// Tries pairs from these trees.
fn try_from(
    alloc: Global,
    plan: &Plan<'_>,
    pairs: &[(u32, u32)],
    trees: &[Tree],
) -> Result<Option<Difference>, NoMemory>
    ensures { IfOk result (λ found. IfSome found (IsDifference (meant_by plan.now) plan.now.order.now)) }
{
    for tree in trees {
        if let Some(found) = try_tree(alloc, plan, pairs, tree)? {
            return Ok(Some(found));
        }
    }
    Ok(None)
}

/// Asks about a pair, and tries it from these trees where it doesn't commute.
fn look_at(
    alloc: Global,
    plan: &Plan<'_>,
    pair: (u32, u32),
    trees: &[Tree],
    budget: u64,
) -> Result<Look, NoMemory>
    requires { 1 ≤ budget }
    ensures { IfOk result (IsLook (meant_by plan.now) plan.now.order.now pair) }
{
    if let Some(verified) = pair_commutes(alloc, plan.programs, pair, budget)? {
        return Ok(Look::Commute(verified));
    }
    match try_from(alloc, plan, &[pair], trees)? {
        Some(found) => Ok(Look::Differ(found)),
        None => Ok(Look::Open),
    }
}

/// Tries pairs from these trees, and last from the first of them: it is empty, so that each order ends in Error where a folder is wanted
/// that nothing makes.
fn try_all(
    alloc: Global,
    plan: &Plan<'_>,
    pairs: &[(u32, u32)],
    trees: &[Tree],
) -> Result<Settled, NoMemory>
    ensures { IfOk result (AreSettled (meant_by plan.now) plan.now.order.now pairs.now) }
{
    let behind = trees.len().min(1);
    let others = &trees[behind..];
    if let Some(found) = try_from(alloc, plan, pairs, others)? {
        return Ok(Settled::Differ(found));
    }
    match try_from(alloc, plan, pairs, &trees[..behind])? {
        Some(found) => Ok(Settled::Differ(found)),
        None => Ok(Settled::Open),
    }
}

/// The formulas of pairs as one, if they are found right.
fn settled_by(alloc: Global, parts: &[Verified]) -> Result<Settled, NoMemory>
    ensures { IfOk result IsByProof }
{
    match joined(alloc, parts)? {
        Some(verified) => Ok(Settled::Alike(verified)),
        None => Ok(Settled::Open),
    }
}

/// Looks at each of these pairs. Those that share steps and are apart in the rest need no formula. Where all commute, the formulas of
/// the others are joined; at the first one of which nothing is known, all are tried from these trees.
fn look_at_all(
    alloc: Global,
    plan: &Plan<'_>,
    pairs: &[(u32, u32)],
    trees: &[Tree],
    budget: u64,
) -> Result<Settled, NoMemory>
    requires { 1 ≤ budget }
    ensures { IfOk result (AreSettled (meant_by plan.now) plan.now.order.now pairs.now) }
{
    let mut parts = Vec::new(alloc);
    for pair in pairs {
        if commute_by_parts(alloc, plan.programs, *pair)? {
            continue;
        }
        match look_at(alloc, plan, *pair, trees, budget)? {
            Look::Commute(verified) => parts.push(verified)?,
            Look::Differ(found) => return Ok(Settled::Differ(found)),
            Look::Open => return try_all(alloc, plan, pairs, trees),
        }
    }
    let settled = settled_by(alloc, parts.as_slice())?;
    Ok(settled)
}

/// Tries pairs from a few trees, if there aren't too many.
fn try_few(
    alloc: Global,
    plan: &Plan<'_>,
    pairs: &[(u32, u32)],
) -> Result<Option<Difference>, NoMemory>
    ensures { IfOk result (λ found. IfSome found (IsDifference (meant_by plan.now) plan.now.order.now)) }
{
    if pairs.len() > MOST_TRIED {
        return Ok(None);
    }
    try_pairs(alloc, plan, pairs)
}

/// The few trees from which such pairs weren't tried yet.
fn untried(
    alloc: Global,
    programs: &[Program],
    pairs: &[(u32, u32)],
) -> Result<Seq<Tree>, NoMemory> {
    if pairs.len() > MOST_TRIED {
        let trees = first_trees(alloc, programs)?;
        return Ok(trees);
    }
    Ok(Seq::new(alloc))
}

/// Looks at the pairs of programs whose order may matter, where the folders stand that are sure before them.
pub(crate) fn settle(alloc: Global, plan: &Plan<'_>, budget: u64) -> Result<Settled, NoMemory>
    requires { 1 ≤ budget }
    ensures { IfOk result (IsSettled (meant_by plan.now) plan.now.order.now) }
{
    are_proper(plan.programs);
    sure_pairs();
    let doubtful = doubtful_pairs(alloc, plan.programs, plan.order)?;
    let pairs = doubtful.as_slice();
    if let Some(found) = try_few(alloc, plan, pairs)? {
        return Ok(Settled::Differ(found));
    }
    let trees = untried(alloc, plan.programs, pairs)?;
    let rest = trees.as_slice();
    look_at_all(alloc, plan, pairs, rest, budget)
}
