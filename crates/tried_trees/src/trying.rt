//! Pairs of programs, tried on a few trees.

ghost use Rattle.std.specs.Prelude.{◌≡◌, ◌↔◌, ◌<◌, length, map, IsTrue, IfSome, IfOk, MatchOption};
ghost use Rattle.std.specs.List.{AllByRecursion};
ghost use Rattle.std.specs.FinMap as map_of;
ghost use Rattle.fs_semantics.specs.Orders.{IsLinearExtension, IsFree};
ghost use Rattle.fs_lang.specs.Meaning.{program_of};
ghost use Rattle.fs_replay.specs.Exchanged.{IsGround};
ghost use Rattle.orders.specs.Relation.{Comes};
ghost use Rattle.plans.specs.Plans.{meant_by};
ghost use Rattle.tried_trees.specs.declared.placing.Place.TheVariants.{Early, Late};
ghost use Rattle.tried_trees.specs.Tried.{IsDifference, IsTried};

use crate::placing::{Place, Swap, placed, swapped};
use crate::standing::trees_of;
use fs_lang::Tree;
use fs_replay::{Ground, end_alike_exchanged};
use orders::Order;
use plans::Plan;
use rh_base::{NoMemory, Seq};
use std::alloc::Global;

/// A tree and two allowed orders that end differently from it; the second is the first with two free neighbours exchanged.
#[derive(Debug, Drop)]
pub struct Difference {
    pub tree: Tree,
    pub left: Seq<u32>,
    pub right: Seq<u32>,
}

/// Whether both are programs, and may stand in either order.
fn is_free_pair(order: &Order, a: u32, b: u32) -> bool
    ensures { IsTrue result ↔ ((a < order.now.count) × (b < order.now.count) × IsFree (Comes order.now) a b) }
{
    let n = order.count();
    if a >= n || b >= n {
        return false;
    }
    order.free(a, b)
}

/// One pair on one tree.
fn try_pair(
    alloc: Global,
    ground: &Ground,
    order: &Order,
    list: &[u32],
    place: Place,
    pair: (u32, u32),
) -> Result<Option<Difference>, NoMemory>
    requires ground { IsGround ground.now }
    requires count { length ground.now.programs.now ≡ order.now.count }
    requires list { IsLinearExtension order.now.count (Comes order.now) list.now }
    ensures found { IfOk result (λ found. IfSome found (IsDifference (map program_of ground.now.programs.now) order.now)) }
    ensures tried { IfOk result
        (λ found. MatchOption found
        (IsTried place (map program_of ground.now.programs.now) order.now ground.now.tree.now pair) (λ d. Unit)) }
{
    ground.tree.is_tree();
    let free = is_free_pair(order, pair.0, pair.1);
    if !free {
        return Ok(None);
    }
    let exchange = placed(alloc, place, order, list, pair.0, pair.1)?;
    let alike = end_alike_exchanged(alloc, ground, &exchange)?;
    if alike {
        return Ok(None);
    }
    let Swap { left, right } = swapped(alloc, &exchange)?;
    let tree = ground.tree.copy(alloc)?;
    Ok(Some(Difference { tree, left, right }))
}

/// Each pair on one tree.
fn try_place(
    alloc: Global,
    plan: &Plan<'_>,
    list: &[u32],
    place: Place,
    pairs: &[(u32, u32)],
    tree: &Tree,
) -> Result<Option<Difference>, NoMemory>
    requires { IsLinearExtension plan.now.order.now.count (Comes plan.now.order.now) list.now }
    ensures found { IfOk result (λ found. IfSome found (IsDifference (meant_by plan.now) plan.now.order.now)) }
    ensures tried { IfOk result
        (λ found. MatchOption found
        (AllByRecursion (IsTried place (meant_by plan.now) plan.now.order.now tree.now) pairs.now) (λ d. Unit)) }
{
    let ground = Ground::of(alloc, plan.programs, tree)?;
    for pair in pairs {
        if let Some(found) = try_pair(alloc, &ground, plan.order, list, place, *pair)? {
            return Ok(Some(found));
        }
    }
    Ok(None)
}

/// Each pair on each of these trees.
fn try_trees(
    alloc: Global,
    plan: &Plan<'_>,
    list: &[u32],
    place: Place,
    pairs: &[(u32, u32)],
    trees: &[Tree],
) -> Result<Option<Difference>, NoMemory>
    requires { IsLinearExtension plan.now.order.now.count (Comes plan.now.order.now) list.now }
    ensures found { IfOk result (λ found. IfSome found (IsDifference (meant_by plan.now) plan.now.order.now)) }
{
    for tree in trees {
        if let Some(found) = try_place(alloc, plan, list, place, pairs, tree)? {
            return Ok(Some(found));
        }
    }
    Ok(None)
}

/// Tries each of these pairs of programs on one tree, next to one another, as early and then as late as the order allows. A
/// pair of which one has to come before the other is passed over, and so is one that names no two programs.
pub fn try_tree(
    alloc: Global,
    plan: &Plan<'_>,
    pairs: &[(u32, u32)],
    tree: &Tree,
) -> Result<Option<Difference>, NoMemory>
    ensures found { IfOk result (λ found. IfSome found (IsDifference (meant_by plan.now) plan.now.order.now)) }
    // Where nothing is found, each pair ends alike in either order, put early and put late.
    ensures early { IfOk result
        (λ found. MatchOption found
        (AllByRecursion (IsTried Early (meant_by plan.now) plan.now.order.now tree.now) pairs.now) (λ d. Unit)) }
    ensures late { IfOk result
        (λ found. MatchOption found
        (AllByRecursion (IsTried Late (meant_by plan.now) plan.now.order.now tree.now) pairs.now) (λ d. Unit)) }
{
    let list = plan.order.first_extension()?;
    let early = try_place(alloc, plan, list.as_slice(), Place::Early, pairs, tree)?;
    if early.is_some() {
        return Ok(early);
    }
    let late = try_place(alloc, plan, list.as_slice(), Place::Late, pairs, tree)?;
    Ok(late)
}

/// Each pair on each of these trees, as early as the order allows, and then as late.
fn try_places(
    alloc: Global,
    plan: &Plan<'_>,
    list: &[u32],
    pairs: &[(u32, u32)],
    trees: &[Tree],
) -> Result<Option<Difference>, NoMemory>
    requires { IsLinearExtension plan.now.order.now.count (Comes plan.now.order.now) list.now }
    ensures found { IfOk result (λ found. IfSome found (IsDifference (meant_by plan.now) plan.now.order.now)) }
{
    let early = try_trees(alloc, plan, list, Place::Early, pairs, trees)?;
    if early.is_some() {
        return Ok(early);
    }
    try_trees(alloc, plan, list, Place::Late, pairs, trees)
}

/// Each pair on the empty tree and on each of these, as early as the order allows, and then as late.
fn try_first(
    alloc: Global,
    plan: &Plan<'_>,
    list: &[u32],
    pairs: &[(u32, u32)],
    trees: &[Tree],
) -> Result<Option<Difference>, NoMemory>
    requires { IsLinearExtension plan.now.order.now.count (Comes plan.now.order.now) list.now }
    ensures found { IfOk result (λ found. IfSome found (IsDifference (meant_by plan.now) plan.now.order.now)) }
    ensures early { IfOk result
        (λ found. MatchOption found
        (AllByRecursion (IsTried Early (meant_by plan.now) plan.now.order.now map_of.empty) pairs.now) (λ d. Unit)) }
    ensures late { IfOk result
        (λ found. MatchOption found
        (AllByRecursion (IsTried Late (meant_by plan.now) plan.now.order.now map_of.empty) pairs.now) (λ d. Unit)) }
{
    let empty = Tree::empty(alloc)?;
    let first = try_place(alloc, plan, list, Place::Early, pairs, &empty)?;
    if first.is_some() {
        return Ok(first);
    }
    let early = try_trees(alloc, plan, list, Place::Early, pairs, trees)?;
    if early.is_some() {
        return Ok(early);
    }
    let last = try_place(alloc, plan, list, Place::Late, pairs, &empty)?;
    if last.is_some() {
        return Ok(last);
    }
    let late = try_trees(alloc, plan, list, Place::Late, pairs, trees)?;
    Ok(late)
}

/// Tries each of these pairs of programs, next to one another, as early and as late as the order allows, from a few trees: the
/// empty one; the one with what the programs use and none of them makes; that with each folder above a path of theirs; that with
/// all that they change; then those folders with what is removed and not made; and all, each file with a content of its own. A pair
/// of which one has to come before the other is passed over, and so is one that names no two programs.
pub fn try_pairs(
    alloc: Global,
    plan: &Plan<'_>,
    pairs: &[(u32, u32)],
) -> Result<Option<Difference>, NoMemory>
    ensures found { IfOk result (λ found. IfSome found (IsDifference (meant_by plan.now) plan.now.order.now)) }
    // Where nothing is found, each pair ends alike from the empty tree in either order, put early and put late.
    ensures early { IfOk result
        (λ found. MatchOption found
        (AllByRecursion (IsTried Early (meant_by plan.now) plan.now.order.now map_of.empty) pairs.now) (λ d. Unit)) }
    ensures late { IfOk result
        (λ found. MatchOption found
        (AllByRecursion (IsTried Late (meant_by plan.now) plan.now.order.now map_of.empty) pairs.now) (λ d. Unit)) }
{
    let list = plan.order.first_extension()?;
    let trees = trees_of(alloc, plan.programs)?;
    let first = trees.first.as_slice();
    let found = try_first(alloc, plan, list.as_slice(), pairs, first)?;
    if found.is_some() {
        return Ok(found);
    }
    let others = trees.others.as_slice();
    let other = try_places(alloc, plan, list.as_slice(), pairs, others)?;
    match other {
        Some(difference) => Ok(Some(difference)),
        None => Ok(found),
    }
}
