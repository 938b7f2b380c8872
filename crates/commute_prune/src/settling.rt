//! Pruning.
//!
//! A program that none of those left has to follow, and that is apart from each which needn't come before it, can be moved to
//! the end of every order without another outcome. So it has no say in whether all orders end alike, and what is left is asked
//! the same: an elimination that is greedy and ends, since each move takes one away. The least one goes, and last before first;
//! so each move is fixed, and the number of pruned programs, which is printed, can be stated.

ghost use Rattle.std.specs.Prelude.{◌≡◌, ◌<◌, length, map, IfOk, OnOk};
ghost use Rattle.std.specs.List.{AllByRecursion};
ghost use Rattle.fs_semantics.specs.Orders.{Told, up_from};
ghost use Rattle.fs_lang.specs.Meaning.{program_of};
ghost use Rattle.orders.specs.Relation.{comes};
ghost use Rattle.commute_prune.specs.Search.{IsSearch};
ghost use Rattle.commute_prune.specs.Steps.{next_move};
ghost use Rattle.commute_prune.specs.Pruned.{IsPruned, Stepped, IsStart, IsSettled};

use crate::matrix::clear_pairs;
use crate::moves::without;
use crate::search::{End, Search};
use fs_lang::Program;
use orders::Order;
use rh_base::{NoMemory, Seq};
use std::alloc::Global;

/// The numbers of the programs that are kept, in increasing order, and in order those that go before and behind them.
#[derive(Debug, Drop)]
pub struct Pruned {
    pub kept: Seq<u32>,
    pub first: Seq<u32>,
    pub last: Seq<u32>,
}

/// What is kept so far, and what went first and last, each in the order in which it went.
#[derive(Drop)]
pub(crate) struct Pruning {
    pub kept: Seq<u32>,
    pub first: Seq<u32>,
    pub late: Vec<u32>,
}

fn up_to(alloc: Global, n: u32) -> Result<Seq<u32>, NoMemory>
    ensures { IfOk result (λ ks. ks ≡ up_from 0 n) }
{
    let mut ks = Seq::new(alloc);
    for k in 0..n {
        ks.push(k)?;
    }
    Ok(ks)
}

/// The next move, if there is one.
fn step(
    alloc: Global,
    order: &Order,
    clear: &[Seq<bool>],
    p: &mut Pruning,
    search: &mut Search,
) -> Result<bool, NoMemory>
    requires below { AllByRecursion (λ j. j < order.now.count) p.old.kept }
    requires search { IsSearch order.now clear.now p.old.kept search.old }
    ensures stepped { IfOk result (λ more. Stepped (next_move order.now clear.now p.old.kept) p.old p.new more) }
    ensures search { OnOk result (IsSearch order.now clear.now p.new.kept search.new) }
{
    if let Some(k) = search.find(order, clear, End::Last, p.kept.as_slice()) {
        p.kept = without(alloc, p.kept.as_slice(), k)?;
        p.late.push(k)?;
        search.take_out(k);
        return Ok(true);
    }
    if let Some(k) = search.find(order, clear, End::First, p.kept.as_slice()) {
        p.kept = without(alloc, p.kept.as_slice(), k)?;
        p.first.push(k)?;
        search.take_out(k);
        return Ok(true);
    }
    Ok(false)
}

/// Moves until there is none any more.
fn settle(
    alloc: Global,
    order: &Order,
    clear: &[Seq<bool>],
    p: &mut Pruning,
) -> Result<(), NoMemory>
    requires start { IsStart order.now p.old }
    ensures { OnOk result (IsSettled order.now clear.now p.new) }
{
    let mut search = Search::new(alloc, order.count())?;
    let mut more = true;
    while more {
        more = step(alloc, order, clear, p, &mut search)?;
    }
    Ok(())
}

/// Sets aside programs whose order doesn't matter: the least that may go last, as long as there is one, else the
/// least that may go first.
pub fn prune(alloc: Global, programs: &[Program], order: &Order) -> Result<Pruned, NoMemory>
    requires { length programs.now ≡ order.now.count }
    ensures { IfOk result (IsPruned (map program_of programs.now) (Told (comes order.now))) }
{
    let clear = clear_pairs(alloc, programs)?;
    let mut p = Pruning {
        kept: up_to(alloc, order.count())?,
        first: Seq::new(alloc),
        late: Vec::new(alloc),
    };
    settle(alloc, order, clear.as_slice(), &mut p)?;
    p.late.reverse();
    Ok(Pruned {
        kept: p.kept,
        first: p.first,
        last: Seq::from_vec(p.late),
    })
}
