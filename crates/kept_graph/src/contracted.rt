//! What pruning keeps, between what goes first and what goes last, each as one program. An order of the whole graph ends as one
//! of these does, so what is asked of the whole needs an order of the kept programs alone.

ghost use Rattle.std.specs.Prelude.{◌≡◌, ◌↔◌, ◌+◌, ◌<◌, ◌≤◌, ◌^◌, ◌++◌, ℕ, List, length, map, IfOk, OnOk};
ghost use Rattle.std.specs.List.{AllByRecursion};
ghost use Rattle.fs_semantics.specs.FileTree.{Tree};
ghost use Rattle.fs_semantics.specs.Programs.{Program as E};
ghost use Rattle.fs_semantics.specs.Changes.{IsProper};
ghost use Rattle.fs_semantics.specs.Orders.{Told, IsDeterministic, IsExchange, IsCounterexample, IsLinearExtension};
ghost use Rattle.fs_lang.specs.Meaning.{program_of};
ghost use Rattle.orders.specs.Relation.{Relation, comes, Comes};
ghost use Rattle.plans.specs.Plans.{meant_by};
ghost use Rattle.commute_prune.specs.declared.settling.Pruned.{Pruned as P};
ghost use Rattle.sure_folders.specs.Pruning.{between};
ghost use Rattle.commute_prune.specs.Pruned.{IsPruned};
ghost use Rattle.kept_graph.specs.declared.contracted.Contracted.{Contracted as C};
ghost use Rattle.kept_graph.specs.Kept.{IsKept};
ghost use Rattle.kept_graph.specs.Contracted.{Around, star, as_one, contracted_programs, IsContracted, members, expanded};

use crate::completing::push_all;
use crate::kept::{Kept, chosen};
use crate::pairs::pairs_of;
use commute_prune::{Pruned, pruning};
use fs_lang::Program;
use orders::{Order, OrderFault};
use plans::Plan;
use rh_base::{NoMemory, Seq};
use std::alloc::Global;

/// The kept programs, then what goes first as one program, and then what goes last as one; and which of these come before which.
#[derive(Drop)]
pub struct Contracted {
    pub programs: Seq<Program>,
    pub order: Order,
}

/// Adds the edges from node n to each other one, and from each to node n + 1.
fn push_star(n: u32, edges: &mut Seq<(u32, u32)>) -> Result<(), NoMemory>
    requires { n + 1 < 2 ^ 32 }
    ensures { OnOk result (edges.new ≡ edges.old ++ star n n) }
{
    edges.push((n, n + 1))?;
    for i in 0..n {
        edges.push((n, i))?;
        edges.push((i, n + 1))?;
    }
    Ok(())
}

/// The order of the nodes in the list, numbered by their places, with a node before all of them and one after all.
fn order_around(alloc: Global, order: &Order, nodes: &[u32]) -> Result<Order, NoMemory>
    requires within { AllByRecursion (λ k. k < order.now.count) nodes.now }
    requires few { length nodes.now ≤ order.now.count }
    requires fits { length nodes.now + 2 < 2 ^ 32 }
    ensures count { IfOk result (λ part. part.count ≡ length nodes.now + 2) }
    ensures before { IfOk result (λ part. (a b : ℕ) → a < length nodes.now + 2 → b < length nodes.now + 2
        → Comes part a b ↔ Around (length nodes.now) (between (Comes order.now) nodes.now) a b) }
{
    order.count();
    let n = nodes.len() as u32;
    let mut edges = pairs_of(alloc, order, nodes)?;
    push_star(n, &mut edges)?;
    match Order::from_edges(alloc, n + 2, edges.as_slice()) {
        Ok(part) => Ok(part),
        Err(OrderFault::Cycle(_)) => unreachable!(),
        Err(OrderFault::Memory(m)) => Err(m),
    }
}

/// Copies of the programs with these numbers, as one that runs them one after the other.
#[tactic(auto, using(crate::proofs::ContractedLaws::one_of))]
fn as_one(alloc: Global, programs: &[Program], numbers: &[u32]) -> Result<Program, NoMemory>
    requires { AllByRecursion (λ k. k < length programs.now) numbers.now }
    ensures { IfOk result (λ e. program_of e ≡ as_one (map program_of programs.now) numbers.now) }
{
    Ok(Program::Steps(chosen(alloc, programs, numbers)?))
}

/// The programs of the contracted graph.
fn contracted_programs(
    alloc: Global,
    programs: &[Program],
    pruned: &Pruned,
) -> Result<Seq<Program>, NoMemory>
    requires kept { AllByRecursion (λ k. k < length programs.now) pruned.now.kept }
    requires first { AllByRecursion (λ k. k < length programs.now) pruned.now.first }
    requires last { AllByRecursion (λ k. k < length programs.now) pruned.now.last }
    ensures { IfOk result (λ all. map program_of all ≡ contracted_programs (map program_of programs.now) pruned.now) }
{
    let mut all = chosen(alloc, programs, pruned.kept.as_slice())?;
    all.push(as_one(alloc, programs, pruned.first.as_slice())?)?;
    all.push(as_one(alloc, programs, pruned.last.as_slice())?)?;
    Ok(all)
}

/// The graph of what is kept, between what goes first and what goes last.
pub fn contract(alloc: Global, plan: &Plan<'_>, kept: &Kept) -> Result<Contracted, NoMemory>
    requires kept { IsKept (meant_by plan.now) plan.now.order.now kept.now }
    requires fits { length kept.now.pruned.kept + 2 < 2 ^ 32 }
    ensures { IfOk result (IsContracted (meant_by plan.now) plan.now.order.now kept.now.pruned) }
{
    pruning();
    let all = contracted_programs(alloc, plan.programs, &kept.pruned)?;
    let around = order_around(alloc, plan.order, kept.pruned.kept.as_slice())?;
    Ok(Contracted {
        programs: all,
        order: around,
    })
}

/// Adds the programs that a node of the contracted graph stands for.
fn push_members(pruned: &Pruned, i: u32, list: &mut Seq<u32>) -> Result<(), NoMemory>
    requires { i < length pruned.now.kept + 2 }
    ensures { OnOk result (list.new ≡ list.old ++ members pruned.now i) }
{
    let n = pruned.kept.len();
    if i as usize == n {
        return push_all(list, pruned.first.as_slice());
    }
    if i as usize > n {
        return push_all(list, pruned.last.as_slice());
    }
    list.push(pruned.kept.as_slice()[i as usize])
}

/// The order of all programs that an order of the contracted graph stands for.
pub fn expand(alloc: Global, pruned: &Pruned, order: &[u32]) -> Result<Seq<u32>, NoMemory>
    requires { AllByRecursion (λ i. i < length pruned.now.kept + 2) order.now }
    ensures { IfOk result (λ whole. whole ≡ expanded pruned.now order.now) }
{
    let mut whole = Seq::new(alloc);
    for i in order {
        push_members(pruned, *i, &mut whole)?;
    }
    Ok(whole)
}

/// From each tree, orders of the contracted graph end as the orders that they stand for; and these are allowed where those are, and
/// differ by one exchange of free neighbours where those do. Each allowed order of the whole ends as one that is so made.
pub fn contractions()
    ensures deterministic { (es : List E) → AllByRecursion IsProper es → (order : Relation) (p : P) → IsPruned es (Told (comes order)) p
        → (c : C) → IsContracted es order p c → IsDeterministic (map program_of c.programs) (Told (comes c.order))
        → IsDeterministic es (Told (comes order)) }
    ensures counterexample { (es : List E) → AllByRecursion IsProper es → (order : Relation) (p : P) → IsPruned es (Told (comes order)) p
        → (c : C) → IsContracted es order p c → (t : Tree) (o q : List ℕ) → IsCounterexample es (Comes order) t o q
        → (left : List ℕ) × (right : List ℕ) × IsCounterexample (map program_of c.programs) (Comes c.order) t left right }
    ensures expanded { (es : List E) → AllByRecursion IsProper es → (order : Relation) (p : P) → IsPruned es (Told (comes order)) p
        → (c : C) → IsContracted es order p c → (t : Tree) (o q : List ℕ)
        → IsCounterexample (map program_of c.programs) (Comes c.order) t o q
        → IsCounterexample es (Comes order) t (expanded p o) (expanded p q) }
    ensures exchange { (es : List E) (order : Relation) (p : P) → IsPruned es (Told (comes order)) p
        → (c : C) → IsContracted es order p c → (o q : List ℕ) → IsLinearExtension c.order.count (Comes c.order) o
        → IsExchange (Comes c.order) o q
        → IsExchange (Comes order) (expanded p o) (expanded p q) }
{
    pruning();
}
