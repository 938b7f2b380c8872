//! What pruning keeps, as a graph.

ghost use Rattle.std.specs.Prelude.{◌≡◌, ◌↔◌, ◌<◌, [], ℕ, List, length, map, slice_index_or, IfOk};
ghost use Rattle.std.specs.List.{AllByRecursion};
ghost use Rattle.fs_semantics.specs.FileTree.{Tree};
ghost use Rattle.fs_semantics.specs.Programs.{Program as E, Id};
ghost use Rattle.fs_semantics.specs.Orders.{Told, IsDeterministic, IsCounterexample};
ghost use Rattle.fs_lang.specs.Meaning.{program_of};
ghost use Rattle.orders.specs.Relation.{Relation, comes, Comes};
ghost use Rattle.plans.specs.Plans.{meant_by};
ghost use Rattle.sure_folders.specs.Pruning.{chosen, between};
ghost use Rattle.kept_graph.specs.declared.kept.Kept.{Kept as K};
ghost use Rattle.kept_graph.specs.Kept.{IsKept};

use crate::pairs::order_between;
use commute_prune::{Pruned, are_proper, prune, pruning};
use fs_lang::Program;
use orders::Order;
use plans::Plan;
use rh_base::{NoMemory, Seq};
use std::alloc::Global;

/// What pruning keeps of a graph: which programs, copies of them, and which of these come before which.
#[derive(Drop)]
pub struct Kept {
    pub pruned: Pruned,
    pub programs: Seq<Program>,
    pub order: Order,
}

/// A copy of the program with this number.
#[tactic(auto, using(crate::proofs::KeptLaws::program_at))]
pub fn program_at(alloc: Global, programs: &[Program], k: u32) -> Result<Program, NoMemory>
    requires { k < length programs.now }
    ensures { IfOk result (λ e. program_of e ≡ slice_index_or (map program_of programs.now) k Id) }
{
    programs[k as usize].copy(alloc)
}

/// Copies of the programs with these numbers.
pub fn chosen(alloc: Global, programs: &[Program], kept: &[u32]) -> Result<Seq<Program>, NoMemory>
    requires { AllByRecursion (λ k. k < length programs.now) kept.now }
    ensures { IfOk result (λ copies. map program_of copies ≡ chosen (map program_of programs.now) kept.now) }
{
    let mut copies = Seq::new(alloc);
    for k in kept {
        copies.push(program_at(alloc, programs, *k)?)?;
    }
    Ok(copies)
}

/// What pruning keeps, with the programs and the order between them.
fn rest(alloc: Global, plan: &Plan<'_>) -> Result<Kept, NoMemory>
    ensures { IfOk result (IsKept (meant_by plan.now) plan.now.order.now) }
{
    pruning();
    let pruned = prune(alloc, plan.programs, plan.order)?;
    let copies = chosen(alloc, plan.programs, pruned.kept.as_slice())?;
    let part = order_between(alloc, plan.order, pruned.kept.as_slice())?;
    Ok(Kept {
        pruned,
        programs: copies,
        order: part,
    })
}

/// The graph of what pruning keeps. Where it is deterministic, the whole graph is; so it is where nothing is kept.
pub fn keep(alloc: Global, plan: &Plan<'_>) -> Result<Kept, NoMemory>
    ensures kept { IfOk result (IsKept (meant_by plan.now) plan.now.order.now) }
    ensures enough { IfOk result (λ kept. IsDeterministic (map program_of kept.programs) (Told (comes kept.order))
        → IsDeterministic (meant_by plan.now) (Told (comes plan.now.order.now))) }
    ensures nothing { IfOk result (λ kept. kept.programs ≡ [] → IsDeterministic (meant_by plan.now) (Told (comes plan.now.order.now))) }
{
    pruning();
    are_proper(plan.programs);
    let kept = rest(alloc, plan)?;
    Ok(kept)
}

/// The graph of what is kept is that of the definitions: the programs with the kept numbers, and what comes before what among
/// these.
pub fn kept_graphs()
    ensures counterexamples { (es : List E) (order : Relation) (kept : K) → IsKept es order kept → (t : Tree) (o p : List ℕ)
        → IsCounterexample (map program_of kept.programs) (Comes kept.order) t o p
        ↔ IsCounterexample (chosen es kept.pruned.kept) (between (Comes order) kept.pruned.kept) t o p }
    ensures deterministic { (es : List E) (order : Relation) (kept : K) → IsKept es order kept
        → IsDeterministic (map program_of kept.programs) (Told (comes kept.order))
        ↔ IsDeterministic (chosen es kept.pruned.kept) (between (Told (comes order)) kept.pruned.kept) }
{}
