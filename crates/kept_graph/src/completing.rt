//! Orders of the kept programs, completed to orders of all.

ghost use Rattle.std.specs.Prelude.{◌≡◌, ◌<◌, ◌++◌, ℕ, List, length, map, slice_index_or, IfOk, OnOk};
ghost use Rattle.std.specs.List.{AllByRecursion};
ghost use Rattle.fs_semantics.specs.Programs.{Program};
ghost use Rattle.fs_semantics.specs.Changes.{IsProper};
ghost use Rattle.fs_semantics.specs.Orders.{IsLinearExtension, IsExchange};
ghost use Rattle.orders.specs.Relation.{Relation, Comes};
ghost use Rattle.kept_graph.specs.declared.kept.Kept.{Kept as K};
ghost use Rattle.kept_graph.specs.Kept.{IsKept, completion};

use commute_prune::{Pruned, pruning};
use rh_base::{NoMemory, Seq};
use std::alloc::Global;

pub(crate) fn push_all(list: &mut Seq<u32>, more: &[u32]) -> Result<(), NoMemory>
    ensures { OnOk result (list.new ≡ list.old ++ more.now) }
{
    for k in more {
        list.push(*k)?;
    }
    Ok(())
}

/// Adds the numbers that stand at these places.
fn push_numbers(list: &mut Seq<u32>, kept: &[u32], places: &[u32]) -> Result<(), NoMemory>
    requires { AllByRecursion (λ i. i < length kept.now) places.now }
    ensures { OnOk result (list.new ≡ list.old ++ map (λ i. slice_index_or kept.now i 0) places.now) }
{
    for i in places {
        list.push(kept[*i as usize])?;
    }
    Ok(())
}

/// What goes first, the kept programs in this order, and what goes last.
pub(crate) fn complete(alloc: Global, pruned: &Pruned, order: &[u32]) -> Result<Seq<u32>, NoMemory>
    requires { AllByRecursion (λ i. i < length pruned.now.kept) order.now }
    ensures { IfOk result (λ whole. whole ≡ completion pruned.now order.now) }
{
    let mut whole = Seq::new(alloc);
    push_all(&mut whole, pruned.first.as_slice())?;
    push_numbers(&mut whole, pruned.kept.as_slice(), order)?;
    push_all(&mut whole, pruned.last.as_slice())?;
    Ok(whole)
}

/// An allowed order of the kept programs makes one of all, and orders that differ by one exchange of free neighbours make
/// orders that do.
pub(crate) fn completions()
    ensures allowed { (es : List Program) → AllByRecursion IsProper es → (order : Relation) (kept : K) → IsKept es order kept
        → (o : List ℕ) → IsLinearExtension kept.order.count (Comes kept.order) o
        → IsLinearExtension (length es) (Comes order) (completion kept.pruned o) }
    ensures exchange { (es : List Program) (order : Relation) (kept : K) → IsKept es order kept
        → (o p : List ℕ) → IsLinearExtension kept.order.count (Comes kept.order) o → IsExchange (Comes kept.order) o p
        → IsExchange (Comes order) (completion kept.pruned o) (completion kept.pruned p) }
{
    pruning();
}
