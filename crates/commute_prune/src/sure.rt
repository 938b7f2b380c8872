//! Which programs are clear of one another where the folders stand that are sure before each: a program that comes before it
//! leaves them, and none removes them.
//!
//! A must-analysis along the order of the programs. It is enough that two programs commute from trees with these folders, since
//! whenever one of them runs these stand (`sure_folders`); else a file right in /etc is doubtful beside each package that makes
//! sure of /etc. Only folders are followed: a file that a predecessor surely puts could be, too, and on sites of real packages
//! that wasn't needed. Pruning, and the number of pruned resources, go by footprints alone.

ghost use Rattle.std.specs.Prelude.{◌≡◌, ◌<◌, ◌&&◌, ℕ, not, false, map, length, slice_get, slice_index_or, Some, IfOk};
ghost use Rattle.std.specs.List.{AllByRecursion, list_any};
ghost use Rattle.fs_lang.specs.Meaning.{program_of};
ghost use Rattle.orders.specs.Relation.{comes};
ghost use Rattle.commute_prune.specs.Numbers.{has};
ghost use Rattle.commute_prune.specs.Numbered.{IsBelow};
ghost use Rattle.commute_prune.specs.Matrix.{IsMatrixOf};
ghost use Rattle.commute_prune.specs.Sure.{footprint_at};
ghost use Rattle.commute_prune.specs.Reduced.{marked_before, unsure, IsReduced, AreReduced};
ghost use Rattle.commute_prune.specs.declared.numbered.Numbered.{Numbered as N};

use crate::marks::{is_marked, mark_all, unmarked};
use crate::matrix::{clear_rows, number_programs};
use crate::moves::comes;
use crate::numbered::Numbered;
use fs_lang::Program;
use orders::Order;
use rh_base::{NoMemory, Seq};
use std::alloc::Global;
use std::collections::BTreeMap;

/// Marks at the folders that are left by another program which comes before this one.
fn left_before(
    alloc: Global,
    count: usize,
    order: &Order,
    all: &[Numbered],
    i: u32,
) -> Result<Vec<bool>, NoMemory>
    requires i { i < order.now.count }
    requires long { length all.now ≡ order.now.count }
    requires below { AllByRecursion (IsBelow count) all.now }
    ensures { IfOk result (λ marks. (n : ℕ) → slice_index_or marks.items n false ≡ marked_before (comes order.now) i 0 all.now n) }
{
    order.count();
    let mut marks = unmarked(alloc, count)?;
    let mut k = 0u32;
    for f in all {
        if k != i && comes(order, k, i) {
            mark_all(&mut marks, &f.sure);
        }
        k += 1;
    }
    Ok(marks)
}

/// Marks at what some program may write.
fn written(alloc: Global, count: usize, all: &[Numbered]) -> Result<Vec<bool>, NoMemory>
    requires { AllByRecursion (IsBelow count) all.now }
    ensures { IfOk result (λ marks. (n : ℕ) → slice_index_or marks.items n false ≡ list_any (λ (f : N). has n f.writes.items) all.now) }
{
    let mut marks = unmarked(alloc, count)?;
    for f in all {
        mark_all(&mut marks, &f.writes);
    }
    Ok(marks)
}

/// The numbers but for those of folders that stand and that no program writes.
fn unsure(
    alloc: Global,
    ns: &[usize],
    left: &[bool],
    written: &[bool],
) -> Result<Vec<usize>, NoMemory>
    ensures { IfOk result (λ rest. rest.items ≡ unsure
        (λ n. slice_index_or left.now n false && not (slice_index_or written.now n false)) ns.now) }
{
    let mut rest = Vec::new(alloc);
    for n in ns {
        let stands = is_marked(left, *n);
        let may_go = is_marked(written, *n);
        if stands && !may_go {
            continue;
        }
        rest.push(*n)?;
    }
    Ok(rest)
}

/// The footprint without what it looks at of these folders.
fn reduced(
    alloc: Global,
    f: &Numbered,
    left: &[bool],
    written: &[bool],
) -> Result<Numbered, NoMemory>
    ensures { IfOk result (IsReduced (λ n. slice_index_or left.now n false && not (slice_index_or written.now n false)) f.now) }
{
    let reads = unsure(alloc, &f.reads, left, written)?;
    let writes = f.writes.to_vec(alloc)?;
    let folders = f.folders.to_vec(alloc)?;
    let children = f.children.to_vec(alloc)?;
    let parents = f.parents.to_vec(alloc)?;
    let sure = f.sure.to_vec(alloc)?;
    Ok(Numbered {
        reads,
        writes,
        folders,
        children,
        parents,
        sure,
    })
}

/// The footprint of each program where the folders stand that are sure before it.
fn all_reduced(
    alloc: Global,
    count: usize,
    order: &Order,
    all: &[Numbered],
) -> Result<Vec<Numbered>, NoMemory>
    requires long { length all.now ≡ order.now.count }
    requires below { AllByRecursion (IsBelow count) all.now }
    ensures long { IfOk result (λ made. length made.items ≡ length all.now) }
    ensures reduced { IfOk result (λ made. AreReduced (comes order.now) all.now made.items) }
{
    order.count();
    let changed = written(alloc, count, all)?;
    let mut made = Vec::new(alloc);
    let mut i = 0u32;
    for f in all {
        let left = left_before(alloc, count, order, all, i)?;
        made.push(reduced(alloc, f, &left, &changed)?)?;
        i += 1;
    }
    Ok(made)
}

/// For each pair of programs whether what the first changes is clear of what the second looks at, each where the folders stand
/// that are sure before it. The paths of all are numbered once, and each pair is compared once.
pub(crate) fn clear_where_sure(
    alloc: Global,
    programs: &[Program],
    order: &Order,
) -> Result<Seq<Seq<bool>>, NoMemory>
    requires { length programs.now ≡ order.now.count }
    ensures { IfOk result (IsMatrixOf (length programs.now) (footprint_at (map program_of programs.now) (comes order.now))) }
{
    let mut numbers = BTreeMap::new(alloc);
    let all = number_programs(alloc, &mut numbers, programs)?;
    let count = numbers.len();
    let made = all_reduced(alloc, count, order, &all)?;
    clear_rows(alloc, count, &made)
}
