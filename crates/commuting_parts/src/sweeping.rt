//! Lists of removals that share sweeps of folders.

ghost use Rattle.std.specs.Prelude.{◌≡◌, ◌≢◌, ◌++◌, false, IsTrue, IfOk};
ghost use Rattle.std.specs.List.{AllByRecursion};
ghost use Rattle.fs_semantics.specs.FileTree.{parent};
ghost use Rattle.fs_lang.specs.Meaning.{program_of, programs_in};
ghost use Rattle.effect_sets.specs.Footprints.{no_footprint};
ghost use Rattle.effect_sets.specs.Members.{members, sets_of};
ghost use Rattle.commuting_parts.specs.Runs.{SwapFrom};
ghost use Rattle.commuting_parts.specs.Prints.{TreeWith, IsClearIn, AreApartIn, IsPrintOf};
ghost use Rattle.commuting_parts.specs.Parts.{runs, part, IsApartFrom};
ghost use Rattle.commuting_parts.specs.Sweeps.{IsHarmlessTo, IsSweptBehind, AreSwept};
ghost use Rattle.commuting_parts.specs.Splits.{IsOrdered, AreOwnApart, AreSplitsApart};

use crate::apart::{are_apart, both};
use crate::gathering::print_of_list;
use crate::laws::prints;
use crate::parts::steps_are_apart;
use crate::same::same_steps;
use crate::sharing::shared;
use crate::splitting::{Split, halve, removed_path, swept_path, up_to_sweeps};
use effect_sets::Footprint;
use fs_lang::{Path, Program};
use rh_base::NoMemory;
use std::alloc::Global;
use std::collections::BTreeSet;

fn differ(p: &Path, q: &Path) -> bool
    ensures { IsTrue result → p.now ≢ q.now }
{
    p != q
}

/// Whether the step may come between two sweeps of this folder, which is in the other one.
fn is_harmless(d: &Path, above: &Path, step: &Program) -> bool
    ensures { IsTrue result → above.now ≡ parent d.now → IsHarmlessTo d.now (program_of step.now) }
{
    match removed_path(step) {
        None => false,
        Some(p) => both(differ(d, p), differ(above, p)),
    }
}

fn are_harmless(d: &Path, above: &Path, steps: &[Program]) -> bool
    ensures { IsTrue result → above.now ≡ parent d.now → AllByRecursion (λ e. IsHarmlessTo d.now (program_of e)) steps.now }
{
    for step in steps {
        if !is_harmless(d, above, step) {
            return false;
        }
    }
    true
}

/// Whether a shared sweep may be made before, too.
fn sweep_is_free(
    alloc: Global,
    s: &Split,
    before: &[Program],
    step: &Program,
) -> Result<bool, NoMemory>
    ensures { IfOk result (λ told. IsTrue told
        → IsSweptBehind (((s.now.first.own ++ s.now.behind.own) ++ s.now.first.shared) ++ before.now) step.now) }
{
    let Some(d) = swept_path(step) else {
        return Ok(false);
    };
    let above = d.parent(alloc)?;
    let first = are_harmless(d, &above, s.first.own.as_slice());
    let behind = are_harmless(d, &above, s.behind.own.as_slice());
    let shared = are_harmless(d, &above, s.first.shared.as_slice());
    let sweeps = are_harmless(d, &above, before);
    let is_root = d.segments().is_empty();
    Ok(both(both(both(first, behind), both(shared, sweeps)), !is_root))
}

fn sweeps_are_free(alloc: Global, s: &Split) -> Result<bool, NoMemory>
    ensures { IfOk result (λ told. IsTrue told
        → AreSwept ((s.now.first.own ++ s.now.behind.own) ++ s.now.first.shared) s.now.behind.shared) }
{
    let sweeps = s.behind.shared.as_slice();
    for i in 0..sweeps.len() {
        if !sweep_is_free(alloc, s, &sweeps[..i], &sweeps[i])? {
            return Ok(false);
        }
    }
    Ok(true)
}

/// Whether none of these folders is written.
fn leaves_all(folders: &BTreeSet<Path>, f: &Footprint) -> bool
    ensures { IsTrue result → IsClearIn (members folders.now) (sets_of f.now) no_footprint }
{
    f.writes().is_disjoint(folders)
}

/// Whether the shared steps leave the folders, and each own one may go ahead of those before it.
fn goes_ahead(alloc: Global, folders: &BTreeSet<Path>, s: &Split) -> Result<bool, NoMemory>
    ensures { IfOk result (λ told. IsTrue told → AreSwept ((s.now.first.own ++ s.now.behind.own) ++ s.now.first.shared) s.now.behind.shared
        → IsOrdered folders.now s.now) }
{
    let shared = print_of_list(alloc, s.first.shared.as_slice())?;
    let sweeps = print_of_list(alloc, s.behind.shared.as_slice())?;
    if !both(leaves_all(folders, &shared), leaves_all(folders, &sweeps)) {
        return Ok(false);
    }
    if !steps_are_apart(alloc, folders, s.first.own.as_slice(), &shared)? {
        return Ok(false);
    }
    steps_are_apart(alloc, folders, s.behind.own.as_slice(), &shared)
}

fn is_ordered(alloc: Global, folders: &BTreeSet<Path>, s: &Split) -> Result<bool, NoMemory>
    ensures { IfOk result (λ told. IsTrue told → IsOrdered folders.now s.now) }
{
    if !sweeps_are_free(alloc, s)? {
        return Ok(false);
    }
    goes_ahead(alloc, folders, s)
}

/// Whether a list of steps is apart from two others.
fn is_apart_from_both(
    alloc: Global,
    folders: &BTreeSet<Path>,
    steps: &[Program],
    f: &Footprint,
    g: &Footprint,
) -> Result<bool, NoMemory>
    ensures first { IfOk result (λ told. IsTrue told → IsApartFrom folders.now (sets_of f.now) (part steps.now)) }
    ensures second { IfOk result (λ told. IsTrue told → IsApartFrom folders.now (sets_of g.now) (part steps.now)) }
{
    let print = print_of_list(alloc, steps)?;
    let first = are_apart(folders, &print, f);
    let second = are_apart(folders, &print, g);
    Ok(first && second)
}

fn owns_are_apart(
    alloc: Global,
    folders: &BTreeSet<Path>,
    l: &Split,
    r: &Split,
) -> Result<bool, NoMemory>
    ensures { IfOk result (λ told. IsTrue told → AreOwnApart folders.now l.now r.now) }
{
    let first = print_of_list(alloc, r.first.own.as_slice())?;
    let behind = print_of_list(alloc, r.behind.own.as_slice())?;
    if !is_apart_from_both(alloc, folders, l.first.own.as_slice(), &first, &behind)? {
        return Ok(false);
    }
    is_apart_from_both(alloc, folders, l.behind.own.as_slice(), &first, &behind)
}

fn same_common(l: &Split, r: &Split) -> bool
    ensures shared { IsTrue result → programs_in l.now.first.shared ≡ programs_in r.now.first.shared }
    ensures sweeps { IsTrue result → programs_in l.now.behind.shared ≡ programs_in r.now.behind.shared }
{
    let shared = same_steps(l.first.shared.as_slice(), r.first.shared.as_slice());
    let sweeps = same_steps(l.behind.shared.as_slice(), r.behind.shared.as_slice());
    shared && sweeps
}

fn splits_are_apart(
    alloc: Global,
    folders: &BTreeSet<Path>,
    l: &Split,
    r: &Split,
) -> Result<bool, NoMemory>
    ensures { IfOk result (λ told. IsTrue told → AreSplitsApart folders.now l.now r.now) }
{
    if !same_common(l, r) {
        return Ok(false);
    }
    if !is_ordered(alloc, folders, l)? {
        return Ok(false);
    }
    if !is_ordered(alloc, folders, r)? {
        return Ok(false);
    }
    owns_are_apart(alloc, folders, l, r)
}

/// Whether two lists of removals commute, which sweep the same folders: of two sweeps of one folder only the last one counts.
pub(crate) fn commute_by_sweeps(
    alloc: Global,
    folders: &BTreeSet<Path>,
    es: &[Program],
    fs: &[Program],
) -> Result<bool, NoMemory>
    ensures { IfOk result (λ told. IsTrue told → SwapFrom (TreeWith folders.now) (runs es.now) (runs fs.now)) }
{
    if up_to_sweeps(es) == es.len() {
        return Ok(false);
    }
    let marks = shared(alloc, es, fs)?;
    let Some(left) = halve(alloc, folders, es, &marks.left)? else {
        return Ok(false);
    };
    let Some(right) = halve(alloc, folders, fs, &marks.right)? else {
        return Ok(false);
    };
    prints();
    splits_are_apart(alloc, folders, &left, &right)
}
