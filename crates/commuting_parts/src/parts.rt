//! Lists of steps that share some of them.

ghost use Rattle.std.specs.Prelude.{◌≡◌, ◌∷◌, ◌++◌, [], false, if◌then◌else◌, slice_index_or, IsTrue, IfOk, OnOk};
ghost use Rattle.std.specs.List.{AllByRecursion};
ghost use Rattle.fs_lang.specs.Meaning.{program_of};
ghost use Rattle.effect_sets.specs.Members.{members, sets_of};
ghost use Rattle.commuting_parts.specs.Runs.{SwapFrom};
ghost use Rattle.commuting_parts.specs.Prints.{TreeWith, AreApartIn};
ghost use Rattle.commuting_parts.specs.Parts.{runs, chosen_by, unmarked, IsApartFrom, AreParts};

use crate::apart::{are_apart, print_of};
use crate::gathering::print_of_steps;
use crate::laws::prints;
use crate::same::same_steps;
use crate::sharing::shared;
use effect_sets::Footprint;
use fs_lang::{Path, Program};
use rh_base::{NoMemory, Seq};
use std::alloc::Global;
use std::collections::BTreeSet;

/// The steps of a list that another one has too, and its own.
#[derive(Debug, Drop)]
pub(crate) struct Parts {
    pub own: Seq<Program>,
    pub shared: Seq<Program>,
}

pub(crate) fn is_marked(marks: &[bool], i: usize) -> bool
    ensures { result ≡ slice_index_or marks.now i false }
{
    if i < marks.len() { marks[i] } else { false }
}

/// Adds a step to the shared ones or to the own ones.
fn put(parts: &mut Parts, is_shared: bool, step: Program) -> Result<(), NoMemory>
    ensures own { OnOk result (parts.new.own ≡ (if is_shared then parts.old.own else (parts.old.own ++ step ∷ []))) }
    ensures shared { OnOk result (parts.new.shared ≡ (if is_shared then (parts.old.shared ++ step ∷ []) else parts.old.shared)) }
{
    if is_shared {
        parts.shared.push(step)
    } else {
        parts.own.push(step)
    }
}

/// The marked steps, and the others.
pub(crate) fn parted(alloc: Global, steps: &[Program], marks: &[bool]) -> Result<Parts, NoMemory>
    ensures own { IfOk result (λ parts. parts.own ≡ unmarked (λ i. slice_index_or marks.now i false) 0 steps.now) }
    ensures shared { IfOk result (λ parts. parts.shared ≡ chosen_by (λ i. slice_index_or marks.now i false) 0 steps.now) }
{
    let mut parts = Parts {
        own: Seq::new(alloc),
        shared: Seq::new(alloc),
    };
    for i in 0..steps.len() {
        let copy = steps[i].copy(alloc)?;
        put(&mut parts, is_marked(marks, i), copy)?;
    }
    Ok(parts)
}

/// Whether the step is apart from the shared ones.
pub(crate) fn step_is_apart(
    alloc: Global,
    folders: &BTreeSet<Path>,
    step: &Program,
    shared: &Footprint,
) -> Result<bool, NoMemory>
    ensures { IfOk result (λ told. IsTrue told → IsApartFrom folders.now (sets_of shared.now) (program_of step.now)) }
{
    let print = print_of(alloc, step)?;
    Ok(are_apart(folders, &print, shared))
}

/// Whether each step is apart from the shared ones.
pub(crate) fn steps_are_apart(
    alloc: Global,
    folders: &BTreeSet<Path>,
    steps: &[Program],
    shared: &Footprint,
) -> Result<bool, NoMemory>
    ensures { IfOk result (λ told. IsTrue told
        → AllByRecursion (λ e. IsApartFrom folders.now (sets_of shared.now) (program_of e)) steps.now) }
{
    for step in steps {
        if !step_is_apart(alloc, folders, step, shared)? {
            return Ok(false);
        }
    }
    Ok(true)
}

/// Whether what is own to each list is apart from what is own to the other, and from what they share.
fn parts_are_apart(
    alloc: Global,
    folders: &BTreeSet<Path>,
    left: Parts,
    right: Parts,
) -> Result<bool, NoMemory>
    ensures { IfOk result (λ told. IsTrue told → AreParts folders.now left.own left.shared right.own right.shared) }
{
    let Parts { own, shared } = left;
    let Parts {
        own: other,
        shared: others,
    } = right;
    if !same_steps(shared.as_slice(), others.as_slice()) {
        return Ok(false);
    }
    let of_shared = print_of_steps(alloc, shared)?;
    let print = of_shared.get();
    if !steps_are_apart(alloc, folders, own.as_slice(), print)? {
        return Ok(false);
    }
    if !steps_are_apart(alloc, folders, other.as_slice(), print)? {
        return Ok(false);
    }
    let of_own = print_of_steps(alloc, own)?;
    let of_other = print_of_steps(alloc, other)?;
    let left = of_own.get();
    let right = of_other.get();
    Ok(all_apart(folders, left, right, print))
}

/// Whether each two of the three are apart.
fn all_apart(folders: &BTreeSet<Path>, f: &Footprint, g: &Footprint, h: &Footprint) -> bool
    ensures first { IsTrue result → AreApartIn (members folders.now) (sets_of f.now) (sets_of g.now) }
    ensures second { IsTrue result → AreApartIn (members folders.now) (sets_of f.now) (sets_of h.now) }
    ensures third { IsTrue result → AreApartIn (members folders.now) (sets_of g.now) (sets_of h.now) }
{
    let first = are_apart(folders, f, g);
    let second = are_apart(folders, f, h);
    let third = are_apart(folders, g, h);
    first && second && third
}

/// Whether two lists commute by the steps that they share and what is own to each.
pub(crate) fn commute_by_shared(
    alloc: Global,
    folders: &BTreeSet<Path>,
    es: &[Program],
    fs: &[Program],
) -> Result<bool, NoMemory>
    ensures { IfOk result (λ told. IsTrue told → SwapFrom (TreeWith folders.now) (runs es.now) (runs fs.now)) }
{
    let marks = shared(alloc, es, fs)?;
    let left = parted(alloc, es, &marks.left)?;
    let right = parted(alloc, fs, &marks.right)?;
    prints();
    parts_are_apart(alloc, folders, left, right)
}
