//! Footprints, and whether two are apart.
//!
//! They keep ordered sets, where lists would do for their meaning: what two have in common is found by walking along both. They
//! keep the parents of what is changed too, since `apart` takes no memory. Sets are lent by calls, since the parents are an
//! invariant that open fields couldn't keep.

ghost use Rattle.std.specs.Prelude.{◌≡◌, ◌↔◌, ◌&&◌, ◌||◌, false, IsTrue, IfOk};
ghost use Rattle.fs_semantics.specs.FileTree.{Path as Segments, parent, is_among};
ghost use Rattle.fs_lang.specs.Meaning.{program_of};
ghost use Rattle.effect_sets.specs.Footprints.{nowhere, sure_after, footprint, IsClearOf, AreApart};
ghost use Rattle.effect_sets.specs.Members.{is_parent_of, sets_of};

use crate::found::{Found, nothing};
use crate::sets::add_parents;
use crate::walk::walk;
use fs_lang::{Path, Program};
use rh_base::NoMemory;
use std::alloc::Global;
use std::collections::BTreeSet;
use std::marker::Model;

/// What a program looks at and what it may change: paths that are looked at, paths that are written, paths that are made
/// sure to be folders, and paths whose children matter; and which of them are folders wherever the program has ended in a tree.
/// Contracts see five lists of paths, each in order.
#[derive(Debug, Drop)]
pub struct Footprint {
    found: Found,
    parents: BTreeSet<Path>,
    sure: BTreeSet<Path>,
}

impl Model for Footprint {
    ghost use Rattle.effect_sets.specs.Members.{Lists};

    ghost Value = { Lists };

    ghost use Rattle.effect_sets.specs.Kept.{lists_in, HasParents};

    ghost view = { lists_in };

    ghost invariant = { HasParents };
}

impl Footprint {
    ghost use Rattle.std.specs.Prelude.{◌≡◌};

    /// The paths that are looked at.
    pub fn reads(&self) -> &BTreeSet<Path>
        ensures { result.now.keys ≡ self.now.reads }
    {
        &self.found.reads
    }

    /// The paths that are written.
    pub fn writes(&self) -> &BTreeSet<Path>
        ensures { result.now.keys ≡ self.now.writes }
    {
        &self.found.writes
    }

    /// The paths that are made sure to be folders.
    pub fn folders(&self) -> &BTreeSet<Path>
        ensures { result.now.keys ≡ self.now.folders }
    {
        &self.found.folders
    }

    /// The paths whose children matter.
    pub fn children(&self) -> &BTreeSet<Path>
        ensures { result.now.keys ≡ self.now.children }
    {
        &self.found.children
    }

    /// The paths that are folders where the program has ended in a tree.
    pub fn sure(&self) -> &BTreeSet<Path>
        ensures { result.now.keys ≡ self.now.sure }
    {
        &self.sure
    }

    /// The parents of what is written, and of the folders.
    pub fn parents(&self) -> &BTreeSet<Path>
        ensures { (q : Segments) → is_among q result.now.keys ≡ (is_parent_of q self.now.writes || is_parent_of q self.now.folders) }
    {
        &self.parents
    }
}

/// The footprint of a program, and the folders that stand after it.
pub fn footprint_of(alloc: Global, program: &Program) -> Result<Footprint, NoMemory>
    ensures sets { IfOk result (λ f. sets_of f ≡ footprint (program_of program.now)) }
    ensures sure { IfOk result (λ f. (λ q. is_among q f.sure) ≡ sure_after (program_of program.now) nowhere) }
{
    let mut found = nothing(alloc);
    let mut sure = BTreeSet::new(alloc);
    walk(alloc, program, &mut sure, &mut found)?;
    let mut parents = BTreeSet::new(alloc);
    add_parents(alloc, &found.writes, &mut parents)?;
    add_parents(alloc, &found.folders, &mut parents)?;
    Ok(Footprint {
        found,
        parents,
        sure,
    })
}

fn all_three(a: bool, b: bool, c: bool) -> bool
    ensures { result ≡ (a && b && c) }
{
    if a { if b { c } else { false } } else { false }
}

/// Whether nothing that the first writes is looked at, written or made sure of by the second.
fn writes_are_clear(f: &Footprint, g: &Footprint) -> bool
    ensures { IsTrue result ↔ ((q : Segments) → IsTrue (is_among q f.now.writes)
        → (is_among q g.now.reads || is_among q g.now.writes || is_among q g.now.folders) ≡ false) }
{
    let of_reads = f.found.writes.is_disjoint(&g.found.reads);
    let of_writes = f.found.writes.is_disjoint(&g.found.writes);
    let of_folders = f.found.writes.is_disjoint(&g.found.folders);
    all_three(of_reads, of_writes, of_folders)
}

/// Whether nothing that the first makes sure of is looked at by the second.
fn folders_are_clear(f: &Footprint, g: &Footprint) -> bool
    ensures { IsTrue result ↔ ((q : Segments) → IsTrue (is_among q f.now.folders) → is_among q g.now.reads ≡ false) }
{
    f.found.folders.is_disjoint(&g.found.reads)
}

/// Whether nothing that the first changes has a parent whose children matter to the second.
fn children_are_clear(f: &Footprint, g: &Footprint) -> bool
    ensures { IsTrue result ↔ ((q : Segments) → IsTrue (is_among q f.now.writes || is_among q f.now.folders)
        → is_among (parent q) g.now.children ≡ false) }
{
    f.parents.is_disjoint(&g.found.children)
}

fn is_clear_of(f: &Footprint, g: &Footprint) -> bool
    ensures { IsTrue result ↔ IsClearOf (sets_of f.now) (sets_of g.now) }
{
    let writes = writes_are_clear(f, g);
    let folders = folders_are_clear(f, g);
    let children = children_are_clear(f, g);
    all_three(writes, folders, children)
}

/// Whether two footprints are apart: what either changes is apart from what the other looks at, and both may make sure of
/// one folder.
pub fn apart(f: &Footprint, g: &Footprint) -> bool
    ensures { IsTrue result ↔ AreApart (sets_of f.now) (sets_of g.now) }
{
    let left = is_clear_of(f, g);
    let right = is_clear_of(g, f);
    left && right
}
