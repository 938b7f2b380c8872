//! Footprints that are apart where some folders stand.

ghost use Rattle.std.specs.Prelude.{◌≡◌, ◌⊎◌, ◌&&◌, ◌||◌, false, IsTrue, IfOk, OnOk};
ghost use Rattle.fs_semantics.specs.FileTree.{Path as Segments};
ghost use Rattle.fs_lang.specs.Meaning.{program_of};
ghost use Rattle.effect_sets.specs.Members.{members, with_one, sets_of};
ghost use Rattle.commuting_parts.specs.Prints.{IsClearIn, AreApartIn, IsPrintOf};

use commute_prune::are_proper;
use effect_sets::{Footprint, footprint_of};
use fs_lang::{Path, Program};
use rh_base::NoMemory;
use std::alloc::Global;
use std::collections::BTreeSet;
use std::slice;

/// The footprint of a program.
pub(crate) fn print_of(alloc: Global, program: &Program) -> Result<Footprint, NoMemory>
    ensures { IfOk result (IsPrintOf (program_of program.now)) }
{
    are_proper(slice::from_ref(program));
    footprint_of(alloc, program)
}

/// Whether the path is a folder that stands, if it is looked at.
fn stands_if_read(folders: &BTreeSet<Path>, reads: &BTreeSet<Path>, p: &Path) -> bool
    ensures { IsTrue result → IsTrue (members reads.now p.now) → IsTrue (members folders.now p.now) }
{
    if reads.contains(p) {
        folders.contains(p)
    } else {
        true
    }
}

/// Whether the folders stand that are both made and looked at.
fn stand_where_made(folders: &BTreeSet<Path>, made: &BTreeSet<Path>, reads: &BTreeSet<Path>) -> bool
    ensures { IsTrue result → (q : Segments) → IsTrue (members made.now q) → IsTrue (members reads.now q) → IsTrue (members folders.now q) }
{
    for p in made {
        if !stands_if_read(folders, reads, p) {
            return false;
        }
    }
    true
}

pub(crate) fn both(a: bool, b: bool) -> bool
    ensures { result ≡ (a && b) }
{
    a && b
}

/// Whether nothing that the first writes is looked at, written or made a folder by the second.
fn writes_are_clear(f: &Footprint, g: &Footprint) -> bool
    ensures { IsTrue result → (q : Segments) → IsTrue ((sets_of f.now).writes q)
        → ((sets_of g.now).reads q || (sets_of g.now).writes q || (sets_of g.now).folders q) ≡ false }
{
    let of_reads = f.writes().is_disjoint(g.reads());
    let of_writes = f.writes().is_disjoint(g.writes());
    let of_folders = f.writes().is_disjoint(g.folders());
    both(both(of_reads, of_writes), of_folders)
}

fn is_clear_of(folders: &BTreeSet<Path>, f: &Footprint, g: &Footprint) -> bool
    ensures { IsTrue result → IsClearIn (members folders.now) (sets_of f.now) (sets_of g.now) }
{
    let kept = f.writes().is_disjoint(folders);
    let writes = writes_are_clear(f, g);
    let made = stand_where_made(folders, f.folders(), g.reads());
    let children = f.parents().is_disjoint(g.children());
    both(both(kept, writes), both(made, children))
}

/// Whether the footprints are apart where these folders stand, and neither program writes one of them.
pub(crate) fn are_apart(folders: &BTreeSet<Path>, f: &Footprint, g: &Footprint) -> bool
    ensures { IsTrue result → AreApartIn (members folders.now) (sets_of f.now) (sets_of g.now) }
{
    let left = is_clear_of(folders, f, g);
    let right = is_clear_of(folders, g, f);
    left && right
}

/// One path more, copied where it is new.
#[tactic(auto, using(effect_sets::proofs::SetLaws::already, effect_sets::proofs::SetLaws::put_in))]
fn add(alloc: Global, set: &mut BTreeSet<Path>, p: &Path) -> Result<(), NoMemory>
    ensures { OnOk result (members set.new ≡ with_one p.now (members set.old)) }
{
    if set.contains(p) {
        return Ok(());
    }
    let copy = p.copy(alloc)?;
    set.insert(copy)?;
    Ok(())
}

fn add_all(alloc: Global, paths: &BTreeSet<Path>, into: &mut BTreeSet<Path>) -> Result<(), NoMemory>
    ensures { OnOk result ((q : Segments) → members into.new q ≡ (members paths.now q || members into.old q)) }
{
    for p in paths {
        add(alloc, into, p)?;
    }
    Ok(())
}

/// The paths of both sets.
pub(crate) fn joined(
    alloc: Global,
    a: &BTreeSet<Path>,
    b: &BTreeSet<Path>,
) -> Result<BTreeSet<Path>, NoMemory>
    ensures { IfOk result (λ all. (q : Segments) → IsTrue (members all q) → IsTrue (members a.now q) ⊎ IsTrue (members b.now q)) }
{
    let mut all = BTreeSet::new(alloc);
    add_all(alloc, a, &mut all)?;
    add_all(alloc, b, &mut all)?;
    Ok(all)
}
