//! Footprints by number.

ghost use Rattle.std.specs.Prelude.{◌≡◌, ◌||◌, IfOk, OnOk};
ghost use Rattle.commute_prune.specs.Numbers.{IsNumbering, Extends, any_marked};
ghost use Rattle.commute_prune.specs.Numbered.{AreSets, clear_by_marks};

use crate::marks::any_marked;
use crate::numbers::number_all;
use effect_sets::Footprint;
use fs_lang::Path;
use rh_base::NoMemory;
use std::alloc::Global;
use std::collections::BTreeMap;

/// The sets of a footprint, the parents of what it changes, and the folders that stand after the program.
#[derive(Drop)]
pub(crate) struct Numbered {
    pub reads: Vec<usize>,
    pub writes: Vec<usize>,
    pub folders: Vec<usize>,
    pub children: Vec<usize>,
    pub parents: Vec<usize>,
    pub sure: Vec<usize>,
}

/// A footprint by number.
pub(crate) fn number_sets(
    alloc: Global,
    numbers: &mut BTreeMap<Path, usize>,
    f: &Footprint,
) -> Result<Numbered, NoMemory>
    requires { IsNumbering numbers.old }
    ensures numbering { OnOk result (IsNumbering numbers.new) }
    ensures extends { OnOk result (Extends numbers.old numbers.new) }
    ensures sets { IfOk result (AreSets numbers.new f.now) }
{
    let reads = number_all(alloc, numbers, f.reads())?;
    let writes = number_all(alloc, numbers, f.writes())?;
    let folders = number_all(alloc, numbers, f.folders())?;
    let children = number_all(alloc, numbers, f.children())?;
    let parents = number_all(alloc, numbers, f.parents())?;
    let sure = number_all(alloc, numbers, f.sure())?;
    Ok(Numbered {
        reads,
        writes,
        folders,
        children,
        parents,
        sure,
    })
}

fn any_of_three(marks: &[bool], a: &[usize], b: &[usize], c: &[usize]) -> bool
    ensures { result ≡ (any_marked marks.now a.now || any_marked marks.now b.now || any_marked marks.now c.now) }
{
    if any_marked(marks, a) {
        return true;
    }
    if any_marked(marks, b) {
        return true;
    }
    any_marked(marks, c)
}

/// Whether nothing that is marked as changed is looked at by the other.
pub(crate) fn is_clear(writes: &[bool], folders: &[bool], parents: &[bool], g: &Numbered) -> bool
    ensures { result ≡ clear_by_marks writes.now folders.now parents.now g.now }
{
    if any_of_three(writes, &g.reads, &g.writes, &g.folders) {
        return false;
    }
    if any_marked(folders, &g.reads) {
        return false;
    }
    !any_marked(parents, &g.children)
}
