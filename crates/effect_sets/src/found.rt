//! What was found of a program so far.

ghost use Rattle.std.specs.Prelude.{◌≡◌, ◌||◌, OnOk};
ghost use Rattle.fs_semantics.specs.FileTree.{is_root};
ghost use Rattle.effect_sets.specs.Footprints.{no_footprint, joined, see, looking, looking_below, making, removing, ensuring};
ghost use Rattle.effect_sets.specs.Members.{members};
ghost use Rattle.effect_sets.specs.Telling.{found_footprint};

use crate::sets::add;
use fs_lang::Path;
use rh_base::NoMemory;
use std::alloc::Global;
use std::collections::BTreeSet;

/// Paths that are looked at, paths that are written, paths that are made sure to be folders, paths whose children matter.
#[derive(Debug, Drop)]
pub(crate) struct Found {
    pub reads: BTreeSet<Path>,
    pub writes: BTreeSet<Path>,
    pub folders: BTreeSet<Path>,
    pub children: BTreeSet<Path>,
}

/// Nothing yet.
pub(crate) fn nothing(alloc: Global) -> Found
    ensures { found_footprint result ≡ no_footprint }
{
    Found {
        reads: BTreeSet::new(alloc),
        writes: BTreeSet::new(alloc),
        folders: BTreeSet::new(alloc),
        children: BTreeSet::new(alloc),
    }
}

fn is_root(p: &Path) -> bool
    ensures { result ≡ is_root p.now }
{
    p.segments().is_empty()
}

/// To look at a path is to read it, unless it is the root or sure to be a folder.
fn see_at(
    alloc: Global,
    reads: &mut BTreeSet<Path>,
    p: &Path,
    sure: &BTreeSet<Path>,
) -> Result<(), NoMemory>
    ensures { OnOk result (members reads.new ≡ (λ q. members reads.old q || see p.now (members sure.now) q)) }
{
    let at_root = is_root(p);
    let is_sure = sure.contains(p);
    if at_root || is_sure {
        return Ok(());
    }
    add(alloc, reads, p)
}

/// A question about a path.
pub(crate) fn look(
    alloc: Global,
    found: &mut Found,
    p: &Path,
    sure: &BTreeSet<Path>,
) -> Result<(), NoMemory>
    ensures { OnOk result (found_footprint found.new ≡ joined (found_footprint found.old) (looking p.now (members sure.now))) }
{
    see_at(alloc, &mut found.reads, p, sure)
}

/// A question about the children of a path.
pub(crate) fn look_below(
    alloc: Global,
    found: &mut Found,
    p: &Path,
    sure: &BTreeSet<Path>,
) -> Result<(), NoMemory>
    ensures { OnOk result (found_footprint found.new ≡ joined (found_footprint found.old) (looking_below p.now (members sure.now))) }
{
    see_at(alloc, &mut found.reads, p, sure)?;
    add(alloc, &mut found.children, p)
}

/// A path that is made.
pub(crate) fn make(
    alloc: Global,
    found: &mut Found,
    p: &Path,
    sure: &BTreeSet<Path>,
) -> Result<(), NoMemory>
    ensures { OnOk result (found_footprint found.new ≡ joined (found_footprint found.old) (making p.now (members sure.now))) }
{
    see_at(alloc, &mut found.reads, p, sure)?;
    let above = p.parent(alloc)?;
    see_at(alloc, &mut found.reads, &above, sure)?;
    add(alloc, &mut found.writes, p)
}

/// A path that is removed.
pub(crate) fn remove(
    alloc: Global,
    found: &mut Found,
    p: &Path,
    sure: &BTreeSet<Path>,
) -> Result<(), NoMemory>
    ensures { OnOk result (found_footprint found.new ≡ joined (found_footprint found.old) (removing p.now (members sure.now))) }
{
    see_at(alloc, &mut found.reads, p, sure)?;
    add(alloc, &mut found.writes, p)?;
    add(alloc, &mut found.children, p)
}

/// A path that is made sure to be a folder.
pub(crate) fn ensure(
    alloc: Global,
    found: &mut Found,
    p: &Path,
    sure: &BTreeSet<Path>,
) -> Result<(), NoMemory>
    ensures { OnOk result (found_footprint found.new ≡ joined (found_footprint found.old) (ensuring p.now (members sure.now))) }
{
    let above = p.parent(alloc)?;
    see_at(alloc, &mut found.reads, &above, sure)?;
    add(alloc, &mut found.folders, p)
}
