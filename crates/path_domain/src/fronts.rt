//! Paths with those above them.

ghost use Rattle.std.specs.Prelude.{◌≡◌, ◌||◌, IfOk, OnOk};
ghost use Rattle.fs_semantics.specs.FileTree.{Path as Segments, is_among};
ghost use Rattle.finite_domain.specs.Matters.{fronts, all_fronts};
ghost use Rattle.path_domain.specs.Gathered.{members};

use crate::sets::put;
use fs_lang::Path;
use rh_base::NoMemory;
use std::alloc::Global;
use std::collections::BTreeSet;

/// A path and those above it, the root aside.
fn add_fronts(alloc: Global, p: &Path, set: &mut BTreeSet<Path>) -> Result<(), NoMemory>
    ensures { OnOk result ((q : Segments) → members set.new q ≡ (is_among q (fronts p.now) || members set.old q)) }
{
    for k in 0..p.segments().len() {
        let front = p.front(alloc, k + 1)?;
        put(set, front)?;
    }
    Ok(())
}

/// These paths and those above them.
pub(crate) fn with_fronts(alloc: Global, paths: &BTreeSet<Path>) -> Result<BTreeSet<Path>, NoMemory>
    ensures { IfOk result (λ set. (q : Segments) → members set q ≡ is_among q (all_fronts paths.now.keys)) }
{
    let mut set = BTreeSet::new(alloc);
    for p in paths {
        add_fronts(alloc, p, &mut set)?;
    }
    Ok(set)
}
