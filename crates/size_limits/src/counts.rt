//! How many children paths have.

ghost use Rattle.std.specs.Prelude.{◌≡◌, ◌+◌, if◌then◌else◌, IfOk, OnOk};
ghost use Rattle.std.specs.List.Sorted.{IsStrictlySortedBy};
ghost use Rattle.fs_semantics.specs.FileTree.{Path as Segments, path_cmp, path_eq, parent};
ghost use Rattle.size_limits.specs.Weights.{child_count, capped, count_in};

use fs_lang::Path;
use rh_base::NoMemory;
use std::alloc::Global;
use std::collections::{BTreeMap, BTreeSet};

/// How many children were counted for a path.
pub(crate) fn count_of(counts: &BTreeMap<Path, u64>, p: &Path) -> u64
    ensures { result ≡ count_in counts.now p.now }
{
    match counts.get(p) {
        Some(n) => *n,
        None => 0,
    }
}

/// One child more for the parent of a path.
fn add_child(alloc: Global, counts: &mut BTreeMap<Path, u64>, p: &Path) -> Result<(), NoMemory>
    ensures { OnOk result ((q : Segments)
        → count_in counts.new q ≡
        (if path_eq (parent p.now) q then capped (count_in counts.old q + 1) else count_in counts.old q)) }
{
    let above = p.parent(alloc)?;
    let n = count_of(counts, &above).saturating_add(1);
    counts.insert(above, n)?;
    Ok(())
}

/// How many of the paths are children of each path.
pub(crate) fn children_of(
    alloc: Global,
    paths: &BTreeSet<Path>,
) -> Result<BTreeMap<Path, u64>, NoMemory>
    ensures counts { IfOk result (λ counts. (q : Segments) → capped (count_in counts q) ≡ capped (child_count paths.now.keys q)) }
    ensures in_order { IfOk result (λ counts. IsStrictlySortedBy path_cmp paths.now.keys) }
{
    let mut counts = BTreeMap::new(alloc);
    for p in paths {
        add_child(alloc, &mut counts, p)?;
    }
    Ok(counts)
}
