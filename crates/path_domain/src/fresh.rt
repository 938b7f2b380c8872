//! Fresh children.

ghost use Rattle.std.specs.Prelude.{◌≡◌, ◌||◌, ◌++◌, ◌∷◌, [], IfOk, OnOk};
ghost use Rattle.std.specs.List.{list_any};
ghost use Rattle.fs_semantics.specs.FileTree.{Path as Segments, IsSegment, path_eq};
ghost use Rattle.path_domain.specs.Gathered.{members};

use crate::sets::{add, put};
use fs_lang::{Path, PathFault};
use rh_base::{NoMemory, Text};
use std::alloc::Global;
use std::collections::BTreeSet;

/// The child of that name.
fn child(alloc: Global, p: &Path, name: &Text) -> Result<Path, NoMemory>
    requires { IsSegment name.now }
    ensures { IfOk result (λ q. q ≡ p.now ++ name.now ∷ []) }
{
    match p.child(alloc, name.as_str()) {
        Ok(q) => Ok(q),
        Err(PathFault::Memory(m)) => Err(m),
        Err(PathFault::Bad) => unreachable!(),
    }
}

/// The children of that name of these paths.
pub(crate) fn children(
    alloc: Global,
    paths: &BTreeSet<Path>,
    name: &Text,
) -> Result<BTreeSet<Path>, NoMemory>
    requires { IsSegment name.now }
    ensures { IfOk result (λ set. (q : Segments) → members set q ≡ list_any (λ p. path_eq q (p ++ name.now ∷ [])) paths.now.keys) }
{
    let mut set = BTreeSet::new(alloc);
    for p in paths {
        put(&mut set, child(alloc, p, name)?)?;
    }
    Ok(set)
}

/// Adds all these paths.
pub(crate) fn add_all(
    alloc: Global,
    paths: &BTreeSet<Path>,
    into: &mut BTreeSet<Path>,
) -> Result<(), NoMemory>
    ensures { OnOk result ((q : Segments) → members into.new q ≡ (members paths.now q || members into.old q)) }
{
    for p in paths {
        add(alloc, into, p)?;
    }
    Ok(())
}
