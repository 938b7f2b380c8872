//! Ordered sets of paths.

ghost use Rattle.std.specs.Prelude.{◌≡◌, ◌&&◌, ◌||◌, IfOk, OnOk};
ghost use Rattle.fs_semantics.specs.FileTree.{path_eq, parent};
ghost use Rattle.effect_sets.specs.Members.{members, with_one, without_one, common, is_parent_of};

use fs_lang::Path;
use rh_base::NoMemory;
use std::alloc::Global;
use std::collections::BTreeSet;

/// One path more, copied where it is new.
#[tactic(auto, using(crate::proofs::SetLaws::already, crate::proofs::SetLaws::put_in))]
pub(crate) fn add(alloc: Global, set: &mut BTreeSet<Path>, p: &Path) -> Result<(), NoMemory>
    ensures { OnOk result (members set.new ≡ with_one p.now (members set.old)) }
{
    if set.contains(p) {
        return Ok(());
    }
    let copy = p.copy(alloc)?;
    set.insert(copy)?;
    Ok(())
}

/// One path less.
#[tactic(auto, using(crate::proofs::SetLaws::taken_out))]
pub(crate) fn take_out(set: &mut BTreeSet<Path>, p: &Path)
    ensures { members set.new ≡ without_one p.now (members set.old) }
{
    set.remove(p);
}

/// Adds a path that is in the set.
fn add_if_in(
    alloc: Global,
    set: &BTreeSet<Path>,
    p: &Path,
    into: &mut BTreeSet<Path>,
) -> Result<(), NoMemory>
    ensures { OnOk result (members into.new ≡ (λ q. (path_eq q p.now && members set.now q) || members into.old q)) }
{
    if set.contains(p) {
        add(alloc, into, p)?;
    }
    Ok(())
}

/// What is in both sets.
pub(crate) fn common(
    alloc: Global,
    a: &BTreeSet<Path>,
    b: &BTreeSet<Path>,
) -> Result<BTreeSet<Path>, NoMemory>
    ensures { IfOk result (λ set. members set ≡ common (members a.now) (members b.now)) }
{
    let mut shared = BTreeSet::new(alloc);
    for p in a {
        add_if_in(alloc, b, p, &mut shared)?;
    }
    Ok(shared)
}

/// The same paths.
#[tactic(auto, using(crate::proofs::SetLaws::common_itself))]
pub(crate) fn copied(alloc: Global, a: &BTreeSet<Path>) -> Result<BTreeSet<Path>, NoMemory>
    ensures { IfOk result (λ set. members set ≡ members a.now) }
{
    common(alloc, a, a)
}

/// Adds the parent of a path.
fn add_parent(alloc: Global, p: &Path, into: &mut BTreeSet<Path>) -> Result<(), NoMemory>
    ensures { OnOk result (members into.new ≡ with_one (parent p.now) (members into.old)) }
{
    let above = p.parent(alloc)?;
    add(alloc, into, &above)
}

/// Adds the parents of all these paths.
pub(crate) fn add_parents(
    alloc: Global,
    set: &BTreeSet<Path>,
    into: &mut BTreeSet<Path>,
) -> Result<(), NoMemory>
    ensures { OnOk result (members into.new ≡ (λ q. is_parent_of q set.now.keys || members into.old q)) }
{
    for p in set {
        add_parent(alloc, p, into)?;
    }
    Ok(())
}
