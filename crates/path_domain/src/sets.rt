//! Ordered sets of paths.

ghost use Rattle.std.specs.Prelude.{◌≡◌, OnOk};
ghost use Rattle.path_domain.specs.Gathered.{members, with_one};

use fs_lang::Path;
use rh_base::NoMemory;
use std::alloc::Global;
use std::collections::BTreeSet;

/// One path more.
#[tactic(auto, using(crate::proofs::SetLaws::put_in))]
pub(crate) fn put(set: &mut BTreeSet<Path>, p: Path) -> Result<(), NoMemory>
    ensures { OnOk result (members set.new ≡ with_one p (members set.old)) }
{
    set.insert(p)?;
    Ok(())
}

/// One path more, copied where it is new.
#[tactic(auto, using(crate::proofs::SetLaws::already))]
pub(crate) fn add(alloc: Global, set: &mut BTreeSet<Path>, p: &Path) -> Result<(), NoMemory>
    ensures { OnOk result (members set.new ≡ with_one p.now (members set.old)) }
{
    if set.contains(p) {
        return Ok(());
    }
    put(set, p.copy(alloc)?)
}
