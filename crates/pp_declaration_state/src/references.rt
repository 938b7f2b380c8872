//! Lists of references.

ghost use Rattle.std.specs.Prelude.{◌≡◌, IfOk};

use pp_value::Ref;
use rh_base::{NoMemory, Seq};
use std::alloc::Global;

/// Equal references.
pub fn copy_refs(alloc: Global, refs: &[Ref]) -> Result<Seq<Ref>, NoMemory>
    ensures { IfOk result (λ copies. copies ≡ refs.now) }
{
    let mut copies = Seq::new(alloc);
    for r in refs {
        copies.push(r.copy(alloc)?)?;
    }
    Ok(copies)
}
