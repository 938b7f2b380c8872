//! Lists of steps that begin with folders that they make sure of.

ghost use Rattle.std.specs.Prelude.{List, IfOk, IfSome};
ghost use Rattle.fs_lang.specs.Meaning.{program_of};
ghost use Rattle.fs_lang.specs.declared.program.Program.{Program as Written};
ghost use Rattle.commuting_parts.specs.Runs.{SwapFrom};
ghost use Rattle.commuting_parts.specs.Prints.{TreeWith, CommuteWith};
ghost use Rattle.commuting_parts.specs.Parts.{runs, IsDivided};

use crate::apart::{are_apart, joined};
use crate::gathering::Divided;
use crate::laws::prints;
use fs_lang::Path;
use rh_base::NoMemory;
use std::alloc::Global;
use std::collections::BTreeSet;

/// The folders that stand when the first steps of both lists have run: where the rests commute from the trees with these, the
/// lists commute. Nothing where the first steps of one aren't apart from the other list.
pub(crate) fn folders_behind(
    alloc: Global,
    folders: &BTreeSet<Path>,
    left: &Divided,
    right: &Divided,
) -> Result<Option<BTreeSet<Path>>, NoMemory>
    ensures { IfOk result (λ found. IfSome found (λ behind. (es fs : List Written) → IsDivided es left.now → IsDivided fs right.now
        → CommuteWith behind (program_of left.now.rest) (program_of right.now.rest)
        → SwapFrom (TreeWith folders.now) (runs es) (runs fs))) }
{
    let left_made = left.made_print.get();
    let right_made = right.made_print.get();
    let left_rest = left.rest_print.get();
    let right_rest = right.rest_print.get();
    if !are_apart(folders, left_made, right_made) {
        return Ok(None);
    }
    let after_left = joined(alloc, folders, left_made.sure())?;
    if !are_apart(&after_left, left_rest, right_made) {
        return Ok(None);
    }
    let after_right = joined(alloc, folders, right_made.sure())?;
    if !are_apart(&after_right, right_rest, left_made) {
        return Ok(None);
    }
    let behind = joined(alloc, &after_left, right_made.sure())?;
    prints();
    Ok(Some(behind))
}
