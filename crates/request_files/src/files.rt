//! Reading the files of a request.

ghost use Rattle.std.specs.Prelude.{◌≡◌, IfOk};
ghost use Rattle.request_files.specs.Files.{AreReadBy, AreShort};

use crate::fetching::{FilesFault, fetch_all};
use crate::within::all_within;
use command_line::{ByRole, InputKind};
use rh_base::{Fault, Seq, Shelf, Text};
use std::alloc::Global;

/// Reads the files of these names, beside an input of this kind, each once, in their order. The first that can't be read ends it; where all can, the
/// first that is too long is refused.
#[tactic(auto, using(crate::proofs::FileLaws::are_read, crate::proofs::FileLaws::are_short, crate::proofs::FileLaws::too_long, crate::proofs::FileLaws::none_missing))]
pub fn read_files<S: Shelf>(
    alloc: Global,
    input: InputKind,
    names: ByRole<Text>,
    shelf: &mut S,
) -> Result<ByRole<Seq<u8>>, FilesFault>
    ensures held { S.holds shelf.new ≡ S.holds shelf.old }
    ensures read { AreReadBy input names (S.holds shelf.old) (S.faults shelf.old) (S.faults shelf.new) result }
    ensures short { IfOk result AreShort }
{
    let loads = fetch_all(alloc, input, names, shelf)?;
    match all_within(alloc, loads) {
        Ok(files) => Ok(files),
        Err(Fault::Refused(refusal)) => Err(FilesFault::Long(refusal)),
        Err(Fault::Memory(m)) => Err(FilesFault::Memory(m)),
    }
}
