//! The bytes of files that aren't too long.

ghost use Rattle.std.specs.Prelude.{◌≡◌, None, Some, IfOk, IfErr};
ghost use Rattle.rh_base.specs.Refused.{IfRefused, IsRefusal};
ghost use Rattle.command_line.specs.Table.{role_row};
ghost use Rattle.request_files.specs.Loading.{bytes_in, AreBytesOf, FirstLong};

use crate::fetching::Load;
use command_line::{ByRole, Role};
use rh_base::{Fault, Seq};
use std::alloc::Global;

/// The bytes of a file that isn't too long.
fn within(alloc: Global, role: Role, load: Load) -> Result<Seq<u8>, Fault>
    ensures bytes { IfOk result (λ bytes. bytes_in load ≡ Some bytes) }
    ensures long { IfErr result (λ e. IfRefused e (λ r. (bytes_in load ≡ None) × IsRefusal 17 0 (role_row role).label r)) }
{
    match load {
        Load::Longer => Err(Fault::refused(alloc, 17, 0, role.label())),
        Load::Bytes(bytes) => Ok(bytes),
    }
}

/// The bytes of all files, or the refusal of the first that is too long.
pub fn all_within(alloc: Global, loads: ByRole<Load>) -> Result<ByRole<Seq<u8>>, Fault>
    ensures bytes { IfOk result (AreBytesOf loads) }
    ensures long { IfErr result (λ e. IfRefused e (FirstLong loads)) }
{
    let mut files = Seq::new(alloc);
    for (role, load) in loads.into_vec() {
        match within(alloc, role, load) {
            Ok(bytes) => files.push((role, bytes))?,
            Err(fault) => return Err(fault),
        }
    }
    Ok(files)
}
