//! A workload in place of files.

ghost use Rattle.std.specs.Prelude.{◌≡◌, ◌<◌, ◌^◌, length, IfOk};
ghost use Rattle.known_inputs.specs.Inputs.{input_of};
ghost use Rattle.rehearsal_core.specs.Inputs.{workload_inputs};

use command_line::{Role, Size};
use host_limits::Limits;
use known_inputs::Inputs;
use rh_base::{NoMemory, Seq};
use std::alloc::Global;
use workload::workload;

/// The manifest of a workload and its listing.
pub fn workload_inputs(alloc: Global, size: &Size) -> Result<Inputs, NoMemory>
    ensures made { IfOk result (λ inputs. inputs ≡ workload_inputs size.now) }
    ensures short { IfOk result (λ inputs. length (input_of inputs) < 2 ^ 32) }
{
    let (manifest, listing) = workload(alloc, size.get())?;
    let mut files = Seq::new(alloc);
    files.push((Role::Packages, Seq::from_vec(listing)))?;
    files.push((Role::Input, Seq::from_vec(manifest)))?;
    Ok(Inputs {
        node: None,
        limits: Limits::Usual,
        wanted: None,
        files,
    })
}
