//! A manifest with its listing.

ghost use Rattle.std.specs.Prelude.{◌≡◌, ◌≤◌, ◌<◌, ◌^◌, length, IfOk};
ghost use Rattle.workload.specs.Workload.{manifest_text, listing_text};

use crate::listing::listing_text;
use crate::manifest::manifest_text;
use rh_base::NoMemory;
use std::alloc::Global;

#[tactic(auto, using(crate::proofs::Lengths::manifest_short))]
/// A manifest with n packages, each with a file and a service, and two packages more, each with a file; and the listing of
/// all packages. Of its 3 n + 4 resources pruning keeps four.
pub fn workload(alloc: Global, n: u32) -> Result<(Vec<u8>, Vec<u8>), NoMemory>
    requires least { 1 ≤ n }
    requires most { n ≤ 54 }
    ensures manifest { IfOk result (λ made. made.0.items ≡ manifest_text n) }
    ensures short { IfOk result (λ made. length made.0.items < 2 ^ 32) }
    ensures listing { IfOk result (λ made. made.1.items ≡ listing_text n) }
{
    let manifest = manifest_text(alloc, n)?;
    let listing = listing_text(alloc, n)?;
    Ok((
        manifest.into_string().into_bytes(),
        listing.into_string().into_bytes(),
    ))
}
