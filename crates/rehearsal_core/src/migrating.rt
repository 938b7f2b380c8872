//! A listing in its newest form.

ghost use Rattle.std.specs.Prelude.{◌≡◌, ◌++◌, IfOk, IfErr, OnOk, codes};
ghost use Rattle.rh_base.specs.Refused.{IfRefused};
ghost use Rattle.pkg_listing.specs.Form.{IsListingText};
ghost use Rattle.pkg_listing.specs.ListingText.{listing_text};
ghost use Rattle.rehearsal_core.specs.Migrated.{IsMigrated, BreaksListingRule};

use pkg_listing::{Listing, listing_from_json, listing_to_json};
use rh_base::{Fault, NoMemory, Seq};
use std::alloc::Global;

/// A listing in version 2, on a line.
fn listing_line(alloc: Global, listing: &Listing) -> Result<Seq<u8>, NoMemory>
    ensures line { IfOk result (λ bytes. bytes ≡ listing_text listing.now ++ codes "\n") }
    ensures again { OnOk result (IsListingText (listing_text listing.now) listing.now) }
{
    let mut bytes = Vec::new(alloc);
    listing_to_json(alloc, listing, &mut bytes)?;
    bytes.push(b'\n')?;
    Ok(Seq::from_vec(bytes))
}

/// The listing of a text in version 2, on a line.
pub fn migrated(alloc: Global, text: &[u8]) -> Result<Seq<u8>, Fault>
    ensures report { IfOk result (IsMigrated text.now) }
    ensures refused { IfErr result (λ e. IfRefused e (BreaksListingRule text.now)) }
{
    let listing = listing_from_json(alloc, text)?;
    Ok(listing_line(alloc, &listing)?)
}
