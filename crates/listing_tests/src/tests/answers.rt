//! What is answered to the texts of listings.

use pkg_listing::{Listing, listing_from_json, listing_to_json};
use rh_base::{Fault, NoMemory};
use std::alloc::Global;
use std::test::Fail;
use test_rows::{refused, same};

fn written(alloc: Global, listing: &Listing) -> Result<Vec<u8>, NoMemory> {
    let mut bytes = Vec::new(alloc);
    listing_to_json(alloc, listing, &mut bytes)?;
    Ok(bytes)
}

fn refusal(alloc: Global, fault: &Fault) -> Result<Vec<u8>, NoMemory> {
    Ok(refused(alloc, fault)?.into_bytes())
}

/// The listing of a text as it is written, or the refusal.
fn answer(alloc: Global, text: &str) -> Result<Vec<u8>, NoMemory> {
    match listing_from_json(alloc, text.as_bytes()) {
        Ok(listing) => written(alloc, &listing),
        Err(fault) => refusal(alloc, &fault),
    }
}

/// A text gets this answer.
pub fn is_answered(alloc: Global, text: &str, want: &str) -> Result<(), Fail> {
    let found = answer(alloc, text)?;
    let told = str::from_utf8(found.as_slice()).unwrap_or("no text");
    same(alloc, text, told, want)
}
