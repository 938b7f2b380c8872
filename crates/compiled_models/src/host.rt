//! What stands beside native resources.

ghost use Rattle.std.specs.Prelude.{◌≡◌, IfOk};
ghost use Rattle.compiled_models.specs.Hosts.{IsSound};

use crate::premises::Premises;
use assumed_text::Assumptions;
use compiled_attributes::Fragments;
use compiled_text::CompiledCatalog;
use given_links::GivenLink;
use pkg_listing::Listing;
use rh_base::NoMemory;
use std::alloc::Global;

/// What stands beside native resources: the compiled catalog, the listing of packages, and the links that every host has, which are
/// lent; where fragments stand; and what is assumed.
#[derive(Drop)]
pub(crate) struct Host<'h> {
    pub(crate) catalog: &'h CompiledCatalog,
    pub(crate) listing: &'h Listing,
    pub(crate) links: &'h [GivenLink],
    pub(crate) fragments: Fragments,
    pub(crate) premises: Premises<'h>,
}

impl<'h> Host<'h> {
    pub(crate) fn of(
        alloc: Global,
        catalog: &'h CompiledCatalog,
        assumptions: &'h Assumptions,
        listing: &'h Listing,
        links: &'h [GivenLink],
    ) -> Result<Host<'h>, NoMemory>
        ensures catalog { IfOk result (λ h. h.catalog.now ≡ catalog.now) }
        ensures assumptions { IfOk result (λ h. h.premises.assumptions.now ≡ assumptions.now) }
        ensures listing { IfOk result (λ h. h.listing.now ≡ listing.now) }
        ensures links { IfOk result (λ h. h.links.now ≡ links.now) }
        ensures sound { IfOk result IsSound }
    {
        let premises = Premises::of(alloc, catalog.resources(), assumptions)?;
        let fragments = Fragments::of(alloc, catalog)?;
        Ok(Host {
            catalog,
            listing,
            links,
            fragments,
            premises,
        })
    }
}
