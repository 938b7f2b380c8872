//! What the rounds change.

ghost use Rattle.std.specs.Prelude.{◌≡◌, ◌<◌, [], Some, length, slice_get, OnOk};
ghost use Rattle.catalog_semantics.specs.Catalogs.{counted_as_run, has_run};
ghost use Rattle.catalog.specs.Adding.{made_real, changed_at};

use crate::state::State;
use catalog::Catalog;
use catalog_semantics::Resource;
use rh_base::NoMemory;

impl State {
    /// Makes the resource at a place real.
    pub fn realize(&mut self, i: u32)
        requires { i < length self.old.resources }
        ensures { self.new ≡ record self.old { resources = changed_at i made_real self.old.resources } }
    {
        self.catalog.realize(i);
    }

    /// The resource at a place.
    pub fn get(&self, i: u32) -> &Resource
        requires { i < length self.now.resources }
        ensures { slice_get self.now.resources i ≡ Some result.now }
    {
        self.catalog.get(i)
    }

    /// Notes that the body of the resource at a place runs.
    pub fn mark(&mut self, place: u32) -> Result<(), NoMemory>
        ensures { OnOk result (self.new ≡ counted_as_run place self.old) }
    {
        self.ran.push(place)
    }

    pub fn has_run(&self, place: u32) -> bool
        ensures { result ≡ has_run self.now place }
    {
        self.ran.has(place)
    }

    /// The catalog, with no relations.
    pub fn finish(self) -> Catalog
        ensures { result ≡ record { resources = self.resources; holdings = self.holdings; relations = [] } }
    {
        let State { catalog, .. } = self;
        catalog
    }
}
