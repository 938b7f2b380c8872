//! The models of all types.

ghost use Rattle.model_semantics.specs.Names.{Meets};
ghost use Rattle.model_semantics.specs.Models.{model_at, model_of_kind, model_of};
ghost use Rattle.model_names.specs.Seen.{seen};

use catalog_semantics::Resource;
use model_accounts::{group_model, user_model};
use model_attributes::{attributes_fit, kind_of, states_of};
use model_entries::{cron_model, key_model};
use model_files::file_model;
use model_names::Model;
use model_packages::package_model;
use model_semantics::{Cause, Kind, ModelFault, States};
use model_services::service_model;
use pkg_listing::Listing;
use std::alloc::Global;

/// The model by the type.
pub fn model_at(
    alloc: Global,
    k: Kind,
    s: States,
    listing: &Listing,
    r: &Resource,
) -> Result<Model, ModelFault>
    ensures { Meets seen (model_at k s listing.now r.now) result }
{
    match k {
        Kind::File => file_model(alloc, s.ensure, r),
        Kind::Package => package_model(alloc, s.ensure, listing, r),
        Kind::User => user_model(alloc, s.ensure, r),
        Kind::Group => group_model(alloc, s.ensure, r),
        Kind::Service => service_model(alloc, s, r),
        Kind::Cron => cron_model(alloc, s.ensure, r),
        Kind::Key => key_model(alloc, s.ensure, r),
    }
}

fn model_of_kind(
    alloc: Global,
    listing: &Listing,
    r: &Resource,
    k: Kind,
) -> Result<Model, ModelFault>
    ensures { Meets seen (model_of_kind listing.now r.now k) result }
{
    let s = states_of(k, &r.attrs)?;
    attributes_fit(alloc, k, s.ensure, &r.attrs)?;
    model_at(alloc, k, s, listing, r)
}

/// The model of a resource.
pub fn model_of(alloc: Global, listing: &Listing, r: &Resource) -> Result<Model, ModelFault>
    ensures { Meets seen (model_of listing.now r.now) result }
{
    match kind_of(r.id.kind.as_str()) {
        Some(k) => model_of_kind(alloc, listing, r, k),
        None => Err(ModelFault::Because(Cause::Unmodelled)),
    }
}
