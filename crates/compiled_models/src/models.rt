//! The models of native resources.

ghost use Rattle.std.specs.Prelude.{◌≡◌, IfOk};
ghost use Rattle.model_semantics.specs.Attributes.{unless_refused};
ghost use Rattle.model_semantics.specs.Names.{Meets};
ghost use Rattle.model_names.specs.Seen.{seen};
ghost use Rattle.compiled_attributes.specs.Fragments.{why_unfilled};
ghost use Rattle.assumed_models.specs.Edits.{edits_beside};
ghost use Rattle.compiled_models.specs.Programs.{native_model, model_of_kind, model_of};
ghost use Rattle.compiled_models.specs.Hosts.{IsSound, setting_of, native_of};

use crate::attributes::native_fits;
use crate::files::file_model;
use crate::host::Host;
use crate::natives::Native;
use assumed_models::Edit;
use catalog_semantics::Resource;
use compiled_attributes::why_unfilled;
use model_attributes::{kind_of, states_of};
use model_names::Model;
use model_semantics::{Cause, Kind, ModelFault, States};
use pkg_listing::Listing;
use res_models::model_at;
use rh_base::{NoMemory, Text};
use std::alloc::Global;

/// A text.
fn text_of(alloc: Global, text: &str) -> Result<Text, NoMemory>
    ensures { IfOk result (λ t. t ≡ text.now) }
{
    Ok(Text::from_string(String::from_str(alloc, text)?))
}

/// Whether a file that is put together of fragments can be told.
fn filled(alloc: Global, host: &Host<'_>, n: &Native<'_>) -> Result<(), ModelFault>
    requires { IsSound host.now }
    ensures { Meets (λ done. done) (unless_refused (why_unfilled host.now.catalog.now.resources n.now.text.now)) result }
{
    match why_unfilled(alloc, host.catalog, &host.fragments, n.text)? {
        None => Ok(()),
        Some(name) => Err(ModelFault::Because(Cause::Attribute(text_of(alloc, name)?))),
    }
}

/// The model by the type.
fn native_model(
    alloc: Global,
    k: Kind,
    s: States,
    listing: &Listing,
    r: &Resource,
) -> Result<Model, ModelFault>
    ensures { Meets seen (native_model k s listing.now r.now) result }
{
    match k {
        Kind::File => file_model(alloc, s.ensure, r),
        Kind::Package | Kind::User | Kind::Group | Kind::Service | Kind::Cron | Kind::Key =>
            model_at(alloc, k, s, listing, r),
    }
}

fn model_of_kind(
    alloc: Global,
    host: &Host<'_>,
    edits: &[Edit],
    n: &Native<'_>,
    k: Kind,
) -> Result<Model, ModelFault>
    requires { IsSound host.now }
    ensures { Meets seen (model_of_kind (setting_of host.now) (edits_beside n.now.place edits.now) (native_of n.now) k) result }
{
    let r = n.resource;
    let states = states_of(k, &r.attrs)?;
    native_fits(
        alloc,
        host.links,
        edits,
        n.place as usize,
        k,
        states.ensure,
        r,
    )?;
    filled(alloc, host, n)?;
    native_model(alloc, k, states, host.listing, r)
}

/// The model of a resource, beside the edits of others.
pub(crate) fn model_of(
    alloc: Global,
    host: &Host<'_>,
    edits: &[Edit],
    n: &Native<'_>,
) -> Result<Model, ModelFault>
    requires { IsSound host.now }
    ensures { Meets seen (model_of (setting_of host.now) (edits_beside n.now.place edits.now) (native_of n.now)) result }
{
    match kind_of(n.resource.id.kind.as_str()) {
        Some(k) => model_of_kind(alloc, host, edits, n, k),
        None => Err(ModelFault::Because(Cause::Unmodelled)),
    }
}
