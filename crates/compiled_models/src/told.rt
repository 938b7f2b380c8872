//! The programs that resources have whatever their models are.

ghost use Rattle.std.specs.Prelude.{◌≡◌, ◌||◌, codes, option_map};
ghost use Rattle.pp_value.specs.Values.{value_at};
ghost use Rattle.catalog_semantics.specs.Attributes.{is_one_of};
ghost use Rattle.model_semantics.specs.Names.{is_true, truth_in};
ghost use Rattle.compiled_attributes.specs.Attributes.{is_noop};
ghost use Rattle.compiled_models.specs.Programs.{idle_types, is_idle, program_assumed, program_told};
ghost use Rattle.compiled_models.specs.Hosts.{IsSound, setting_of, native_of, IsTold};

use crate::host::Host;
use crate::natives::Native;
use crate::premises::assumed_at;
use assumed_models::program_of_behavior;
use assumed_text::Assumed;
use catalog_semantics::Resource;
use compiled_attributes::is_noop;
use fs_lang::Program;
use model_attributes::{is_one_of, truth_of};
use model_semantics::ModelFault;
use std::alloc::Global;

/// Whether a type only orders others, or says how others are to be applied.
fn is_idle_type(kind: &str) -> bool
    ensures { result ≡ is_one_of idle_types kind.now }
{
    is_one_of(
        &[
            "notify",
            "anchor",
            "filebucket",
            "schedule",
            "whit",
            "concat_fragment",
        ],
        kind,
    )
}

/// Whether `purge` is true.
fn purges(r: &Resource) -> bool
    ensures { result ≡ is_true (truth_in (value_at (codes "purge") r.now.attrs)) }
{
    let Some(value) = r.attrs.find("purge") else {
        return false;
    };
    matches!(truth_of(value), Some(true))
}

/// Whether a resource does nothing because of its type.
fn is_idle(r: &Resource) -> bool
    ensures { result ≡ is_idle r.now }
{
    let kind = r.id.kind.as_str();
    let orders = is_idle_type(kind);
    let is_resources = kind == "resources";
    let removes = purges(r);
    orders || is_resources && !removes
}

/// Whether a resource isn't to be changed, or does nothing because of its type.
fn does_nothing(n: &Native<'_>) -> bool
    ensures { result ≡ is_noop n.now.text.now || is_idle n.now.resource.now }
{
    let noop = is_noop(n.text);
    let idle = is_idle(n.resource);
    noop || idle
}

/// The program that is assumed, if something is.
fn program_assumed(
    alloc: Global,
    r: &Resource,
    assumed: Option<&Assumed>,
) -> Result<Option<Program>, ModelFault>
    ensures { IsTold (program_assumed r.now (option_map (λ x. x.now) assumed.entry)) result }
{
    match assumed {
        None | Some(Assumed::Refused) => Ok(None),
        Some(Assumed::Nothing) => Ok(Some(Program::Id)),
        Some(Assumed::Does(behavior)) => Ok(Some(program_of_behavior(alloc, r, behavior)?)),
    }
}

/// The program that a resource has whatever its model is, if it has one.
pub(crate) fn program_told(
    alloc: Global,
    host: &Host<'_>,
    n: &Native<'_>,
) -> Result<Option<Program>, ModelFault>
    requires { IsSound host.now }
    ensures { IsTold (program_told (setting_of host.now) (native_of n.now)) result }
{
    let assumed = assumed_at(alloc, &host.premises, n.place as usize, n.text)?;
    if let Some(program) = program_assumed(alloc, n.resource, assumed)? {
        return Ok(Some(program));
    }
    if does_nothing(n) {
        return Ok(Some(Program::Id));
    }
    Ok(None)
}
