//! The refusals of native resources.

ghost use Rattle.std.specs.Prelude.{◌≡◌, IfOk};
ghost use Rattle.rh_base.specs.Refused.{IfRefused};
ghost use Rattle.pp_eval.specs.Evaluating.{refusal};
ghost use Rattle.compiled_models.specs.Programs.{name_told, attribute_told, unmodelled, refusal_of};
ghost use Rattle.compiled_models.specs.Hosts.{native_of, IsFaultOf};

use crate::natives::Native;
use compiled_relations::name_and_line;
use model_semantics::{Cause, ModelFault};
use pp_eval::refusal;
use pp_value::shown_ref;
use rh_base::{Fault, NoMemory, Text};
use std::alloc::Global;

/// The name of a resource, with the line of the manifest that declares it.
fn name_told(alloc: Global, n: &Native<'_>) -> Result<Text, NoMemory>
    ensures { IfOk result (λ t. t ≡ name_told (native_of n.now)) }
{
    let name = shown_ref(alloc, &n.resource.id)?;
    name_and_line(alloc, n.text, name.as_str())
}

/// The same with an attribute.
fn attribute_told(alloc: Global, n: &Native<'_>, attribute: &str) -> Result<Text, NoMemory>
    ensures { IfOk result (λ t. t ≡ attribute_told (native_of n.now) attribute.now) }
{
    let mut name = shown_ref(alloc, &n.resource.id)?;
    name.push(" ")?;
    name.push(attribute)?;
    name_and_line(alloc, n.text, name.as_str())
}

/// A refusal with the resource's name.
fn refused_as(alloc: Global, number: u16, n: &Native<'_>) -> Fault
    ensures { IfRefused result (λ x. x ≡ refusal number 0 (name_told (native_of n.now))) }
{
    match name_told(alloc, n) {
        Ok(name) => refusal(alloc, number, 0, name.as_str()),
        Err(m) => Fault::Memory(m),
    }
}

/// The refusal of an attribute.
fn attribute_refused(alloc: Global, n: &Native<'_>, attribute: &str) -> Fault
    ensures { IfRefused result (λ x. x ≡ refusal 51 0 (attribute_told (native_of n.now) attribute.now)) }
{
    match attribute_told(alloc, n, attribute) {
        Ok(name) => refusal(alloc, 51, 0, name.as_str()),
        Err(m) => Fault::Memory(m),
    }
}

/// No model: what `exec` does can't be told, and other types aren't known.
fn unmodelled(alloc: Global, n: &Native<'_>) -> Fault
    ensures { IfRefused result (λ x. x ≡ unmodelled (native_of n.now)) }
{
    if n.resource.id.kind.as_str() == "exec" {
        return refused_as(alloc, 50, n);
    }
    refused_as(alloc, 23, n)
}

/// The refusal of a resource for a cause.
fn refusal_of(alloc: Global, n: &Native<'_>, cause: &Cause) -> Fault
    ensures { IfRefused result (λ x. x ≡ refusal_of (native_of n.now) cause.now) }
{
    match cause {
        Cause::Unmodelled => unmodelled(alloc, n),
        Cause::Attribute(name) => attribute_refused(alloc, n, name.as_str()),
        Cause::Name => refused_as(alloc, 52, n),
        Cause::Reserved => refused_as(alloc, 53, n),
        Cause::Unlisted => refused_as(alloc, 54, n),
        Cause::State => refused_as(alloc, 55, n),
        Cause::Twice => refused_as(alloc, 56, n),
    }
}

/// The fault of a resource.
pub(crate) fn fault_of(alloc: Global, n: &Native<'_>, fault: ModelFault) -> Fault
    ensures { IsFaultOf (native_of n.now) fault result }
{
    match fault {
        ModelFault::Because(cause) => refusal_of(alloc, n, &cause),
        ModelFault::Memory(m) => Fault::Memory(m),
    }
}
