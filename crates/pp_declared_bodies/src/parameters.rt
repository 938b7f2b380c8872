//! Parameters, each bound to its value.

ghost use Rattle.std.specs.Prelude.{◌≡◌, map};
ghost use Rattle.pp_value.specs.Values.{value_at};
ghost use Rattle.pp_eval.specs.Evaluating.{AnswersBy, Answers};
ghost use Rattle.catalog_semantics.specs.States.{in_turn};
ghost use Rattle.catalog_semantics.specs.Declaring.{preset_of, looked_up, given_or_else, is_of_kind, fitting, parameter_bound, is_parameter, is_known, all_known, title_bound};
ghost use Rattle.pp_declared_bodies.specs.Opening.{parameters_bound};

use catalog_semantics::{Resource, is_metaparameter};
use pp_declaration_state::State;
use pp_definitions::Parameter;
use pp_eval::{eval, limited, refusal};
use pp_value::{Value, fits};
use rh_base::{Fault, Text};
use std::alloc::Global;

/// The default of a parameter, or the refusal of one that has none.
fn preset_of(alloc: Global, r: &Resource, p: &Parameter<'_>, state: &State) -> Result<Value, Fault>
    ensures { Answers (preset_of r.now p.now p.now.default state.now) result }
{
    match p.default() {
        Some(e) => eval(alloc, e, state.scopes()),
        None => Err(refusal(alloc, 25, r.at, p.name())),
    }
}

/// The value that class data give a parameter, or else its default.
fn looked_up(alloc: Global, r: &Resource, p: &Parameter<'_>, state: &State) -> Result<Value, Fault>
    ensures { Answers (looked_up r.now p.now p.now.from_data state.now) result }
{
    match p.from_data() {
        Some(x) => limited(alloc, r.at, x.copy(alloc)?),
        None => preset_of(alloc, r, p, state),
    }
}

/// The value of a parameter: the given one, or else that from class data, or else the default.
fn given_or_else(
    alloc: Global,
    r: &Resource,
    p: &Parameter<'_>,
    state: &State,
) -> Result<Value, Fault>
    ensures { Answers (given_or_else r.now p.now (value_at p.now.name r.now.attrs) state.now) result }
{
    match r.attrs.find(p.name()) {
        Some(x) => Ok(x.copy(alloc)?),
        None => looked_up(alloc, r, p, state),
    }
}

fn is_of_kind(p: &Parameter<'_>, x: &Value) -> bool
    ensures { result ≡ is_of_kind p.now.kind x.now }
{
    match p.kind() {
        Some(kind) => fits(x, kind),
        None => true,
    }
}

/// A value that is of the parameter's type.
fn fitting(alloc: Global, at: u32, p: &Parameter<'_>, x: Value) -> Result<Value, Fault>
    ensures { Answers (fitting at p.now x) result }
{
    if is_of_kind(p, &x) {
        return Ok(x);
    }
    Err(refusal(alloc, 27, at, p.name()))
}

/// Binds a parameter to its value, in the scope of the body.
fn bind_parameter(
    alloc: Global,
    r: &Resource,
    p: &Parameter<'_>,
    state: &mut State,
) -> Result<(), Fault>
    ensures { AnswersBy (λ done. state.new) (parameter_bound r.now p.now state.old) result }
{
    let x = given_or_else(alloc, r, p, state)?;
    let x = fitting(alloc, r.at, p, x)?;
    state.bind(r.at, p.name(), x)
}

/// Binds parameters, one after the other.
fn bind_all(
    alloc: Global,
    r: &Resource,
    parameters: &[Parameter<'_>],
    state: &mut State,
) -> Result<(), Fault>
    ensures { AnswersBy (λ done. state.new) (in_turn (map (parameter_bound r.now) parameters.now) state.old) result }
{
    for p in parameters {
        match bind_parameter(alloc, r, p, state) {
            Ok(()) => {}
            Err(fault) => return Err(fault),
        }
    }
    Ok(())
}

fn bind_title(alloc: Global, r: &Resource, name: &str, state: &mut State) -> Result<(), Fault>
    ensures { AnswersBy (λ done. state.new) (title_bound r.now name.now state.old) result }
{
    let title = Value::Str(r.id.title.copy(alloc)?);
    state.bind(r.at, name, title)
}

/// Binds `title`, `name` and the parameters, in the scope of the body.
pub fn bind_parameters(
    alloc: Global,
    r: &Resource,
    parameters: &[Parameter<'_>],
    state: &mut State,
) -> Result<(), Fault>
    ensures { AnswersBy (λ done. state.new) (parameters_bound r.now parameters.now state.old) result }
{
    bind_title(alloc, r, "title", state)?;
    bind_title(alloc, r, "name", state)?;
    bind_all(alloc, r, parameters, state)
}

fn is_parameter(parameters: &[Parameter<'_>], name: &str) -> bool
    ensures { result ≡ is_parameter parameters.now name.now }
{
    for p in parameters {
        if p.name() == name {
            return true;
        }
    }
    false
}

fn is_known(parameters: &[Parameter<'_>], name: &str) -> bool
    ensures { result ≡ is_known parameters.now name.now }
{
    let parameter = is_parameter(parameters, name);
    let level = name == "loglevel";
    let metaparameter = is_metaparameter(name);
    parameter || (level || metaparameter)
}

/// Each attribute must name a parameter.
pub fn all_known(
    alloc: Global,
    at: u32,
    parameters: &[Parameter<'_>],
    attributes: &[(Text, Value)],
    state: &State,
) -> Result<(), Fault>
    ensures { AnswersBy (λ done. state.now) (all_known at parameters.now attributes.now state.now) result }
{
    for pair in attributes {
        if !is_known(parameters, pair.0.as_str()) {
            return Err(refusal(alloc, 26, at, pair.0.as_str()));
        }
    }
    Ok(())
}
