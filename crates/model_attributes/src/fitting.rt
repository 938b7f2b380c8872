//! Which attribute a resource is refused for.

ghost use Rattle.std.specs.Prelude.{◌≡◌, ◌&&◌, [], option_map};
ghost use Rattle.model_semantics.specs.Attributes.{is_address, is_source, are_filled, filling_fits, file_fits, user_fits, kind_fits, is_ignored, value_fits, pair_fits, misfit_behind, required_attribute, missing, attributes_fit};
ghost use Rattle.model_semantics.specs.Names.{Meets, RefusesFor};

use crate::accepted::{accepted, fits, is_one_of};
use crate::values::{begins, is_false, truth_of};
use model_semantics::{Accepts, Cause, Ensure, Kind, ModelFault};
use pp_value::{Pairs, Value};
use rh_base::{NoMemory, Text};
use std::alloc::Global;

fn is_address(text: &str) -> bool
    ensures { result ≡ is_address text.now }
{
    let puppet = begins(b"puppet:", text.as_bytes());
    let http = begins(b"http:", text.as_bytes());
    let https = begins(b"https:", text.as_bytes());
    puppet || (http || https)
}

/// Whether a value is a path or an address.
fn is_source(x: &Value) -> bool
    ensures { result ≡ is_source x.now }
{
    match x {
        Value::Str(text) => {
            let path = begins(b"/", text.as_str().as_bytes());
            let address = is_address(text.as_str());
            path || address
        }
        _ => false,
    }
}

/// Whether `content` or `source` stands among attributes.
fn are_filled(pairs: &[(Text, Value)]) -> bool
    ensures { result ≡ are_filled pairs.now }
{
    for pair in pairs {
        if is_one_of(&["content", "source"], pair.0.as_str()) {
            return true;
        }
    }
    false
}

fn filling_fits(e: Ensure, before: &[(Text, Value)]) -> bool
    ensures { result ≡ filling_fits e before.now }
{
    let link = matches!(e, Ensure::Link);
    let folder = matches!(e, Ensure::Directory);
    let filled = are_filled(before);
    !(link || (folder || filled))
}

fn source_fits(e: Ensure, before: &[(Text, Value)], x: &Value) -> bool
    ensures { result ≡ (filling_fits e before.now && is_source x.now) }
{
    let fits = filling_fits(e, before);
    let source = is_source(x);
    fits && source
}

fn file_fits(e: Ensure, before: &[(Text, Value)], pair: &(Text, Value)) -> bool
    ensures { result ≡ file_fits e before.now pair.now }
{
    let name = pair.0.as_str();
    if name == "content" {
        filling_fits(e, before)
    } else if name == "source" {
        source_fits(e, before, &pair.1)
    } else if name == "target" {
        matches!(e, Ensure::Link)
    } else {
        true
    }
}

fn user_fits(e: Ensure, pair: &(Text, Value)) -> bool
    ensures { result ≡ user_fits e pair.now }
{
    let absent = matches!(e, Ensure::Absent);
    let home = pair.0.as_str() == "managehome";
    let off = is_false(truth_of(&pair.1));
    !(absent && (home && !off))
}

fn kind_fits(k: Kind, e: Ensure, before: &[(Text, Value)], pair: &(Text, Value)) -> bool
    ensures { result ≡ kind_fits k e before.now pair.now }
{
    match k {
        Kind::File => file_fits(e, before, pair),
        Kind::User => user_fits(e, pair),
        Kind::Package | Kind::Group | Kind::Service | Kind::Cron | Kind::Key => true,
    }
}

/// Whether an attribute counts as not given.
fn is_ignored(k: Kind, e: Ensure, name: &str) -> bool
    ensures { result ≡ is_ignored k e name.now }
{
    match (k, e) {
        (Kind::File, Ensure::Absent) => is_one_of(&["content", "source", "target"], name),
        _ => false,
    }
}

fn value_fits(accepts: Option<Accepts>, x: &Value) -> bool
    ensures { result ≡ value_fits accepts x.now }
{
    match accepts {
        Some(a) => fits(a, x),
        None => false,
    }
}

/// Whether an attribute is accepted, by the attributes before it.
fn pair_fits(k: Kind, e: Ensure, before: &[(Text, Value)], pair: &(Text, Value)) -> bool
    ensures { result ≡ pair_fits k e before.now pair.now }
{
    let ignored = is_ignored(k, e, pair.0.as_str());
    let value = value_fits(accepted(k, pair.0.as_str()), &pair.1);
    let kind = kind_fits(k, e, before, pair);
    ignored || (value && kind)
}

/// The first attribute that isn't accepted.
fn misfit(k: Kind, e: Ensure, attrs: &[(Text, Value)]) -> Option<&Text>
    ensures { option_map (λ t. t.now) result ≡ misfit_behind k e [] attrs.now }
{
    for i in 0..attrs.len() {
        let pair = &attrs[i];
        if !pair_fits(k, e, &attrs[..i], pair) {
            return Some(&pair.0);
        }
    }
    None
}

/// An attribute that has to be given.
fn wanted(k: Kind, e: Ensure) -> Option<&'static str>
    ensures { option_map (λ t. t.now) result ≡ required_attribute k e }
{
    match (k, e) {
        (Kind::File, Ensure::Link) => Some("target"),
        (Kind::Cron, Ensure::Absent) => None,
        (Kind::Cron, _) => Some("command"),
        (Kind::Key, _) => Some("user"),
        _ => None,
    }
}

/// The attribute that isn't given, if there is one.
fn missing(k: Kind, e: Ensure, attrs: &Pairs) -> Option<&'static str>
    ensures { option_map (λ t. t.now) result ≡ missing (required_attribute k e) attrs.now }
{
    let name = wanted(k, e)?;
    match attrs.find(name) {
        Some(_) => None,
        None => Some(name),
    }
}

fn refused(alloc: Global, name: &str) -> ModelFault
    ensures { RefusesFor name.now result }
{
    match String::from_str(alloc, name) {
        Ok(name) => ModelFault::Because(Cause::Attribute(Text::from_string(name))),
        Err(_) => ModelFault::Memory(NoMemory),
    }
}

/// Refuses attributes that the type doesn't accept, and then one that is missing.
pub fn attributes_fit(alloc: Global, k: Kind, e: Ensure, attrs: &Pairs) -> Result<(), ModelFault>
    ensures { Meets (λ done. done) (attributes_fit k e attrs.now) result }
{
    if let Some(name) = misfit(k, e, attrs.as_slice()) {
        return Err(refused(alloc, name.as_str()));
    }
    match missing(k, e, attrs) {
        Some(name) => Err(refused(alloc, name)),
        None => Ok(()),
    }
}
