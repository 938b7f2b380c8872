//! The states that `ensure` and `enable` tell.

ghost use Rattle.std.specs.Prelude.{◌≡◌, option_map};
ghost use Rattle.model_semantics.specs.Attributes.{begins_with_digit, presence_word, file_word, package_word, service_word, word_of, truth_word, ensure_of, enable_value, enable_of, states_of};
ghost use Rattle.model_semantics.specs.Names.{Meets};

use crate::values::{is_digit, truth_of};
use model_semantics::{Cause, Ensure, Kind, ModelFault, States};
use pp_value::{Pairs, Value};

fn begins_with_digit(text: &str) -> bool
    ensures { result ≡ begins_with_digit text.now }
{
    match text.as_bytes().first() {
        Some(b) => is_digit(*b),
        None => false,
    }
}

fn presence_word(text: &str) -> Option<Ensure>
    ensures { result ≡ presence_word text.now }
{
    if text == "present" {
        Some(Ensure::Present)
    } else if text == "absent" {
        Some(Ensure::Absent)
    } else {
        None
    }
}

fn file_word(text: &str) -> Option<Ensure>
    ensures { result ≡ file_word text.now }
{
    if text == "file" {
        Some(Ensure::File)
    } else if text == "directory" {
        Some(Ensure::Directory)
    } else if text == "link" {
        Some(Ensure::Link)
    } else {
        presence_word(text)
    }
}

fn package_word(text: &str) -> Option<Ensure>
    ensures { result ≡ package_word text.now }
{
    let installed = text == "installed";
    let latest = text == "latest";
    let version = begins_with_digit(text);
    if installed || (latest || version) {
        Some(Ensure::Present)
    } else if text == "purged" {
        Some(Ensure::Absent)
    } else {
        presence_word(text)
    }
}

fn service_word(text: &str) -> Option<Ensure>
    ensures { result ≡ service_word text.now }
{
    if text == "running" {
        Some(Ensure::Running)
    } else if text == "stopped" {
        Some(Ensure::Stopped)
    } else {
        None
    }
}

fn word_of(k: Kind, text: &str) -> Option<Ensure>
    ensures { result ≡ word_of k text.now }
{
    match k {
        Kind::File => file_word(text),
        Kind::Package => package_word(text),
        Kind::Service => service_word(text),
        Kind::User | Kind::Group | Kind::Cron | Kind::Key => presence_word(text),
    }
}

fn truth_word(k: Kind, b: bool) -> Option<Ensure>
    ensures { result ≡ truth_word k b }
{
    match k {
        Kind::Service => Some(if b { Ensure::Running } else { Ensure::Stopped }),
        Kind::File | Kind::Package | Kind::User | Kind::Group | Kind::Cron | Kind::Key => None,
    }
}

fn ensure_of(k: Kind, value: Option<&Value>) -> Option<Ensure>
    ensures { result ≡ ensure_of k (option_map (λ x. x.now) value.entry) }
{
    match value {
        None => Some(Ensure::Unsaid),
        Some(Value::Str(text)) => word_of(k, text.as_str()),
        Some(Value::Bool(b)) => truth_word(k, *b),
        Some(_) => None,
    }
}

fn enable_value(value: Option<&Value>) -> Option<Option<bool>>
    ensures { result ≡ enable_value (option_map (λ x. x.now) value.entry) }
{
    match value {
        None => Some(None),
        Some(x) => match truth_of(x) {
            Some(b) => Some(Some(b)),
            None => None,
        },
    }
}

fn enable_of(k: Kind, attrs: &Pairs) -> Option<Option<bool>>
    ensures { result ≡ enable_of k attrs.now }
{
    match k {
        Kind::Service => enable_value(attrs.find("enable")),
        Kind::File | Kind::Package | Kind::User | Kind::Group | Kind::Cron | Kind::Key => {
            Some(None)
        }
    }
}

/// What `ensure` and `enable` say, unless the tables lack a value.
pub fn states_of(k: Kind, attrs: &Pairs) -> Result<States, ModelFault>
    ensures { Meets (λ s. s) (states_of k attrs.now) result }
{
    let Some(ensure) = ensure_of(k, attrs.find("ensure")) else {
        return Err(ModelFault::Because(Cause::State));
    };
    let Some(enable) = enable_of(k, attrs) else {
        return Err(ModelFault::Because(Cause::State));
    };
    Ok(States { ensure, enable })
}
