//! Which values each attribute of each type accepts.

ghost use Rattle.std.specs.Prelude.{◌≡◌, ◌∷◌, map};
ghost use Rattle.catalog_semantics.specs.Attributes.{is_one_of};
ghost use Rattle.model_semantics.specs.declared.kinds.Kind.TheVariants as kind;
ghost use Rattle.model_semantics.specs.Attributes.{accepted, common, rows_of, fits};

use crate::values::{
    is_false, is_list_of_texts, is_list_of_times, is_text, is_text_or_number, is_true_itself,
    truth_of,
};
use catalog_semantics::is_metaparameter;
use model_semantics::{Accepts, Kind};
use pp_value::Value;

/// Whether a name is one of these.
pub fn is_one_of(names: &[&str], name: &str) -> bool
    ensures { result ≡ is_one_of (map (λ s. s.now) names.now) name.now }
{
    for one in names {
        if name == *one {
            return true;
        }
    }
    false
}

fn file_row(name: &str) -> Option<Accepts>
    ensures { result ≡ accepted (rows_of kind.File) name.now }
{
    if is_one_of(&["path", "content", "source", "target"], name) {
        Some(Accepts::Text)
    } else if is_one_of(&["owner", "group"], name) {
        Some(Accepts::TextOrNumber)
    } else if is_one_of(
        &[
            "mode",
            "backup",
            "show_diff",
            "checksum",
            "validate_cmd",
            "selrange",
            "selrole",
            "seltype",
            "seluser",
        ],
        name,
    ) {
        Some(Accepts::Anything)
    } else if is_one_of(&["recurse", "purge", "force"], name) {
        Some(Accepts::OnlyFalse)
    } else if name == "replace" {
        Some(Accepts::OnlyTrue)
    } else {
        None
    }
}

fn package_row(name: &str) -> Option<Accepts>
    ensures { result ≡ accepted (rows_of kind.Package) name.now }
{
    if is_one_of(&["name"], name) {
        Some(Accepts::Text)
    } else if is_one_of(
        &[
            "source",
            "install_options",
            "uninstall_options",
            "allow_virtual",
        ],
        name,
    ) {
        Some(Accepts::Anything)
    } else {
        None
    }
}

fn user_row(name: &str) -> Option<Accepts>
    ensures { result ≡ accepted (rows_of kind.User) name.now }
{
    if is_one_of(&["name", "home"], name) {
        Some(Accepts::Text)
    } else if is_one_of(&["gid"], name) {
        Some(Accepts::TextOrNumber)
    } else if is_one_of(&["groups"], name) {
        Some(Accepts::TextOrTexts)
    } else if is_one_of(&["managehome"], name) {
        Some(Accepts::Truth)
    } else if is_one_of(
        &[
            "uid",
            "comment",
            "shell",
            "password",
            "system",
            "expiry",
            "membership",
            "allowdupe",
            "forcelocal",
        ],
        name,
    ) {
        Some(Accepts::Anything)
    } else {
        None
    }
}

fn group_row(name: &str) -> Option<Accepts>
    ensures { result ≡ accepted (rows_of kind.Group) name.now }
{
    if is_one_of(&["name"], name) {
        Some(Accepts::Text)
    } else if is_one_of(&["gid", "system", "allowdupe", "forcelocal"], name) {
        Some(Accepts::Anything)
    } else {
        None
    }
}

fn service_row(name: &str) -> Option<Accepts>
    ensures { result ≡ accepted (rows_of kind.Service) name.now }
{
    if is_one_of(&["name"], name) {
        Some(Accepts::Text)
    } else if is_one_of(&["enable"], name) {
        Some(Accepts::Truth)
    } else if is_one_of(
        &[
            "hasstatus",
            "hasrestart",
            "start",
            "stop",
            "restart",
            "status",
            "pattern",
            "timeout",
        ],
        name,
    ) {
        Some(Accepts::Anything)
    } else {
        None
    }
}

fn cron_row(name: &str) -> Option<Accepts>
    ensures { result ≡ accepted (rows_of kind.Cron) name.now }
{
    if is_one_of(&["name", "command", "user", "special"], name) {
        Some(Accepts::Text)
    } else if is_one_of(&["minute", "hour", "monthday", "month", "weekday"], name) {
        Some(Accepts::Times)
    } else if is_one_of(&["environment"], name) {
        Some(Accepts::Anything)
    } else {
        None
    }
}

fn key_row(name: &str) -> Option<Accepts>
    ensures { result ≡ accepted (rows_of kind.Key) name.now }
{
    if is_one_of(&["name", "user", "type", "key"], name) {
        Some(Accepts::Text)
    } else if is_one_of(&["options"], name) {
        Some(Accepts::Anything)
    } else {
        None
    }
}

fn row_of(k: Kind, name: &str) -> Option<Accepts>
    ensures { result ≡ accepted (rows_of k) name.now }
{
    match k {
        Kind::File => file_row(name),
        Kind::Package => package_row(name),
        Kind::User => user_row(name),
        Kind::Group => group_row(name),
        Kind::Service => service_row(name),
        Kind::Cron => cron_row(name),
        Kind::Key => key_row(name),
    }
}

/// What an attribute accepts, if the type has it.
#[tactic(auto, using(crate::proofs::CommonLaws::three_and_more))]
pub fn accepted(k: Kind, name: &str) -> Option<Accepts>
    ensures { result ≡ accepted (common ∷ rows_of k) name.now }
{
    let common = is_one_of(&["ensure", "loglevel", "provider"], name);
    let metaparameter = is_metaparameter(name);
    if common || metaparameter {
        Some(Accepts::Anything)
    } else {
        row_of(k, name)
    }
}

/// Whether a value is one of those that an attribute accepts.
pub fn fits(accepts: Accepts, x: &Value) -> bool
    ensures { result ≡ fits accepts x.now }
{
    match accepts {
        Accepts::Anything => true,
        Accepts::Text => is_text(x),
        Accepts::TextOrNumber => is_text_or_number(x),
        Accepts::TextOrTexts => {
            let text = is_text(x);
            let texts = is_list_of_texts(x);
            text || texts
        }
        Accepts::Times => {
            let time = is_text_or_number(x);
            let times = is_list_of_times(x);
            time || times
        }
        Accepts::Truth => truth_of(x).is_some(),
        Accepts::OnlyFalse => is_false(truth_of(x)),
        Accepts::OnlyTrue => is_true_itself(x),
    }
}
