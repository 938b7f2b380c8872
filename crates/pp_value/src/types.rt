//! Which values fit a type.

ghost use Rattle.std.specs.Prelude.{◌≡◌, ◌||◌, true, pos, Some, length, chars};
ghost use Rattle.std.specs.List.{list_any, list_all};
ghost use Rattle.pp_value.specs.Types.{within, is_fit};
ghost use Rattle.pp_value.specs.Values.{is_undef, on_bool, on_int, on_text, on_list, on_map};
ghost use Rattle.std.specs.Str.{bytes_eq};

use crate::value::Value;
use pp_syntax::TypeName;
use rh_base::Text;

fn within(least: Option<i64>, most: Option<i64>, n: i64) -> bool
    ensures { result ≡ within least most n }
{
    let above = match least {
        None => true,
        Some(least) => least <= n,
    };
    let below = match most {
        None => true,
        Some(most) => n <= most,
    };
    above && below
}

fn counts_within(least: i64, most: Option<i64>, count: usize) -> bool
    ensures { result ≡ within (Some least) most (pos count) }
{
    let low = least < 0 || least as usize <= count;
    let high = match most {
        None => true,
        Some(most) => 0 <= most && count <= most as usize,
    };
    low && high
}

fn is_among(text: &str, names: &[Text]) -> bool
    ensures { result ≡ list_any (bytes_eq text.now) names.now }
{
    for name in names {
        if text == name.as_str() {
            return true;
        }
    }
    false
}

fn is_bool(v: &Value) -> bool
    ensures { result ≡ on_bool (λ b. true) v.now }
{
    matches!(v, Value::Bool(_))
}

fn is_map(v: &Value) -> bool
    ensures { result ≡ on_map (λ pairs. true) v.now }
{
    matches!(v, Value::Map(_))
}

fn is_list(v: &Value) -> bool
    ensures { result ≡ on_list (λ items. true) v.now }
{
    matches!(v, Value::List(_))
}

fn is_undef(v: &Value) -> bool
    ensures { result ≡ is_undef v.now }
{
    matches!(v, Value::Undef)
}

/// How many Unicode scalar values a text has.
fn scalar_count(text: &str) -> usize
    ensures { result ≡ length (chars text.now) }
{
    text.chars().count()
}

fn is_text_within(v: &Value, least: i64, most: Option<i64>) -> bool
    ensures { result ≡ on_text (λ text. within (Some least) most (pos (length (chars text)))) v.now }
{
    match v {
        Value::Str(text) => counts_within(least, most, scalar_count(text.as_str())),
        _ => false,
    }
}

fn is_int_within(v: &Value, least: Option<i64>, most: Option<i64>) -> bool
    ensures { result ≡ on_int (within least most) v.now }
{
    match v {
        Value::Int(n) => within(least, most, *n),
        _ => false,
    }
}

fn is_text_among(v: &Value, names: &[Text]) -> bool
    ensures { result ≡ on_text (λ text. list_any (bytes_eq text) names.now) v.now }
{
    match v {
        Value::Str(text) => is_among(text.as_str(), names),
        _ => false,
    }
}

#[cycle(fits)]
#[tactic(auto, using(crate::specs::Levels::is_fit_array, crate::specs::Levels::is_fit_optional, crate::specs::Levels::is_fit_variant))]
fn is_fit(kind: &TypeName, v: &Value) -> bool
    ensures { result ≡ is_fit kind.now v.now }
{
    match kind {
        TypeName::Any => true,
        TypeName::Boolean => is_bool(v),
        TypeName::Hash => is_map(v),
        TypeName::Str { least, most } => is_text_within(v, *least, *most),
        TypeName::Int { least, most } => is_int_within(v, *least, *most),
        TypeName::Array(member) => match member {
            None => is_list(v),
            Some(member) => is_list_of(member.get(), v),
        },
        TypeName::Optional(other) => is_undef_or(other.get(), v),
        TypeName::Enum(names) => is_text_among(v, names.as_slice()),
        TypeName::Variant(kinds) => is_fit_to_one(kinds.as_slice(), v),
    }
}

#[cycle(fits)]
#[tactic(auto, using(crate::specs::Levels::on_list_of))]
fn is_list_of(kind: &TypeName, v: &Value) -> bool
    ensures { result ≡ on_list (list_all (is_fit kind.now)) v.now }
{
    match v {
        Value::List(items) => all_fit(kind, items.as_slice()),
        _ => false,
    }
}

#[cycle(fits)]
fn all_fit(kind: &TypeName, items: &[Value]) -> bool
    ensures { result ≡ list_all (is_fit kind.now) items.now }
{
    for item in items {
        if !is_fit(kind, item) {
            return false;
        }
    }
    true
}

#[cycle(fits)]
fn is_undef_or(kind: &TypeName, v: &Value) -> bool
    ensures { result ≡ (is_undef v.now || is_fit kind.now v.now) }
{
    if is_undef(v) {
        return true;
    }
    is_fit(kind, v)
}

#[cycle(fits)]
fn is_fit_to_one(kinds: &[TypeName], v: &Value) -> bool
    ensures { result ≡ list_any (λ kind. is_fit kind v.now) kinds.now }
{
    for kind in kinds {
        if is_fit(kind, v) {
            return true;
        }
    }
    false
}

/// Whether a value fits a type. An opaque value fits `Any` alone.
pub fn fits(v: &Value, kind: &TypeName) -> bool
    ensures { result ≡ is_fit kind.now v.now }
{
    is_fit(kind, v)
}
