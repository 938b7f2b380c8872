//! What the text gives for a resource's attributes.

ghost use Rattle.std.specs.Prelude.{◌≡◌, option_map};
ghost use Rattle.std.specs.List.{list_all};
ghost use Rattle.pp_value.specs.Values.{is_undef, on_text};
ghost use Rattle.model_semantics.specs.Attributes.{is_false, is_address};
ghost use Rattle.compiled_attributes.specs.Given.{given_value, gives, is_so, is_true, is_untrue, says, says_from, is_untold, are_some_addresses, are_addresses};

use model_attributes::{begins, truth_of};
use pp_value::{Pairs, Value, has_opaque};

/// Whether a value is undef.
pub fn is_undef(x: &Value) -> bool
    ensures { result ≡ is_undef x.now }
{
    matches!(x, Value::Undef)
}

/// The value that is given for an attribute; undef counts as not given.
pub fn given<'p>(ps: &'p Pairs, name: &str) -> Option<&'p Value>
    ensures { option_map (λ x. x.now) result ≡ given_value name.now ps.now }
{
    let x = ps.find(name)?;
    if is_undef(x) {
        return None;
    }
    Some(x)
}

/// Whether an attribute is given.
pub fn gives(ps: &Pairs, name: &str) -> bool
    ensures { result ≡ gives name.now ps.now }
{
    given(ps, name).is_some()
}

/// Whether a truth value is there, and is true.
fn is_so(truth: Option<bool>) -> bool
    ensures { result ≡ is_so truth }
{
    match truth {
        Some(b) => b,
        None => false,
    }
}

/// Whether a truth value is there, and is false.
fn is_false(truth: Option<bool>) -> bool
    ensures { result ≡ is_false truth }
{
    match truth {
        Some(b) => !b,
        None => false,
    }
}

/// Whether an attribute is true, or the text of it.
pub fn is_true(ps: &Pairs, name: &str) -> bool
    ensures { result ≡ is_true name.now ps.now }
{
    match ps.find(name) {
        Some(x) => is_so(truth_of(x)),
        None => false,
    }
}

/// Whether an attribute is false, or the text of it.
pub fn is_untrue(ps: &Pairs, name: &str) -> bool
    ensures { result ≡ is_untrue name.now ps.now }
{
    match ps.find(name) {
        Some(x) => is_false(truth_of(x)),
        None => false,
    }
}

/// Whether an attribute is this text.
pub fn says(ps: &Pairs, name: &str, word: &str) -> bool
    ensures { result ≡ says word.now name.now ps.now }
{
    match ps.find(name) {
        Some(Value::Str(text)) => text.as_str() == word,
        _ => false,
    }
}

/// Whether an attribute is a text that begins with this one.
pub fn says_from(ps: &Pairs, name: &str, front: &str) -> bool
    ensures { result ≡ says_from front.now name.now ps.now }
{
    match ps.find(name) {
        Some(Value::Str(text)) => begins(front.as_bytes(), text.as_str().as_bytes()),
        _ => false,
    }
}

/// Whether an opaque value stands anywhere in an attribute.
pub fn is_untold(ps: &Pairs, name: &str) -> bool
    ensures { result ≡ is_untold name.now ps.now }
{
    match ps.find(name) {
        Some(x) => has_opaque(x),
        None => false,
    }
}

/// Whether a text begins as the address of a server does.
fn is_address(text: &str) -> bool
    ensures { result ≡ is_address text.now }
{
    let text = text.as_bytes();
    let mounted = begins(b"puppet:", text);
    let plain = begins(b"http:", text);
    let secure = begins(b"https:", text);
    mounted || (plain || secure)
}

fn is_address_text(x: &Value) -> bool
    ensures { result ≡ on_text is_address x.now }
{
    match x {
        Value::Str(text) => is_address(text.as_str()),
        _ => false,
    }
}

fn all_addresses(items: &[Value]) -> bool
    ensures { result ≡ list_all (on_text is_address) items.now }
{
    for item in items {
        if !is_address_text(item) {
            return false;
        }
    }
    true
}

fn are_some_addresses(items: &[Value]) -> bool
    ensures { result ≡ are_some_addresses items.now }
{
    if items.is_empty() {
        return false;
    }
    all_addresses(items)
}

/// Whether a value is a list of addresses, at least one.
pub fn are_addresses(x: &Value) -> bool
    ensures { result ≡ are_addresses x.now }
{
    match x {
        Value::List(items) => are_some_addresses(items.as_slice()),
        _ => false,
    }
}
