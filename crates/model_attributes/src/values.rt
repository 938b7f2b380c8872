//! Values of attributes.

ghost use Rattle.std.specs.Prelude.{◌≡◌, option_map};
ghost use Rattle.std.specs.List.{list_all};
ghost use Rattle.pp_value.specs.Texts.{begins};
ghost use Rattle.model_semantics.specs.Attributes.{is_text, is_number, is_text_or_number, is_list_of, text_truth, truth_of, is_false, is_true_itself, is_digit};
ghost use Rattle.model_semantics.specs.Names.{text_at};

use pp_value::{Pairs, Value};
use rh_base::Text;

/// The text of an attribute, if it is there and a text.
pub fn text_at<'p>(attrs: &'p Pairs, name: &str) -> Option<&'p Text>
    ensures { option_map (λ t. t.now) result ≡ text_at name.now attrs.now }
{
    match attrs.find(name) {
        Some(Value::Str(text)) => Some(text),
        _ => None,
    }
}

/// Whether a value is a text.
pub fn is_text(x: &Value) -> bool
    ensures { result ≡ is_text x.now }
{
    matches!(x, Value::Str(_))
}

fn is_number(x: &Value) -> bool
    ensures { result ≡ is_number x.now }
{
    matches!(x, Value::Int(_))
}

/// Whether a value is a text or a number.
pub fn is_text_or_number(x: &Value) -> bool
    ensures { result ≡ is_text_or_number x.now }
{
    let text = is_text(x);
    let number = is_number(x);
    text || number
}

fn all_texts(items: &[Value]) -> bool
    ensures { result ≡ list_all is_text items.now }
{
    for item in items {
        if !is_text(item) {
            return false;
        }
    }
    true
}

fn all_times(items: &[Value]) -> bool
    ensures { result ≡ list_all is_text_or_number items.now }
{
    for item in items {
        if !is_text_or_number(item) {
            return false;
        }
    }
    true
}

/// Whether a value is a list of texts alone.
pub fn is_list_of_texts(x: &Value) -> bool
    ensures { result ≡ is_list_of is_text x.now }
{
    match x {
        Value::List(items) => all_texts(items.as_slice()),
        _ => false,
    }
}

/// Whether a value is a list of texts and numbers alone.
pub fn is_list_of_times(x: &Value) -> bool
    ensures { result ≡ is_list_of is_text_or_number x.now }
{
    match x {
        Value::List(items) => all_times(items.as_slice()),
        _ => false,
    }
}

fn text_truth(text: &str) -> Option<bool>
    ensures { result ≡ text_truth text.now }
{
    if text == "true" {
        Some(true)
    } else if text == "false" {
        Some(false)
    } else {
        None
    }
}

/// The truth value that a value is, or of which it is the text.
pub fn truth_of(x: &Value) -> Option<bool>
    ensures { result ≡ truth_of x.now }
{
    match x {
        Value::Bool(b) => Some(*b),
        Value::Str(text) => text_truth(text.as_str()),
        _ => None,
    }
}

/// Whether a truth value is there, and is false.
pub fn is_false(truth: Option<bool>) -> bool
    ensures { result ≡ is_false truth }
{
    match truth {
        Some(b) => !b,
        None => false,
    }
}

/// Whether a value is the truth value true, not its text.
pub fn is_true_itself(x: &Value) -> bool
    ensures { result ≡ is_true_itself x.now }
{
    match x {
        Value::Bool(b) => *b,
        _ => false,
    }
}

/// Whether a byte is a decimal digit.
pub fn is_digit(b: u8) -> bool
    ensures { result ≡ is_digit b }
{
    b.is_ascii_digit()
}

/// Whether a text begins with another.
pub fn begins(front: &[u8], text: &[u8]) -> bool
    ensures { result ≡ begins front.now text.now }
{
    let mut front = front;
    let mut rest = text;
    while let Some((x, front_more)) = front.split_first() {
        let Some((y, rest_more)) = rest.split_first() else {
            return false;
        };
        if x != y {
            return false;
        }
        front = front_more;
        rest = rest_more;
    }
    true
}
