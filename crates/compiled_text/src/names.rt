//! Types, and references to resources.

ghost use Rattle.std.specs.Prelude.{◌≡◌, ◌^◌, ◌<◌, option_map};
ghost use Rattle.rh_base.specs.Reading.{Gives};
ghost use Rattle.compiled_text.specs.Names.{is_word_byte};
ghost use Rattle.compiled_text.specs.Reading.{spot_behind, may_end, is_type, around_bracket, before_bracket, named, reference_of};

use pp_eval::ref_of;
use pp_value::Ref;
use rh_base::Misread;
use std::alloc::Global;

/// Where a byte of a type stands.
#[derive(Clone, Copy, Debug, PartialEq, Eq)]
enum Spot {
    /// where a segment begins
    Beginning,
    /// behind a byte of a segment
    Within,
    /// between the two colons that join segments
    BetweenColons,
}

/// Whether a byte is an ASCII letter, a digit or `_`.
fn is_word_byte(byte: u8) -> bool
    ensures { result ≡ is_word_byte byte }
{
    let is_letter = byte.is_ascii_alphanumeric();
    let is_underscore = byte == b'_';
    is_letter || is_underscore
}

/// Where the next byte of a type stands, if this one may stand there.
fn spot_behind(spot: Spot, byte: u8) -> Option<Spot>
    ensures { result ≡ spot_behind spot byte }
{
    match spot {
        Spot::Beginning => {
            if byte.is_ascii_alphabetic() {
                Some(Spot::Within)
            } else {
                None
            }
        }
        Spot::Within => {
            if is_word_byte(byte) {
                Some(Spot::Within)
            } else if byte == b':' {
                Some(Spot::BetweenColons)
            } else {
                None
            }
        }
        Spot::BetweenColons => {
            if byte == b':' {
                Some(Spot::Beginning)
            } else {
                None
            }
        }
    }
}

/// Whether a type may end there.
fn may_end(spot: Spot) -> bool
    ensures { result ≡ may_end spot }
{
    match spot {
        Spot::Within => true,
        Spot::Beginning | Spot::BetweenColons => false,
    }
}

/// Whether a text is a type: segments joined by `::`, each a letter and then letters, digits and `_`.
pub fn is_type(text: &str) -> bool
    ensures { result ≡ is_type text.now }
{
    let mut spot = Spot::Beginning;
    for byte in text.as_bytes() {
        let Some(next) = spot_behind(spot, *byte) else {
            return false;
        };
        spot = next;
    }
    may_end(spot)
}

/// What stands before the first `[`, and behind it.
fn around_bracket(text: &str) -> Option<(&str, &str)>
    ensures { option_map (λ x. (x.0.now, x.1.now)) result ≡ around_bracket text.now }
{
    text.split_once('[')
}

/// What stands before a `]` at the end.
fn before_bracket(text: &str) -> Option<&str>
    ensures { option_map (λ x. x.now) result ≡ before_bracket text.now }
{
    text.strip_suffix(']')
}

/// The reference of a type and a title as they are spelled.
fn named(alloc: Global, type_text: &str, title_text: &str) -> Result<Ref, Misread>
    ensures { Gives (λ r. r) result (named type_text.now title_text.now) }
{
    let is_type = is_type(type_text);
    let is_empty = title_text.is_empty();
    if !is_type || is_empty {
        return Err(Misread::Form);
    }
    Ok(ref_of(alloc, type_text, title_text)?)
}

/// The reference that a text is.
pub fn reference_of(alloc: Global, text: &str) -> Result<Ref, Misread>
    ensures { Gives (λ r. r) result (reference_of text.now) }
{
    let Some((type_text, rest)) = around_bracket(text) else {
        return Err(Misread::Form);
    };
    let Some(title_text) = before_bracket(rest) else {
        return Err(Misread::Form);
    };
    named(alloc, type_text, title_text)
}
