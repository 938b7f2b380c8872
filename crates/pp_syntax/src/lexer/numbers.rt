//! Numbers at the front of a text, and what they stand for.
ghost use Rattle.std.specs.Prelude.{◌≡◌, ◌≤◌, ◌<◌, ◌^◌, MatchOption};
ghost use Rattle.std.specs.Option.{option_map};
ghost use Rattle.pp_syntax.specs.Tokens.{value_from, int_value};
ghost use Rattle.pp_syntax.specs.Scanning.{digits_behind, fraction, hex_behind, after_zero, after_int, number};

use crate::lexer::bytes::{Class, after_all, digit_of, is_digit, is_hex};
use crate::token::Kind;

fn digits_behind(text: &[u8]) -> Option<&[u8]>
    ensures { option_map (λ r. r.now) result ≡ digits_behind text.now }
{
    let (d, more) = text.split_first()?;
    if is_digit(*d) {
        Some(after_all(Class::Digit, more))
    } else {
        None
    }
}

/// What is left behind a dot and digits.
fn fraction(text: &[u8]) -> Option<&[u8]>
    ensures { option_map (λ r. r.now) result ≡ fraction text.now }
{
    match text.split_first() {
        Some((b'.', more)) => digits_behind(more),
        _ => None,
    }
}

fn hex_behind(text: &[u8]) -> Option<&[u8]>
    ensures { option_map (λ r. r.now) result ≡ hex_behind text.now }
{
    let (d, more) = text.split_first()?;
    if is_hex(*d) {
        Some(after_all(Class::Hex, more))
    } else {
        None
    }
}

fn after_zero(text: &[u8]) -> &[u8]
    ensures { result.now ≡ after_zero text.now }
{
    let Some((x, more)) = text.split_first() else {
        return text;
    };
    if *x == b'x' || *x == b'X' {
        hex_behind(more).unwrap_or(text)
    } else {
        after_all(Class::Octal, text)
    }
}

fn after_int(text: &[u8]) -> &[u8]
    ensures { result.now ≡ after_int text.now }
{
    match text {
        [b, more @ ..] if *b == b'0' => after_zero(more),
        [_, more @ ..] => after_all(Class::Digit, more),
        [] => text,
    }
}

/// The number at the front of a text that begins with a digit.
#[tactic(auto, unfolding(crate::specs::Scanning::number))]
pub fn number(text: &[u8]) -> Option<(Kind, &[u8])>
    ensures { option_map (λ x. (x.0, x.1.now)) result ≡ number text.now }
{
    match fraction(after_all(Class::Digit, text)) {
        Some(rest) => Some((Kind::Float, rest)),
        None => Some((Kind::Int, after_int(text))),
    }
}

/// The number that digits stand for, if it fits 64 bits with a sign.
#[tactic(auto, using(crate::proofs::Values::value_grows))]
pub fn value_in(base: u8, digits: &[u8]) -> Option<u64>
    requires least { 8 ≤ base }
    requires most { base ≤ 16 }
    ensures { MatchOption result (2 ^ 63 ≤ value_from base 0 digits.now) (λ v. (v ≡ value_from base 0 digits.now) × (v < 2 ^ 63)) }
{
    let mut value = 0u64;
    for d in digits {
        let next = u128::from(value) * u128::from(base) + u128::from(digit_of(*d));
        if next >= 0x8000_0000_0000_0000 {
            return None;
        }
        value = next as u64;
    }
    Some(value)
}

/// The number that an INT stands for, if it fits 64 bits with a sign.
pub fn int_value(text: &[u8]) -> Option<u64>
    ensures { MatchOption result (2 ^ 63 ≤ int_value text.now) (λ v. (v ≡ int_value text.now) × (v < 2 ^ 63)) }
{
    match text {
        [] => Some(0),
        [b'0'] => Some(0),
        [b'0', x, digits @ ..] if *x == b'x' || *x == b'X' => value_in(16, digits),
        [b'0', digits @ ..] => value_in(8, digits),
        [_, ..] => value_in(10, text),
    }
}
