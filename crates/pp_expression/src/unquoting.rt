//! The values of texts in double quotes.
ghost use Rattle.std.specs.Prelude.{◌≡◌, ◌<◌, ◌≤◌, ◌∷◌, ◌++◌, false, true, length, IfSome, OnOk, MatchOption, string_bytes, encode_utf8};
ghost use Rattle.std.specs.Option.{option_map};
ghost use Rattle.pp_syntax.specs.Bytes.{is_hex};
ghost use Rattle.pp_syntax.specs.Tokens.{is_simple_escape, is_scalar};
ghost use Rattle.pp_syntax.specs.TokenValues.{simple_value};
ghost use Rattle.pp_readers.specs.Parsed.{Gives};
ghost use Rattle.pp_readers.specs.Values.{GivesChar, NoAsciiFirst, hex_front, simple_front, dq, dq_escaped, dq_unicode, dq_four, dq_braced};

use crate::values::{behind, cut};
use pp_readers::Misread;
use pp_syntax::{digit_of, is_hex, is_simple_escape};
use rh_base::{NoMemory, Text};
use std::alloc::Global;

fn simple_value(c: u8) -> u8
    ensures { result ≡ simple_value c }
{
    match c {
        b'n' => b'\n',
        b'r' => b'\r',
        b't' => b'\t',
        b's' => b' ',
        _ => c,
    }
}

/// The character of this number.
fn scalar(n: u32) -> Option<char>
    ensures { MatchOption result (is_scalar n ≡ false) (λ c. (is_scalar n ≡ true) × (c ≡ n)) }
{
    char::from_u32(n)
}

/// The first byte, if it is an ASCII character, and what is left behind it.
fn first(text: &str) -> Option<(u8, &str)>
    ensures { MatchOption result (NoAsciiFirst text.now) (λ x. (text.now ≡ x.0 ∷ x.1.now) × (x.0 < 128)) }
{
    let b = *text.as_bytes().first()?;
    if b >= 128 {
        return None;
    }
    let rest = behind(text, char::from(b))?;
    Some((b, rest))
}

/// The value of the hexadecimal digit at the front, and what is left behind it.
#[tactic(auto, using(pp_readers::proofs::Digits::hex_here, pp_readers::proofs::Digits::hex_nowhere))]
fn hex_digit(text: &str) -> Option<(u32, &str)>
    ensures { option_map (λ x. (x.0, x.1.now)) result ≡ hex_front text.now }
{
    let (b, rest) = first(text)?;
    if is_hex(b) {
        Some((u32::from(digit_of(b)), rest))
    } else {
        None
    }
}

/// The character of a simple escape, and what is left behind it.
#[tactic(auto, using(pp_readers::proofs::Digits::simple_here, pp_readers::proofs::Digits::simple_nowhere))]
fn simple(text: &str) -> Option<(char, &str)>
    ensures { option_map (λ x. (x.0, x.1.now)) result ≡ simple_front text.now }
{
    let (c, rest) = first(text)?;
    if is_simple_escape(c) {
        Some((char::from(simple_value(c)), rest))
    } else {
        None
    }
}

/// The character that four digits stand for, of which some are read.
#[tactic(auto, using(pp_readers::proofs::Digits::four_none, pp_readers::proofs::Digits::four_last, pp_readers::proofs::Digits::four_bad, pp_readers::proofs::Digits::four_next, pp_readers::proofs::Digits::four_large, pp_readers::proofs::Digits::hex_shorter, pp_readers::proofs::Digits::hex_small))]
fn four(count: u32, value: u32, text: &str) -> Option<(char, &str)>
    requires few { count ≤ 3 }
    requires small { value < 1114112 }
    ensures value { GivesChar (option_map (λ x. (x.0, x.1.now)) result) (dq_four count value text.now) }
    ensures shorter { IfSome result (λ x. length x.1.now < length text.now) }
{
    let (digit, rest) = hex_digit(text)?;
    let next = value * 16 + digit;
    if count == 3 {
        let c = scalar(next)?;
        return Some((c, rest));
    }
    if next > 1114111 {
        return None;
    }
    four(count + 1, next, rest)
}

/// The character that digits up to a `}` stand for, of which some are read.
#[tactic(auto, using(pp_readers::proofs::Digits::braced_none, pp_readers::proofs::Digits::braced_empty, pp_readers::proofs::Digits::braced_last, pp_readers::proofs::Digits::braced_bad, pp_readers::proofs::Digits::braced_seven, pp_readers::proofs::Digits::braced_next, pp_readers::proofs::Digits::braced_large, pp_readers::proofs::Digits::hex_shorter, pp_readers::proofs::Digits::hex_small, pp_readers::proofs::Digits::behind_shorter))]
fn braced(count: u32, value: u32, text: &str) -> Option<(char, &str)>
    requires few { count ≤ 6 }
    requires small { value < 1114112 }
    ensures value { GivesChar (option_map (λ x. (x.0, x.1.now)) result) (dq_braced count value text.now) }
    ensures shorter { IfSome result (λ x. length x.1.now < length text.now) }
{
    if let Some(rest) = behind(text, '}') {
        if count == 0 {
            return None;
        }
        let c = scalar(value)?;
        return Some((c, rest));
    }
    let (digit, rest) = hex_digit(text)?;
    let next = value * 16 + digit;
    if count == 6 {
        return None;
    }
    if next > 1114111 {
        return None;
    }
    braced(count + 1, next, rest)
}

/// The character that `\u` before this text stands for.
#[tactic(auto, using(pp_readers::proofs::Digits::unicode_brace, pp_readers::proofs::Digits::unicode_none, pp_readers::proofs::Digits::unicode_digit, pp_readers::proofs::Digits::hex_shorter, pp_readers::proofs::Digits::hex_small, pp_readers::proofs::Digits::behind_shorter))]
fn unicode(text: &str) -> Option<(char, &str)>
    ensures value { GivesChar (option_map (λ x. (x.0, x.1.now)) result) (dq_unicode text.now) }
    ensures shorter { IfSome result (λ x. length x.1.now < length text.now) }
{
    if let Some(rest) = behind(text, '{') {
        return braced(0, 0, rest);
    }
    let (digit, rest) = hex_digit(text)?;
    four(1, digit, rest)
}

/// The character that a backslash before this text stands for, and what is left.
#[tactic(auto, using(pp_readers::proofs::Digits::escape_simple, pp_readers::proofs::Digits::escape_unicode, pp_readers::proofs::Digits::escape_none, pp_readers::proofs::Digits::simple_shorter, pp_readers::proofs::Digits::behind_shorter))]
fn escape(text: &str) -> Option<(char, &str)>
    ensures value { GivesChar (option_map (λ x. (x.0, x.1.now)) result) (dq_escaped text.now) }
    ensures shorter { IfSome result (λ x. length x.1.now ≤ length text.now) }
{
    if let Some((c, rest)) = simple(text) {
        return Some((c, rest));
    }
    if let Some(rest) = behind(text, 'u') {
        return unicode(rest);
    }
    Some(('\\', text))
}

#[tactic(auto, using(pp_readers::proofs::Digits::dq_end, pp_readers::proofs::Digits::dq_escape, pp_readers::proofs::Digits::dq_stops))]
fn unescaped(alloc: Global, index: usize, raw: &str) -> Result<String, Misread>
    ensures { Gives (λ s. string_bytes s) result (dq raw.now) }
{
    let mut value = String::new(alloc);
    let mut rest = raw;
    while let Some((front, tail)) = cut(rest) {
        push_str(&mut value, front)?;
        let Some((c, more)) = escape(tail) else {
            return Err(Misread::Form(index));
        };
        push(&mut value, c)?;
        rest = more;
    }
    push_str(&mut value, rest)?;
    Ok(value)
}

fn push_str(value: &mut String, piece: &str) -> Result<(), NoMemory>
    ensures { OnOk result (string_bytes value.new ≡ string_bytes value.old ++ piece.now) }
{
    value.push_str(piece)?;
    Ok(())
}

fn push(value: &mut String, c: char) -> Result<(), NoMemory>
    ensures { OnOk result (string_bytes value.new ≡ string_bytes value.old ++ encode_utf8 c) }
{
    value.push(c)?;
    Ok(())
}

/// The value of text in double quotes.
pub fn dq(alloc: Global, index: usize, raw: &str) -> Result<Text, Misread>
    ensures { Gives (λ t. t) result (dq raw.now) }
{
    let value = unescaped(alloc, index, raw)?;
    Ok(Text::from_string(value))
}
