//! Texts in quotes.
ghost use Rattle.std.specs.Prelude.{◌≡◌, ◌≤◌, IfSome, length};
ghost use Rattle.std.specs.Option.{option_map};
ghost use Rattle.pp_syntax.specs.Tokens.{is_simple_escape, is_scalar, hex_value};
ghost use Rattle.pp_syntax.specs.Scanning.{after_sq, after_sq_escape, braced_len, four_len, unicode_len, escape_len, opens, unit_len, text_from, piece, hole, dollar, quoted_token};

use crate::lexer::bytes::{Class, Style, after_all, begins_with, front_of, is_hex};
use crate::lexer::names::name;
use crate::lexer::numbers::value_in;
use crate::token::Kind;

/// What is left behind a text in single quotes, of which the opening quote is read.
pub fn after_sq(text: &[u8]) -> Option<&[u8]>
    ensures { option_map (λ r. r.now) result ≡ after_sq text.now }
{
    let mut rest = text;
    loop {
        match rest {
            [] => return None,
            [b'\'', more @ ..] => return Some(more),
            [b'\\'] => return None,
            [b'\\', _, more @ ..] => rest = more,
            [_, more @ ..] => rest = more,
        }
    }
}

/// The byte behind a backslash makes an escape of two bytes.
pub fn is_simple_escape(c: u8) -> bool
    ensures { result ≡ is_simple_escape c }
{
    b"nrts$\"'\\".contains(&c)
}

fn is_scalar(n: u64) -> bool
    ensures { result ≡ is_scalar n }
{
    n <= 55295 || (n >= 57344 && n <= 1114111)
}

/// Hexadecimal digits make a Unicode scalar value.
#[tactic(auto, using(crate::proofs::Values::too_large))]
fn are_scalar(digits: &[u8]) -> bool
    ensures { result ≡ is_scalar (hex_value digits.now) }
{
    match value_in(16, digits) {
        Some(value) => is_scalar(value),
        None => false,
    }
}

/// The digits of `\u{` and the `}`: how many bytes they take.
#[tactic(auto, unfolding(crate::specs::Scanning::braced_len), using(crate::proofs::Fronts::after_all_short))]
fn braced_len(text: &[u8]) -> Option<usize>
    ensures found { result ≡ braced_len text.now }
    ensures short { IfSome result (λ n. n ≤ 7) }
{
    let rest = after_all(Class::Hex, text);
    let digits = front_of(text, rest);
    let count = digits.len();
    let fits = count > 0 && count <= 6;
    let closed = begins_with(rest, b'}');
    let scalar = are_scalar(digits);
    if fits && closed && scalar {
        Some(count + 1)
    } else {
        None
    }
}

#[tactic(auto, unfolding(crate::specs::Scanning::four_len))]
fn four_len(text: &[u8]) -> Option<usize>
    ensures { result ≡ four_len text.now }
{
    match text {
        [a, b, c, d, ..] => {
            let first = is_hex(*a) && is_hex(*b);
            let second = is_hex(*c) && is_hex(*d);
            let scalar = are_scalar(&[*a, *b, *c, *d]);
            if first && second && scalar {
                Some(5)
            } else {
                None
            }
        }
        _ => None,
    }
}

fn unicode_len(text: &[u8]) -> Option<usize>
    ensures { result ≡ unicode_len text.now }
{
    match text {
        [] => None,
        [b'{', more @ ..] => Some(braced_len(more)? + 2),
        [_, ..] => four_len(text),
    }
}

/// How many bytes behind a backslash belong to its escape. `None` is a `\u` in another form.
fn escape_len(text: &[u8]) -> Option<usize>
    ensures { result ≡ escape_len text.now }
{
    match text {
        [] => Some(0),
        [b'u', more @ ..] => unicode_len(more),
        [c, ..] => {
            if is_simple_escape(*c) {
                Some(1)
            } else {
                Some(0)
            }
        }
    }
}

/// The text behind a `$` makes a variable or opens an expression.
#[tactic(auto, unfolding(crate::specs::Scanning::opens))]
fn opens(text: &[u8]) -> bool
    ensures { result ≡ opens text.now }
{
    let brace = begins_with(text, b'{');
    let named = name(Style::Var, text).is_some();
    brace || named
}

/// How many bytes behind this one belong to the same escape. `None`: the text ends before it.
#[tactic(auto, unfolding(crate::specs::Scanning::unit_len), using(crate::proofs::Escapes::escape_short))]
fn unit_len(b: u8, text: &[u8]) -> Option<usize>
    ensures found { result ≡ unit_len b text.now }
    ensures short { IfSome result (λ n. n ≤ length text.now) }
{
    match b {
        b'"' => None,
        b'$' => { if opens(text) { None } else { Some(0) } }
        b'\\' => escape_len(text),
        _ => Some(0),
    }
}

/// What is left behind text in double quotes.
#[tactic(auto, using(crate::proofs::Fronts::past_one, crate::proofs::Fronts::stays))]
fn after_text(text: &[u8]) -> &[u8]
    ensures { result.now ≡ text_from 0 text.now }
{
    let mut rest = text;
    while let Some((b, more)) = rest.split_first() {
        let Some(n) = unit_len(*b, more) else {
            break;
        };
        rest = more.split_at(n).1;
    }
    rest
}

#[tactic(auto, unfolding(crate::specs::Scanning::piece))]
fn piece(text: &[u8]) -> Option<(Kind, &[u8])>
    ensures { option_map (λ x. (x.0, x.1.now)) result ≡ piece text.now }
{
    let rest = after_text(text);
    if rest.len() < text.len() {
        Some((Kind::DqText, rest))
    } else {
        None
    }
}

fn hole(text: &[u8]) -> Option<&[u8]>
    ensures { option_map (λ r. r.now) result ≡ hole text.now }
{
    match text {
        [b'{', more @ ..] => Some(more),
        _ => None,
    }
}

/// The token at the front of a text in double quotes.
#[tactic(auto, unfolding(crate::specs::Scanning::quoted_token, crate::specs::Scanning::dollar))]
pub fn quoted_token(text: &[u8]) -> Option<(Kind, &[u8])>
    ensures { option_map (λ x. (x.0, x.1.now)) result ≡ quoted_token text.now }
{
    match text {
        [] => None,
        [b'"', more @ ..] => Some((Kind::DqClose, more)),
        [b'$', more @ ..] => {
            if let Some(rest) = hole(more) {
                return Some((Kind::Hole, rest));
            }
            if let Some(rest) = name(Style::Var, more) {
                return Some((Kind::DqVar, rest));
            }
            piece(text)
        }
        [_, ..] => piece(text),
    }
}
