//! The token at the front of a text outside of double quotes.
ghost use Rattle.std.specs.Prelude.{◌≡◌, ◌≤◌, length};
ghost use Rattle.std.specs.Option.{option_map};
ghost use Rattle.pp_syntax.specs.Scanning.{word_found, joined, of_kind, scoped, after_colons, scoped_or_sign, code_token, opens_comment, no_name_first, number_stands};

use crate::lexer::bytes::{Style, front_of, is_digit, is_name, is_upper};
use crate::lexer::names::{after_colons, joined, name};
use crate::lexer::numbers::{int_value, number};
use crate::lexer::quoted::after_sq;
use crate::lexer::signs::{sign, word_kind};
use crate::token::Kind;

#[tactic(auto, using(crate::proofs::Names::joined_short))]
fn word(text: &[u8]) -> Option<(Kind, &[u8])>
    ensures { option_map (λ x. (x.0, x.1.now)) result ≡ word_found text.now (joined Style.Word text.now) }
{
    let rest = joined(Style::Word, text)?;
    Some((word_kind(front_of(text, rest)), rest))
}

/// A name behind `::`.
fn scoped(text: &[u8]) -> Option<(Kind, &[u8])>
    ensures { option_map (λ x. (x.0, x.1.now)) result ≡ scoped (after_colons text.now) }
{
    let behind = after_colons(text)?;
    if let Some(rest) = joined(Style::Word, behind) {
        return Some((Kind::Word, rest));
    }
    Some((Kind::Ref, joined(Style::Ref, behind)?))
}

fn scoped_or_sign(text: &[u8]) -> Option<(Kind, &[u8])>
    ensures { option_map (λ x. (x.0, x.1.now)) result ≡ scoped_or_sign text.now }
{
    if let Some(found) = scoped(text) {
        return Some(found);
    }
    sign(text)
}

/// The token at the front of a text outside of double quotes.
#[tactic(auto, unfolding(crate::specs::Scanning::code_token))]
pub fn code_token(text: &[u8]) -> Option<(Kind, &[u8])>
    ensures { option_map (λ x. (x.0, x.1.now)) result ≡ code_token text.now }
{
    let (b, more) = text.split_first()?;
    if Style::Word.begins(*b) {
        return word(text);
    }
    if is_upper(*b) {
        return Some((Kind::Ref, joined(Style::Ref, text)?));
    }
    if *b == b'$' {
        return Some((Kind::Var, name(Style::Var, more)?));
    }
    if is_digit(*b) {
        return number(text);
    }
    if *b == b'\'' {
        return Some((Kind::Sq, after_sq(more)?));
    }
    if *b == b'"' {
        return Some((Kind::DqOpen, more));
    }
    scoped_or_sign(text)
}

/// A `/*` stands in front.
pub fn opens_comment(text: &[u8]) -> bool
    ensures { result ≡ opens_comment text.now }
{
    match text {
        [b, c, ..] => *b == b'/' && *c == b'*',
        _ => false,
    }
}

fn no_name_first(text: &[u8]) -> bool
    ensures { result ≡ no_name_first text.now }
{
    match text {
        [b, ..] => !is_name(*b),
        [] => true,
    }
}

/// A number fits, and no letter, digit or `_` follows it.
#[tactic(auto, using(crate::proofs::Values::fits_not, crate::proofs::Values::fits))]
pub fn number_stands(kind: Kind, text: &[u8], rest: &[u8]) -> bool
    ensures { result ≡ number_stands kind text.now rest.now }
{
    match kind {
        Kind::Int => {
            let fits = int_value(text).is_some();
            let alone = no_name_first(rest);
            fits && alone
        }
        Kind::Float => no_name_first(rest),
        _ => true,
    }
}
