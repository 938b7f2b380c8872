//! The tokens that stand for names, functions and arrows.
ghost use Rattle.std.specs.Prelude.{◌≡◌, drop, [], ◌∷◌, codes};
ghost use Rattle.std.specs.Option.{option_map};
ghost use Rattle.pp_syntax.specs.Lexing.{lexemes_of};
ghost use Rattle.pp_syntax.specs.Tokens.{is_among};
ghost use Rattle.pp_syntax.specs.Statements.{is_qualified};
ghost use Rattle.pp_readers.specs.Parsed.{Gives, Reads, Sees};
ghost use Rattle.pp_readers.specs.Combining.{begins};
ghost use Rattle.pp_syntax.specs.Statements.{function_of};
ghost use Rattle.pp_readers.specs.Names.{taken, plain_name, name_by, begins_name, plain_variable, variable_by, ref_by, function_by, unless_function, type_by, arrow_by, begins_arrow, begins_bracket};
ghost use Rattle.pp_readers.specs.Statements.{unclosed};

use crate::parser::Parser;
use pp_expression::{front_of, mark, name_of, text_of};
use pp_readers::{Misread, Read};
use pp_syntax::{Arrow, Func, Kind, Token};
use rh_base::Text;
use std::alloc::Global;

fn is_qualified(name: &str) -> bool
    ensures { result ≡ is_qualified name.now }
{
    name.as_bytes().contains(&b':')
}

fn plain_name(name: &str) -> Option<&str>
    ensures { option_map (λ s. s.now) result ≡ plain_name name.now }
{
    if is_qualified(name) { None } else { Some(name) }
}

fn name_by(kind: Kind, text: &str) -> Option<&str>
    ensures { option_map (λ s. s.now) result ≡ name_by kind text.now }
{
    match kind {
        Kind::Word => plain_name(text),
        Kind::Keyword => Some(text),
        _ => None,
    }
}

fn name_at<'a, 't>(tokens: &'a [Token<'t>], from: usize) -> Option<(&'t str, usize)>
    ensures { option_map (λ x. (x.0.now, drop x.1 (lexemes_of tokens.now))) result ≡ taken name_by (drop from (lexemes_of tokens.now)) }
{
    let (token, rest) = front_of(tokens, from)?;
    let name = name_by(token.kind, token.text)?;
    Some((name, rest))
}

/// An attribute's name stands at this index.
pub fn begins_name(tokens: &[Token<'_>], from: usize) -> bool
    ensures { result ≡ begins_name (drop from (lexemes_of tokens.now)) }
{
    match name_at(tokens, from) {
        Some(_) => true,
        None => false,
    }
}

/// An attribute's name, and the index behind it.
pub fn name(parser: &Parser<'_>, from: usize) -> Read<Text>
    ensures { Reads (taken name_by) parser.now.tokens.now from result }
{
    match name_at(parser.tokens, from) {
        Some((name, rest)) => {
            let name = text_of(parser.alloc, name)?;
            Ok((name, rest))
        }
        None => Err(Misread::Form(from)),
    }
}

fn ref_by(kind: Kind, text: &str) -> Option<&str>
    ensures { option_map (λ s. s.now) result ≡ ref_by kind text.now }
{
    match kind {
        Kind::Ref => Some(text),
        _ => None,
    }
}

fn ref_at<'a, 't>(tokens: &'a [Token<'t>], from: usize) -> Option<(&'t str, usize)>
    ensures { option_map (λ x. (x.0.now, drop x.1 (lexemes_of tokens.now))) result ≡ taken ref_by (drop from (lexemes_of tokens.now)) }
{
    let (token, rest) = front_of(tokens, from)?;
    let name = ref_by(token.kind, token.text)?;
    Some((name, rest))
}

/// The name of a kind of resources as references have it.
pub fn ref_name(parser: &Parser<'_>, from: usize) -> Read<Text>
    ensures { Reads (taken ref_by) parser.now.tokens.now from result }
{
    match ref_at(parser.tokens, from) {
        Some((name, rest)) => {
            let name = text_of(parser.alloc, name)?;
            Ok((name, rest))
        }
        None => Err(Misread::Form(from)),
    }
}

fn variable_by(alloc: Global, index: usize, kind: Kind, text: &str) -> Result<Text, Misread>
    ensures { Gives (λ x. x) result (variable_by kind text.now) }
{
    match kind {
        Kind::Var => plain_variable(alloc, index, text),
        _ => Err(Misread::Form(index)),
    }
}

fn plain_variable(alloc: Global, index: usize, text: &str) -> Result<Text, Misread>
    ensures { Gives (λ x. x) result (plain_variable text.now) }
{
    let name = name_of(alloc, index, text)?;
    if is_qualified(name.as_str()) {
        return Err(Misread::Form(index));
    }
    Ok(name)
}

/// A variable's name, without `$`.
pub fn variable(parser: &Parser<'_>, from: usize) -> Read<Text>
    ensures { Reads (taken variable_by) parser.now.tokens.now from result }
{
    match front_of(parser.tokens, from) {
        Some((token, rest)) => {
            let name = variable_by(parser.alloc, from, token.kind, token.text)?;
            Ok((name, rest))
        }
        None => Err(Misread::Form(from)),
    }
}

fn function_by(kind: Kind, text: &str) -> Option<Func>
    ensures { result ≡ function_by kind text.now }
{
    match kind {
        Kind::Word => Func::of(text),
        _ => None,
    }
}

/// The function whose word stands at this index.
pub fn function_at(tokens: &[Token<'_>], from: usize) -> Option<(Func, usize)>
    ensures { Sees (taken function_by) tokens.now from result }
{
    let (token, rest) = front_of(tokens, from)?;
    let func = function_by(token.kind, token.text)?;
    Some((func, rest))
}

fn type_of(text: &str) -> Option<&str>
    ensures { option_map (λ s. s.now) result ≡ unless_function text.now (function_of text.now) }
{
    match Func::of(text) {
        Some(_) => None,
        None => Some(text),
    }
}

fn type_by(kind: Kind, text: &str) -> Option<&str>
    ensures { option_map (λ s. s.now) result ≡ type_by kind text.now }
{
    match kind {
        Kind::Word => type_of(text),
        _ => None,
    }
}

fn type_at<'a, 't>(tokens: &'a [Token<'t>], from: usize) -> Option<(&'t str, usize)>
    ensures { option_map (λ x. (x.0.now, drop x.1 (lexemes_of tokens.now))) result ≡ taken type_by (drop from (lexemes_of tokens.now)) }
{
    let (token, rest) = front_of(tokens, from)?;
    let name = type_by(token.kind, token.text)?;
    Some((name, rest))
}

/// A resource's type.
pub fn type_name(parser: &Parser<'_>, from: usize) -> Read<Text>
    ensures { Reads (taken type_by) parser.now.tokens.now from result }
{
    match type_at(parser.tokens, from) {
        Some((name, rest)) => {
            let name = text_of(parser.alloc, name)?;
            Ok((name, rest))
        }
        None => Err(Misread::Form(from)),
    }
}

fn arrow_by(kind: Kind, text: &str) -> Option<Arrow>
    ensures { result ≡ arrow_by kind text.now }
{
    match kind {
        Kind::Sign => Arrow::of(text),
        _ => None,
    }
}

/// The arrow at this index.
pub fn arrow_at(tokens: &[Token<'_>], from: usize) -> Option<(Arrow, usize)>
    ensures { Sees (taken arrow_by) tokens.now from result }
{
    let (token, rest) = front_of(tokens, from)?;
    let arrow = arrow_by(token.kind, token.text)?;
    Some((arrow, rest))
}

/// An arrow stands at this index.
pub fn begins_arrow(tokens: &[Token<'_>], from: usize) -> bool
    ensures { result ≡ begins_arrow (drop from (lexemes_of tokens.now)) }
{
    match arrow_at(tokens, from) {
        Some(_) => true,
        None => false,
    }
}

/// A token of this kind and text stands at this index.
pub fn begins(kind: Kind, text: &str, tokens: &[Token<'_>], from: usize) -> bool
    ensures { result ≡ begins kind text.now (drop from (lexemes_of tokens.now)) }
{
    match mark(kind, text, tokens, from) {
        Some(_) => true,
        None => false,
    }
}

/// No `}` stands at this index.
pub fn unclosed(tokens: &[Token<'_>], from: usize) -> bool
    ensures { result ≡ unclosed (drop from (lexemes_of tokens.now)) }
{
    !begins(Kind::Sign, "}", tokens, from)
}

fn is_bracket(text: &str) -> bool
    ensures { result ≡ is_among (codes "(" ∷ codes "{" ∷ []) text.now }
{
    let round = "(" == text;
    let brace = "{" == text;
    round || brace
}

/// The token at this index is spelled `(` or `{`.
pub fn begins_bracket(tokens: &[Token<'_>], from: usize) -> bool
    ensures { result ≡ begins_bracket (drop from (lexemes_of tokens.now)) }
{
    match front_of(tokens, from) {
        Some((token, _)) => is_bracket(token.text),
        None => false,
    }
}
