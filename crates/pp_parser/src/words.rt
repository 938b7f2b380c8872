//! The tokens that stand for types, numbers and names.
ghost use Rattle.std.specs.Prelude.{◌≡◌, drop};
ghost use Rattle.std.specs.Option.{option_map};
ghost use Rattle.pp_syntax.specs.Lexing.{lexemes_of};
ghost use Rattle.pp_readers.specs.Parsed.{Gives, Reads, Sees};
ghost use Rattle.pp_readers.specs.Names.{taken};
ghost use Rattle.pp_parser.specs.TypeReading.{type_word, type_word_by, number_by, quoted_by};
ghost use Rattle.pp_parser.specs.ItemReading.{word_by, begins_type, unopened, has_token};

use pp_expression::{front_of, number, sq, text_of};
use pp_readers::{Misread, Read};
use pp_statement::{Parser, begins};
use pp_syntax::{Kind, Token};
use rh_base::Text;
use std::alloc::Global;

/// The words with which the types of parameters begin.
#[derive(Clone, Copy, Debug, PartialEq, Eq)]
pub enum TypeWord {
    Any,
    Boolean,
    Hash,
    Text,
    Number,
    Array,
    Optional,
    Enum,
    Variant,
}

fn type_word(text: &str) -> Option<TypeWord>
    ensures { result ≡ type_word text.now }
{
    if text == "Any" {
        Some(TypeWord::Any)
    } else if text == "Boolean" {
        Some(TypeWord::Boolean)
    } else if text == "Hash" {
        Some(TypeWord::Hash)
    } else if text == "String" {
        Some(TypeWord::Text)
    } else if text == "Integer" {
        Some(TypeWord::Number)
    } else if text == "Array" {
        Some(TypeWord::Array)
    } else if text == "Optional" {
        Some(TypeWord::Optional)
    } else if text == "Enum" {
        Some(TypeWord::Enum)
    } else if text == "Variant" {
        Some(TypeWord::Variant)
    } else {
        None
    }
}

fn type_word_by(kind: Kind, text: &str) -> Option<TypeWord>
    ensures { result ≡ type_word_by kind text.now }
{
    match kind {
        Kind::Ref => type_word(text),
        _ => None,
    }
}

/// The word of a type at this index.
pub fn type_word_at(tokens: &[Token<'_>], from: usize) -> Option<(TypeWord, usize)>
    ensures { Sees (taken type_word_by) tokens.now from result }
{
    let (token, rest) = front_of(tokens, from)?;
    let word = type_word_by(token.kind, token.text)?;
    Some((word, rest))
}

fn number_by(kind: Kind, text: &str) -> Option<i64>
    ensures { result ≡ number_by kind text.now }
{
    match kind {
        Kind::Int => number(text),
        _ => None,
    }
}

fn number_at(tokens: &[Token<'_>], from: usize) -> Option<(i64, usize)>
    ensures { Sees (taken number_by) tokens.now from result }
{
    let (token, rest) = front_of(tokens, from)?;
    let value = number_by(token.kind, token.text)?;
    Some((value, rest))
}

/// The number at this index.
pub fn bound(tokens: &[Token<'_>], from: usize) -> Read<i64>
    ensures { Reads (taken number_by) tokens.now from result }
{
    number_at(tokens, from).ok_or(Misread::Form(from))
}

fn quoted_by(alloc: Global, index: usize, kind: Kind, text: &str) -> Result<Text, Misread>
    ensures { Gives (λ x. x) result (quoted_by kind text.now) }
{
    match kind {
        Kind::Sq => sq(alloc, index, text),
        _ => Err(Misread::Form(index)),
    }
}

/// The value of the text in single quotes at this index.
pub fn quoted(parser: &Parser<'_>, from: usize) -> Read<Text>
    ensures { Reads (taken quoted_by) parser.now.tokens.now from result }
{
    match front_of(parser.tokens, from) {
        Some((token, rest)) => {
            let value = quoted_by(parser.alloc, from, token.kind, token.text)?;
            Ok((value, rest))
        }
        None => Err(Misread::Form(from)),
    }
}

fn word_by(kind: Kind, text: &str) -> Option<&str>
    ensures { option_map (λ s. s.now) result ≡ word_by kind text.now }
{
    match kind {
        Kind::Word => Some(text),
        _ => None,
    }
}

fn word_at<'a, 't>(tokens: &'a [Token<'t>], from: usize) -> Option<(&'t str, usize)>
    ensures { option_map (λ x. (x.0.now, drop x.1 (lexemes_of tokens.now))) result ≡ taken word_by (drop from (lexemes_of tokens.now)) }
{
    let (token, rest) = front_of(tokens, from)?;
    let name = word_by(token.kind, token.text)?;
    Some((name, rest))
}

/// The WORD at this index.
pub fn word(parser: &Parser<'_>, from: usize) -> Read<Text>
    ensures { Reads (taken word_by) parser.now.tokens.now from result }
{
    match word_at(parser.tokens, from) {
        Some((name, rest)) => {
            let name = text_of(parser.alloc, name)?;
            Ok((name, rest))
        }
        None => Err(Misread::Form(from)),
    }
}

/// No `{` stands at this index.
pub fn unopened(tokens: &[Token<'_>], from: usize) -> bool
    ensures { result ≡ unopened (drop from (lexemes_of tokens.now)) }
{
    !begins(Kind::Sign, "{", tokens, from)
}

/// A token stands at this index.
pub fn has_token(tokens: &[Token<'_>], from: usize) -> bool
    ensures { result ≡ has_token (drop from (lexemes_of tokens.now)) }
{
    match front_of(tokens, from) {
        Some(_) => true,
        None => false,
    }
}

/// The type of a parameter begins at this index.
pub fn begins_type(tokens: &[Token<'_>], from: usize) -> bool
    ensures { result ≡ begins_type (drop from (lexemes_of tokens.now)) }
{
    match front_of(tokens, from) {
        Some((token, _)) => matches!(token.kind, Kind::Ref),
        None => false,
    }
}
