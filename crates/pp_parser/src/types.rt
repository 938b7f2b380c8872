//! The parser of the types of parameters.
ghost use Rattle.std.specs.Prelude.{◌≡◌, IfOk, Some};
ghost use Rattle.pp_readers.specs.Parsed.{Reads};
ghost use Rattle.pp_syntax.specs.declared.tree.TypeName.TheVariants as type;
ghost use Rattle.pp_parser.specs.TypeReading.{upper_with, bounds_with, maybe_bounds, text_type, number_type, member_with, maybe_member, members_in, members_with, texts_in, texts_with, shaped, type_by, type_with, type_at};

use crate::words::{TypeWord, bound, quoted, type_word_at};
use pp_expression::{expect, mark, separator, turns};
use pp_readers::{Misread, Read};
use pp_statement::{Parser, begins};
use pp_syntax::{Kind, Token, TypeName};
use rh_base::{Boxed, NoMemory, Seq, Text};
use std::alloc::Global;

/// The upper bound behind a comma, if there is one.
fn upper(tokens: &[Token<'_>], from: usize) -> Read<Option<i64>>
    ensures { Reads upper_with tokens.now from result }
{
    let Some((_, behind)) = mark(Kind::Sign, ",", tokens, from) else {
        return Ok((None, from));
    };
    let (value, rest) = bound(tokens, behind)?;
    Ok((Some(value), rest))
}

/// One or two bounds, and the bracket that closes them.
fn bounds(tokens: &[Token<'_>], from: usize) -> Read<(i64, Option<i64>)>
    ensures { Reads bounds_with tokens.now from result }
{
    let (least, rest) = bound(tokens, from)?;
    let (most, rest) = upper(tokens, rest)?;
    let (_, rest) = expect(Kind::Sign, "]", tokens, rest)?;
    Ok(((least, most), rest))
}

fn some_bounds(tokens: &[Token<'_>], from: usize) -> Read<Option<(i64, Option<i64>)>>
    ensures { Reads maybe_bounds tokens.now from result }
{
    let Some((_, behind)) = mark(Kind::Tight, "[", tokens, from) else {
        return Ok((None, from));
    };
    let (found, rest) = bounds(tokens, behind)?;
    Ok((Some(found), rest))
}

fn text_type(bounds: Option<(i64, Option<i64>)>) -> TypeName
    ensures { result ≡ text_type bounds }
{
    match bounds {
        Some((least, most)) => TypeName::Str { least, most },
        None => TypeName::Str {
            least: 0,
            most: None,
        },
    }
}

fn number_type(bounds: Option<(i64, Option<i64>)>) -> TypeName
    ensures { result ≡ number_type bounds }
{
    match bounds {
        Some((least, most)) => TypeName::Int {
            least: Some(least),
            most,
        },
        None => TypeName::Int {
            least: None,
            most: None,
        },
    }
}

/// Texts in single quotes with commas between them, and the bracket that closes them.
fn texts(parser: &Parser<'_>, from: usize) -> Read<Seq<Text>>
    ensures { Reads texts_in parser.now.tokens.now from result }
{
    let mut found = Seq::new(parser.alloc);
    let mut rest = from;
    for _turn in 0..turns(parser.tokens, from) {
        let (item, more) = quoted(parser, rest)?;
        found.push(item)?;
        let (ends, more) = separator("]", parser.tokens, more)?;
        if ends {
            return Ok((found, more));
        }
        rest = more;
    }
    Err(Misread::Form(rest))
}

fn enumerated(parser: &Parser<'_>, from: usize) -> Read<Seq<Text>>
    ensures { Reads texts_with parser.now.tokens.now from result }
{
    let (_, rest) = expect(Kind::Tight, "[", parser.tokens, from)?;
    texts(parser, rest)
}

/// A type, with brackets nested less deep than this.
#[cycle(types)]
pub fn type_at(parser: &Parser<'_>, depth: usize, from: usize) -> Read<TypeName>
    ensures { Reads (type_at depth) parser.now.tokens.now from result }
{
    if depth == 0 {
        return Err(Misread::Form(from));
    }
    any_type(parser, depth - 1, from)
}

#[cycle(types)]
fn any_type(parser: &Parser<'_>, depth: usize, from: usize) -> Read<TypeName>
    ensures { Reads (type_with (type_at depth)) parser.now.tokens.now from result }
{
    match type_word_at(parser.tokens, from) {
        Some((word, rest)) => type_behind(parser, depth, word, rest),
        None => Err(Misread::Form(from)),
    }
}

/// The type that begins with this word, of which this index is behind.
#[cycle(types)]
fn type_behind(parser: &Parser<'_>, depth: usize, word: TypeWord, from: usize) -> Read<TypeName>
    ensures { Reads (type_by (type_at depth) word) parser.now.tokens.now from result }
{
    match word {
        TypeWord::Any => Ok((TypeName::Any, from)),
        TypeWord::Boolean => Ok((TypeName::Boolean, from)),
        TypeWord::Hash => Ok((TypeName::Hash, from)),
        TypeWord::Text => text_behind(parser.tokens, from),
        TypeWord::Number => number_behind(parser.tokens, from),
        TypeWord::Array => array_behind(parser, depth, from),
        TypeWord::Optional => optional_behind(parser, depth, from),
        TypeWord::Enum => enum_behind(parser, from),
        TypeWord::Variant => variant_behind(parser, depth, from),
    }
}

fn text_behind(tokens: &[Token<'_>], from: usize) -> Read<TypeName>
    ensures { Reads (shaped text_type maybe_bounds) tokens.now from result }
{
    let (found, rest) = some_bounds(tokens, from)?;
    Ok((text_type(found), rest))
}

fn number_behind(tokens: &[Token<'_>], from: usize) -> Read<TypeName>
    ensures { Reads (shaped number_type maybe_bounds) tokens.now from result }
{
    let (found, rest) = some_bounds(tokens, from)?;
    Ok((number_type(found), rest))
}

fn enum_behind(parser: &Parser<'_>, from: usize) -> Read<TypeName>
    ensures { Reads (shaped type.Enum texts_with) parser.now.tokens.now from result }
{
    let (found, rest) = enumerated(parser, from)?;
    Ok((TypeName::Enum(found), rest))
}

/// A type in brackets.
#[cycle(types)]
fn member(parser: &Parser<'_>, depth: usize, from: usize) -> Read<TypeName>
    ensures { Reads (member_with (type_at depth)) parser.now.tokens.now from result }
{
    let (_, rest) = expect(Kind::Tight, "[", parser.tokens, from)?;
    let (found, rest) = type_at(parser, depth, rest)?;
    let (_, rest) = expect(Kind::Sign, "]", parser.tokens, rest)?;
    Ok((found, rest))
}

fn array_of(alloc: Global, member: TypeName) -> Result<TypeName, NoMemory>
    ensures { IfOk result (λ t. t ≡ type.Array (Some member)) }
{
    let member = Boxed::new(alloc, member)?;
    Ok(TypeName::Array(Some(member)))
}

fn optional_of(alloc: Global, member: TypeName) -> Result<TypeName, NoMemory>
    ensures { IfOk result (λ t. t ≡ type.Optional member) }
{
    let member = Boxed::new(alloc, member)?;
    Ok(TypeName::Optional(member))
}

#[cycle(types)]
fn array_behind(parser: &Parser<'_>, depth: usize, from: usize) -> Read<TypeName>
    ensures { Reads (shaped type.Array (maybe_member (type_at depth))) parser.now.tokens.now from result }
{
    if begins(Kind::Tight, "[", parser.tokens, from) {
        let (found, rest) = member(parser, depth, from)?;
        let found = array_of(parser.alloc, found)?;
        Ok((found, rest))
    } else {
        Ok((TypeName::Array(None), from))
    }
}

#[cycle(types)]
fn optional_behind(parser: &Parser<'_>, depth: usize, from: usize) -> Read<TypeName>
    ensures { Reads (shaped type.Optional (member_with (type_at depth))) parser.now.tokens.now from result }
{
    let (found, rest) = member(parser, depth, from)?;
    let found = optional_of(parser.alloc, found)?;
    Ok((found, rest))
}

/// Types with commas between them, and the bracket that closes them.
#[cycle(types)]
fn types(parser: &Parser<'_>, depth: usize, from: usize) -> Read<Seq<TypeName>>
    ensures { Reads (members_in (type_at depth)) parser.now.tokens.now from result }
{
    let mut found = Seq::new(parser.alloc);
    let mut rest = from;
    for _turn in 0..turns(parser.tokens, from) {
        let (item, more) = type_at(parser, depth, rest)?;
        found.push(item)?;
        let (ends, more) = separator("]", parser.tokens, more)?;
        if ends {
            return Ok((found, more));
        }
        rest = more;
    }
    Err(Misread::Form(rest))
}

#[cycle(types)]
fn variant_behind(parser: &Parser<'_>, depth: usize, from: usize) -> Read<TypeName>
    ensures { Reads (shaped type.Variant (members_with (type_at depth))) parser.now.tokens.now from result }
{
    let (_, rest) = expect(Kind::Tight, "[", parser.tokens, from)?;
    let (found, rest) = types(parser, depth, rest)?;
    Ok((TypeName::Variant(found), rest))
}
