//! The parser of the bodies and attributes of resources.
ghost use Rattle.std.specs.Prelude.{◌+◌, codes, length};
ghost use Rattle.pp_readers.specs.Parsed.{Reads};
ghost use Rattle.pp_readers.specs.Expressions.{expr_at};
ghost use Rattle.pp_readers.specs.Combining.{listed, in_braces};
ghost use Rattle.pp_readers.specs.Statements.{attr_with, attrs_with, body_with, bodies_with, unclosed, attributes_with};

use crate::expressions::expr;
use crate::marks::{begins_name, name, unclosed};
use crate::parser::Parser;
use pp_expression::{expect, first_at, mark, turns};
use pp_readers::{Misread, Read};
use pp_syntax::{Attr, Body, Kind};
use rh_base::Seq;

fn attr(parser: &Parser<'_>, from: usize) -> Read<Attr>
    ensures { Reads (attr_with (expr_at parser.now.limit)) parser.now.tokens.now from result }
{
    let (name, rest) = name(parser, from)?;
    let (_, rest) = expect(Kind::Sign, "=>", parser.tokens, rest)?;
    let (value, rest) = expr(parser, rest)?;
    let at = first_at(parser.tokens, from);
    Ok((Attr { at, name, value }, rest))
}

/// Attributes with commas between them.
pub fn attrs(parser: &Parser<'_>, from: usize) -> Read<Seq<Attr>>
    ensures { Reads (attrs_with (expr_at parser.now.limit)) parser.now.tokens.now from result }
{
    let mut found = Seq::new(parser.alloc);
    let mut rest = from;
    for _turn in 0..turns(parser.tokens, from) {
        if !begins_name(parser.tokens, rest) {
            return Ok((found, rest));
        }
        let (item, more) = attr(parser, rest)?;
        found.push(item)?;
        let Some((_, behind)) = mark(Kind::Sign, ",", parser.tokens, more) else {
            return Ok((found, more));
        };
        rest = behind;
    }
    Err(Misread::Form(rest))
}

/// A title and its attributes.
fn body(parser: &Parser<'_>, from: usize) -> Read<Body>
    ensures { Reads (body_with (expr_at parser.now.limit)) parser.now.tokens.now from result }
{
    let (title, rest) = expr(parser, from)?;
    let (_, rest) = expect(Kind::Sign, ":", parser.tokens, rest)?;
    let (attrs, rest) = attrs(parser, rest)?;
    Ok((Body { title, attrs }, rest))
}

fn some_bodies(parser: &Parser<'_>, from: usize) -> Read<Seq<Body>>
    ensures { Reads (λ ts. listed (codes ";") unclosed (body_with (expr_at parser.now.limit)) (length ts + 1) ts)
        parser.now.tokens.now from result }
{
    let mut found = Seq::new(parser.alloc);
    let mut rest = from;
    for _turn in 0..turns(parser.tokens, from) {
        if !unclosed(parser.tokens, rest) {
            return Ok((found, rest));
        }
        let (item, more) = body(parser, rest)?;
        found.push(item)?;
        let Some((_, behind)) = mark(Kind::Sign, ";", parser.tokens, more) else {
            return Ok((found, more));
        };
        rest = behind;
    }
    Err(Misread::Form(rest))
}

/// One or more bodies, with semicolons between them.
fn bodies(parser: &Parser<'_>, from: usize) -> Read<Seq<Body>>
    ensures { Reads (bodies_with (expr_at parser.now.limit)) parser.now.tokens.now from result }
{
    if unclosed(parser.tokens, from) {
        some_bodies(parser, from)
    } else {
        Err(Misread::Form(from))
    }
}

/// Bodies in braces.
pub fn braced_bodies(parser: &Parser<'_>, from: usize) -> Read<Seq<Body>>
    ensures { Reads (in_braces (bodies_with (expr_at parser.now.limit))) parser.now.tokens.now from result }
{
    let (_, rest) = expect(Kind::Sign, "{", parser.tokens, from)?;
    let (found, rest) = bodies(parser, rest)?;
    let (_, rest) = expect(Kind::Sign, "}", parser.tokens, rest)?;
    Ok((found, rest))
}

/// Attributes in braces.
pub fn attributes(parser: &Parser<'_>, from: usize) -> Read<Seq<Attr>>
    ensures { Reads (attributes_with (expr_at parser.now.limit)) parser.now.tokens.now from result }
{
    let (_, rest) = expect(Kind::Sign, "{", parser.tokens, from)?;
    let (found, rest) = attrs(parser, rest)?;
    let (_, rest) = expect(Kind::Sign, "}", parser.tokens, rest)?;
    Ok((found, rest))
}
