//! The parser of the operands of a chain.
ghost use Rattle.std.specs.Prelude.{◌≡◌, codes};
ghost use Rattle.pp_syntax.specs.declared.token.Kind.TheVariants as kind;
ghost use Rattle.pp_readers.specs.Parsed.{Reads};
ghost use Rattle.pp_readers.specs.Expressions.{expr_at, postfix_with};
ghost use Rattle.pp_readers.specs.Combining.{behind, before};
ghost use Rattle.pp_readers.specs.Statements.{declared_with, resource_of, resource_with, virtual_with, class_with, sought_with, collector_with, reference_operand, references_in, references_with, collected_with, operand_with};

use crate::expressions::reference;
use crate::marks::{begins, ref_name, type_name};
use crate::parser::Parser;
use crate::resource::braced_bodies;
use crate::search::sought;
use pp_expression::{expect, first_at, front_of, separator, text_of, turns};
use pp_readers::{Misread, Read};
use pp_syntax::{Body, Expr, Kind, Operand, Search};
use rh_base::{Seq, Text};

/// A type and its bodies.
fn declared(parser: &Parser<'_>, from: usize) -> Read<(Text, Seq<Body>)>
    ensures { Reads (declared_with (expr_at parser.now.limit)) parser.now.tokens.now from result }
{
    let (kind, rest) = type_name(parser, from)?;
    let (bodies, rest) = braced_bodies(parser, rest)?;
    Ok(((kind, bodies), rest))
}

/// Resources of a type, with these bodies, that begin at this place.
fn resource_of(is_virtual: bool, at: u32, declared: (Text, Seq<Body>)) -> Operand
    ensures { result ≡ resource_of is_virtual at declared }
{
    let (kind, bodies) = declared;
    Operand::Declare {
        at,
        is_virtual,
        kind,
        bodies,
    }
}

fn resource(parser: &Parser<'_>, from: usize) -> Read<Operand>
    ensures { Reads (resource_with (expr_at parser.now.limit)) parser.now.tokens.now from result }
{
    let (found, rest) = declared(parser, from)?;
    Ok((
        resource_of(false, first_at(parser.tokens, from), found),
        rest,
    ))
}

/// A resource behind `@`.
fn virtual_resource(parser: &Parser<'_>, from: usize) -> Read<Operand>
    ensures { Reads (virtual_with (expr_at parser.now.limit)) parser.now.tokens.now from result }
{
    let (_, rest) = expect(Kind::Sign, "@", parser.tokens, from)?;
    let (found, rest) = declared(parser, rest)?;
    Ok((
        resource_of(true, first_at(parser.tokens, from), found),
        rest,
    ))
}

fn class(parser: &Parser<'_>, from: usize) -> Read<Operand>
    ensures { Reads (class_with (expr_at parser.now.limit)) parser.now.tokens.now from result }
{
    let (_, rest) = expect(Kind::Keyword, "class", parser.tokens, from)?;
    let (bodies, rest) = braced_bodies(parser, rest)?;
    let kind = text_of(parser.alloc, "class")?;
    let at = first_at(parser.tokens, from);
    Ok((resource_of(false, at, (kind, bodies)), rest))
}

fn enclosed_search(parser: &Parser<'_>, from: usize) -> Read<Option<Search>>
    ensures { Reads (behind kind.Sign (codes "<|")
        (before (sought_with (postfix_with (expr_at parser.now.limit))) kind.Sign (codes "|>"))) parser.now.tokens.now from result }
{
    let (_, rest) = expect(Kind::Sign, "<|", parser.tokens, from)?;
    let (search, rest) = sought(parser, rest)?;
    let (_, rest) = expect(Kind::Sign, "|>", parser.tokens, rest)?;
    Ok((search, rest))
}

fn collector(parser: &Parser<'_>, from: usize) -> Read<Operand>
    ensures { Reads (collector_with (expr_at parser.now.limit)) parser.now.tokens.now from result }
{
    let (kind, rest) = ref_name(parser, from)?;
    let (search, rest) = enclosed_search(parser, rest)?;
    let at = first_at(parser.tokens, from);
    Ok((Operand::Collect { at, kind, search }, rest))
}

fn reference_operand(parser: &Parser<'_>, from: usize) -> Read<Operand>
    ensures { Reads (reference_operand (expr_at parser.now.limit)) parser.now.tokens.now from result }
{
    let (e, rest) = reference(parser, from)?;
    let mut found = Seq::new(parser.alloc);
    found.push(e)?;
    Ok((Operand::Named(found), rest))
}

fn some_references(parser: &Parser<'_>, from: usize) -> Read<Seq<Expr>>
    ensures { Reads (references_in (expr_at parser.now.limit)) parser.now.tokens.now from result }
{
    let mut found = Seq::new(parser.alloc);
    let mut rest = from;
    for _turn in 0..turns(parser.tokens, from) {
        let (item, more) = reference(parser, rest)?;
        found.push(item)?;
        let (ends, more) = separator("]", parser.tokens, more)?;
        if ends {
            return Ok((found, more));
        }
        rest = more;
    }
    Err(Misread::Form(rest))
}

/// References in brackets.
fn references(parser: &Parser<'_>, from: usize) -> Read<Operand>
    ensures { Reads (references_with (expr_at parser.now.limit)) parser.now.tokens.now from result }
{
    let (_, rest) = expect(Kind::Loose, "[", parser.tokens, from)?;
    let (found, rest) = some_references(parser, rest)?;
    Ok((Operand::Named(found), rest))
}

/// A collector or a reference.
fn collected(parser: &Parser<'_>, from: usize) -> Read<Operand>
    ensures { Reads (collected_with (expr_at parser.now.limit)) parser.now.tokens.now from result }
{
    match front_of(parser.tokens, from) {
        Some((_, behind)) => {
            if begins(Kind::Sign, "<|", parser.tokens, behind) {
                collector(parser, from)
            } else {
                reference_operand(parser, from)
            }
        }
        None => reference_operand(parser, from),
    }
}

/// A resource, a class, a collector or references.
pub fn operand(parser: &Parser<'_>, from: usize) -> Read<Operand>
    ensures { Reads (operand_with (expr_at parser.now.limit)) parser.now.tokens.now from result }
{
    match front_of(parser.tokens, from) {
        Some((token, _)) => match token.kind {
            Kind::Word => resource(parser, from),
            Kind::Sign => virtual_resource(parser, from),
            Kind::Keyword => class(parser, from),
            Kind::Ref => collected(parser, from),
            Kind::Loose => references(parser, from),
            _ => Err(Misread::Form(from)),
        },
        None => Err(Misread::Form(from)),
    }
}
