//! The parser of what stands at the top of a manifest.
ghost use Rattle.std.specs.Prelude.{◌≡◌, ◌+◌, drop, codes, length, Some};
ghost use Rattle.pp_syntax.specs.Lexing.{lexemes_of};
ghost use Rattle.pp_readers.specs.Parsed.{Gives, Reads};
ghost use Rattle.pp_readers.specs.Expressions.{items, expr_at};
ghost use Rattle.pp_readers.specs.Combining.{listed};
ghost use Rattle.pp_readers.specs.Statements.{stmt_at};
ghost use Rattle.pp_parser.specs.TypeReading.{type_at};
ghost use Rattle.pp_parser.specs.ItemReading.{maybe_type, default_with, param_with, params_in, params_with, parent_with, class_with, define_with, text_of, text_name, default_name, word_name, node_name_with, unopened, node_names_with, node_with, defaults_with, plain_with, keyed_with, class_or_plain, defaults_or_plain, item_with, items_at};

use crate::types::type_at;
use crate::words::{begins_type, has_token, unopened, word};
use pp_expression::{
    expect, first_at, front_of, mark, parse_expression, parse_string, separator, turns,
};
use pp_readers::{Misread, Read};
use pp_statement::{Parser, parse_attributes, parse_block, parse_statement, ref_name, variable};
use pp_syntax::{Expr, Form, Item, Kind, Param, Stmt, Token, TypeName};
use rh_base::{Seq, Text};

// ---- parameters

fn kind_of(parser: &Parser<'_>, from: usize) -> Read<Option<TypeName>>
    ensures { Reads (maybe_type (type_at parser.now.limit)) parser.now.tokens.now from result }
{
    if begins_type(parser.tokens, from) {
        let (found, rest) = type_at(parser, parser.limit, from)?;
        Ok((Some(found), rest))
    } else {
        Ok((None, from))
    }
}

fn default(parser: &Parser<'_>, from: usize) -> Read<Option<Expr>>
    ensures { Reads (default_with (expr_at parser.now.limit)) parser.now.tokens.now from result }
{
    let Some((_, behind)) = mark(Kind::Sign, "=", parser.tokens, from) else {
        return Ok((None, from));
    };
    let (found, rest) = parse_expression(parser.alloc, parser.limit, parser.tokens, behind)?;
    Ok((Some(found), rest))
}

fn param(parser: &Parser<'_>, from: usize) -> Read<Param>
    ensures { Reads (param_with (expr_at parser.now.limit) (type_at parser.now.limit)) parser.now.tokens.now from result }
{
    let (kind, rest) = kind_of(parser, from)?;
    let (name, rest) = variable(parser, rest)?;
    let (default, rest) = default(parser, rest)?;
    Ok((
        Param {
            kind,
            name,
            default,
        },
        rest,
    ))
}

fn some_params(parser: &Parser<'_>, from: usize) -> Read<Seq<Param>>
    ensures { Reads (λ ts. items (codes ")") (param_with (expr_at parser.now.limit) (type_at parser.now.limit)) (length ts + 1) ts)
        parser.now.tokens.now from result }
{
    let mut found = Seq::new(parser.alloc);
    let mut rest = from;
    for _turn in 0..turns(parser.tokens, from) {
        let (item, more) = param(parser, rest)?;
        found.push(item)?;
        let (ends, more) = separator(")", parser.tokens, more)?;
        if ends {
            return Ok((found, more));
        }
        rest = more;
    }
    Err(Misread::Form(rest))
}

fn params_behind(parser: &Parser<'_>, from: usize) -> Read<Seq<Param>>
    ensures { Reads (params_in (expr_at parser.now.limit) (type_at parser.now.limit)) parser.now.tokens.now from result }
{
    if let Some((_, rest)) = mark(Kind::Sign, ")", parser.tokens, from) {
        return Ok((Seq::new(parser.alloc), rest));
    }
    some_params(parser, from)
}

/// Parameters in brackets, or none.
fn params(parser: &Parser<'_>, from: usize) -> Read<Seq<Param>>
    ensures { Reads (params_with (expr_at parser.now.limit) (type_at parser.now.limit)) parser.now.tokens.now from result }
{
    match mark(Kind::Sign, "(", parser.tokens, from) {
        Some((_, rest)) => params_behind(parser, rest),
        None => Ok((Seq::new(parser.alloc), from)),
    }
}

// ---- definitions

fn parent(parser: &Parser<'_>, from: usize) -> Read<Option<Text>>
    ensures { Reads parent_with parser.now.tokens.now from result }
{
    let Some((_, behind)) = mark(Kind::Keyword, "inherits", parser.tokens, from) else {
        return Ok((None, from));
    };
    let (name, rest) = word(parser, behind)?;
    Ok((Some(name), rest))
}

fn class(parser: &Parser<'_>, from: usize) -> Read<Item>
    ensures { Reads (class_with (expr_at parser.now.limit) (type_at parser.now.limit)
        (stmt_at (expr_at parser.now.limit) parser.now.limit)) parser.now.tokens.now from result }
{
    let (_, rest) = expect(Kind::Keyword, "class", parser.tokens, from)?;
    let (name, rest) = word(parser, rest)?;
    let (params, rest) = params(parser, rest)?;
    let (parent, rest) = parent(parser, rest)?;
    let (body, rest) = parse_block(parser, rest)?;
    let at = first_at(parser.tokens, from);
    Ok((
        Item::Class {
            at,
            name,
            params,
            parent,
            body,
        },
        rest,
    ))
}

fn define(parser: &Parser<'_>, from: usize) -> Read<Item>
    ensures { Reads (define_with (expr_at parser.now.limit) (type_at parser.now.limit)
        (stmt_at (expr_at parser.now.limit) parser.now.limit)) parser.now.tokens.now from result }
{
    let (_, rest) = expect(Kind::Keyword, "define", parser.tokens, from)?;
    let (name, rest) = word(parser, rest)?;
    let (params, rest) = params(parser, rest)?;
    let (body, rest) = parse_block(parser, rest)?;
    let at = first_at(parser.tokens, from);
    Ok((
        Item::Define {
            at,
            name,
            params,
            body,
        },
        rest,
    ))
}

fn text_of(form: Form) -> Option<Text>
    ensures { result ≡ text_of form }
{
    match form {
        Form::Str(name) => Some(name),
        _ => None,
    }
}

fn text_name(parser: &Parser<'_>, from: usize) -> Read<Option<Text>>
    ensures { Reads (text_name (expr_at parser.now.limit)) parser.now.tokens.now from result }
{
    let (text, rest) = parse_string(parser.alloc, parser.limit, parser.tokens, from)?;
    let Expr { at: _, form } = text;
    let name = text_of(form).ok_or(Misread::Form(from))?;
    Ok((Some(name), rest))
}

fn default_name(tokens: &[Token<'_>], from: usize) -> Read<Option<Text>>
    ensures { Reads default_name tokens.now from result }
{
    let (_, rest) = expect(Kind::Keyword, "default", tokens, from)?;
    Ok((None, rest))
}

fn word_name(parser: &Parser<'_>, from: usize) -> Read<Option<Text>>
    ensures { Reads word_name parser.now.tokens.now from result }
{
    let (name, rest) = word(parser, from)?;
    Ok((Some(name), rest))
}

fn node_name(parser: &Parser<'_>, from: usize) -> Read<Option<Text>>
    ensures { Reads (node_name_with (expr_at parser.now.limit)) parser.now.tokens.now from result }
{
    match front_of(parser.tokens, from) {
        Some((token, _)) => match token.kind {
            Kind::Keyword => default_name(parser.tokens, from),
            Kind::Word => word_name(parser, from),
            _ => text_name(parser, from),
        },
        None => Err(Misread::Form(from)),
    }
}

fn some_node_names(parser: &Parser<'_>, from: usize) -> Read<Seq<Option<Text>>>
    ensures { Reads (λ ts. listed (codes ",") unopened (node_name_with (expr_at parser.now.limit)) (length ts + 1) ts)
        parser.now.tokens.now from result }
{
    let mut found = Seq::new(parser.alloc);
    let mut rest = from;
    for _turn in 0..turns(parser.tokens, from) {
        if !unopened(parser.tokens, rest) {
            return Ok((found, rest));
        }
        let (item, more) = node_name(parser, rest)?;
        found.push(item)?;
        let Some((_, behind)) = mark(Kind::Sign, ",", parser.tokens, more) else {
            return Ok((found, more));
        };
        rest = behind;
    }
    Err(Misread::Form(rest))
}

fn node_names(parser: &Parser<'_>, from: usize) -> Read<Seq<Option<Text>>>
    ensures { Reads (node_names_with (expr_at parser.now.limit)) parser.now.tokens.now from result }
{
    if unopened(parser.tokens, from) {
        some_node_names(parser, from)
    } else {
        Err(Misread::Form(from))
    }
}

fn node(parser: &Parser<'_>, from: usize) -> Read<Item>
    ensures { Reads (node_with (expr_at parser.now.limit) (stmt_at (expr_at parser.now.limit) parser.now.limit))
        parser.now.tokens.now from result }
{
    let (_, rest) = expect(Kind::Keyword, "node", parser.tokens, from)?;
    let (names, rest) = node_names(parser, rest)?;
    let (body, rest) = parse_block(parser, rest)?;
    let at = first_at(parser.tokens, from);
    Ok((Item::Node { at, names, body }, rest))
}

fn defaults(parser: &Parser<'_>, from: usize) -> Read<Item>
    ensures { Reads (defaults_with (expr_at parser.now.limit)) parser.now.tokens.now from result }
{
    let (kind, rest) = ref_name(parser, from)?;
    let (attrs, rest) = parse_attributes(parser, rest)?;
    let at = first_at(parser.tokens, from);
    Ok((Item::Defaults { at, kind, attrs }, rest))
}

// ---- items

fn plain(parser: &Parser<'_>, from: usize) -> Read<Item>
    ensures { Reads (plain_with (stmt_at (expr_at parser.now.limit) parser.now.limit)) parser.now.tokens.now from result }
{
    let (found, rest) = parse_statement(parser, from)?;
    Ok((Item::Plain(found), rest))
}

/// What begins with this keyword; named: what stands behind it is no `{`.
fn keyed(parser: &Parser<'_>, word: &str, named: bool, from: usize) -> Read<Item>
    ensures { Reads (keyed_with (expr_at parser.now.limit) (type_at parser.now.limit)
        (stmt_at (expr_at parser.now.limit) parser.now.limit) word.now named) parser.now.tokens.now from result }
{
    if word == "class" {
        class_or_plain(parser, named, from)
    } else if word == "define" {
        define(parser, from)
    } else if word == "node" {
        node(parser, from)
    } else {
        plain(parser, from)
    }
}

fn class_or_plain(parser: &Parser<'_>, named: bool, from: usize) -> Read<Item>
    ensures { Reads (class_or_plain (expr_at parser.now.limit) (type_at parser.now.limit)
        (stmt_at (expr_at parser.now.limit) parser.now.limit) named) parser.now.tokens.now from result }
{
    if named {
        class(parser, from)
    } else {
        plain(parser, from)
    }
}

fn defaults_or_plain(parser: &Parser<'_>, named: bool, from: usize) -> Read<Item>
    ensures { Reads (defaults_or_plain (expr_at parser.now.limit) (stmt_at (expr_at parser.now.limit) parser.now.limit) named)
        parser.now.tokens.now from result }
{
    if named {
        plain(parser, from)
    } else {
        defaults(parser, from)
    }
}

fn item(parser: &Parser<'_>, from: usize) -> Read<Item>
    ensures { Reads (item_with (expr_at parser.now.limit) (type_at parser.now.limit)
        (stmt_at (expr_at parser.now.limit) parser.now.limit)) parser.now.tokens.now from result }
{
    match front_of(parser.tokens, from) {
        Some((token, behind)) => {
            let named = unopened(parser.tokens, behind);
            match token.kind {
                Kind::Keyword => keyed(parser, token.text, named, from),
                Kind::Ref => defaults_or_plain(parser, named, from),
                _ => plain(parser, from),
            }
        }
        None => Err(Misread::Form(from)),
    }
}

/// All items, with brackets and blocks nested less deep than the limit.
pub fn items(parser: &Parser<'_>) -> Read<Seq<Item>>
    ensures { Gives (λ x. (x.0, drop x.1 (lexemes_of parser.now.tokens.now))) result (items_at parser.now.limit (lexemes_of parser.now.tokens.now)) }
{
    let mut found = Seq::new(parser.alloc);
    let mut rest = 0;
    for _turn in 0..turns(parser.tokens, 0) {
        if !has_token(parser.tokens, rest) {
            return Ok((found, rest));
        }
        let (item, more) = item(parser, rest)?;
        found.push(item)?;
        rest = more;
    }
    Err(Misread::Form(rest))
}
