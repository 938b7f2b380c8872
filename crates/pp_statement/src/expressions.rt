//! The expressions within statements.
ghost use Rattle.pp_readers.specs.Parsed.{Reads};
ghost use Rattle.pp_readers.specs.Expressions.{expr_at, postfix_with, reference_with, option_with};

use crate::parser::Parser;
use pp_expression::{mark, parse_expression, parse_postfix, parse_reference};
use pp_readers::Read;
use pp_syntax::{Expr, Kind};

/// An expression, with brackets nested less deep than the limit.
pub fn expr(parser: &Parser<'_>, from: usize) -> Read<Expr>
    ensures { Reads (expr_at parser.now.limit) parser.now.tokens.now from result }
{
    parse_expression(parser.alloc, parser.limit, parser.tokens, from)
}

/// An operand with what stands behind it.
pub fn postfix(parser: &Parser<'_>, from: usize) -> Read<Expr>
    ensures { Reads (postfix_with (expr_at parser.now.limit)) parser.now.tokens.now from result }
{
    parse_postfix(parser.alloc, parser.limit, parser.tokens, from)
}

/// A reference with its titles.
pub fn reference(parser: &Parser<'_>, from: usize) -> Read<Expr>
    ensures { Reads (reference_with (expr_at parser.now.limit)) parser.now.tokens.now from result }
{
    parse_reference(parser.alloc, parser.limit, parser.tokens, from)
}

/// An expression or `default`.
pub fn option(parser: &Parser<'_>, from: usize) -> Read<Option<Expr>>
    ensures { Reads (option_with (expr_at parser.now.limit)) parser.now.tokens.now from result }
{
    if let Some((_, rest)) = mark(Kind::Keyword, "default", parser.tokens, from) {
        return Ok((None, rest));
    }
    let (e, rest) = expr(parser, from)?;
    Ok((Some(e), rest))
}
