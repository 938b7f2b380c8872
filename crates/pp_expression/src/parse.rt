//! What the parsers of statements and of manifests call.
ghost use Rattle.pp_syntax.specs.Lexing.{lexemes_of};
ghost use Rattle.pp_syntax.specs.Derivation.{IsExprAt, PostfixOf, ReferenceOf, StringOf};
ghost use Rattle.pp_readers.specs.Parsed.{Reads, IsSpelled, IsParsed, NothingGoesOn, NoSuffixGoesOn, Anything};
ghost use Rattle.pp_readers.specs.Expressions.{expr_at, postfix_with, reference_with, string_with};

use crate::expression;
use pp_readers::Read;
use pp_syntax::{Expr, Token};
use std::alloc::Global;

/// The expression that begins at this index, with brackets nested less deep than this, and the
/// index behind it.
pub fn parse_expression(
    alloc: Global,
    depth: usize,
    tokens: &[Token<'_>],
    from: usize,
) -> Read<Expr>
    ensures spelled { IsSpelled (IsExprAt depth) (lexemes_of tokens.now) from result }
    ensures parsed { IsParsed (IsExprAt depth) NothingGoesOn (lexemes_of tokens.now) from result }
    // what the reader of this rule finds, which the parsers that call this build on
    ensures reads { Reads (expr_at depth) tokens.now from result }
{
    expression::expr(alloc, depth, tokens, from)
}

/// The operand that begins at this index, with all indexes and selections behind it; no operator is
/// taken.
pub fn parse_postfix(alloc: Global, depth: usize, tokens: &[Token<'_>], from: usize) -> Read<Expr>
    ensures spelled { IsSpelled (PostfixOf (IsExprAt depth)) (lexemes_of tokens.now) from result }
    ensures parsed { IsParsed (PostfixOf (IsExprAt depth)) NoSuffixGoesOn (lexemes_of tokens.now) from result }
    // what the reader of this rule finds, which the parsers that call this build on
    ensures reads { Reads (postfix_with (expr_at depth)) tokens.now from result }
{
    expression::postfix(alloc, depth, tokens, from)
}

/// The reference that begins at this index.
pub fn parse_reference(alloc: Global, depth: usize, tokens: &[Token<'_>], from: usize) -> Read<Expr>
    ensures spelled { IsSpelled (ReferenceOf (IsExprAt depth)) (lexemes_of tokens.now) from result }
    ensures parsed { IsParsed (ReferenceOf (IsExprAt depth)) Anything (lexemes_of tokens.now) from result }
    // what the reader of this rule finds, which the parsers that call this build on
    ensures reads { Reads (reference_with (expr_at depth)) tokens.now from result }
{
    expression::reference(alloc, depth, tokens, from)
}

/// The text in quotes that begins at this index.
pub fn parse_string(alloc: Global, depth: usize, tokens: &[Token<'_>], from: usize) -> Read<Expr>
    ensures spelled { IsSpelled (StringOf (IsExprAt depth)) (lexemes_of tokens.now) from result }
    ensures parsed { IsParsed (StringOf (IsExprAt depth)) Anything (lexemes_of tokens.now) from result }
    // what the reader of this rule finds, which the parsers that call this build on
    ensures reads { Reads (string_with (expr_at depth)) tokens.now from result }
{
    expression::string(alloc, depth, tokens, from)
}
