//! What the parser of manifests calls.
ghost use Rattle.pp_syntax.specs.Lexing.{lexemes_of};
ghost use Rattle.pp_syntax.specs.Phrases.{MaybeListed};
ghost use Rattle.pp_syntax.specs.Derivation.{IsExprAt};
ghost use Rattle.pp_syntax.specs.Statements.{AttrOf, InBraces, BlockOf, IsStmtAt};
ghost use Rattle.pp_readers.specs.Parsed.{Reads, IsSpelled, IsParsed, Anything};
ghost use Rattle.pp_readers.specs.Expressions.{expr_at};
ghost use Rattle.pp_readers.specs.Leads.{NothingFollows};
ghost use Rattle.pp_readers.specs.Statements.{attributes_with, block_with, stmt_at};

use crate::parser::Parser;
use crate::{resource, statement};
use pp_readers::Read;
use pp_syntax::{Attr, Stmt};
use rh_base::Seq;

/// The statement that begins at this index, with brackets and blocks nested less deep than the limit,
/// and the index behind it.
pub fn parse_statement(parser: &Parser<'_>, from: usize) -> Read<Stmt>
    ensures spelled { IsSpelled (IsStmtAt (IsExprAt parser.now.limit) parser.now.limit) (lexemes_of parser.now.tokens.now) from result }
    ensures parsed { IsParsed (IsStmtAt (IsExprAt parser.now.limit) parser.now.limit) NothingFollows
        (lexemes_of parser.now.tokens.now) from result }
    // what the reader of this rule finds, which the parsers that call this build on
    ensures reads { Reads (stmt_at (expr_at parser.now.limit) parser.now.limit) parser.now.tokens.now from result }
{
    statement::statement(parser, parser.limit, from)
}

/// The statements in braces from this index on.
pub fn parse_block(parser: &Parser<'_>, from: usize) -> Read<Seq<Stmt>>
    ensures spelled { IsSpelled (BlockOf (IsStmtAt (IsExprAt parser.now.limit) parser.now.limit)) (lexemes_of parser.now.tokens.now) from result }
    ensures parsed { IsParsed (BlockOf (IsStmtAt (IsExprAt parser.now.limit) parser.now.limit)) Anything
        (lexemes_of parser.now.tokens.now) from result }
    // what the reader of this rule finds, which the parsers that call this build on
    ensures reads { Reads (block_with (stmt_at (expr_at parser.now.limit) parser.now.limit)) parser.now.tokens.now from result }
{
    statement::block(parser, parser.limit, from)
}

/// The attributes in braces from this index on.
pub fn parse_attributes(parser: &Parser<'_>, from: usize) -> Read<Seq<Attr>>
    ensures spelled { IsSpelled (λ attrs. InBraces (MaybeListed (AttrOf (IsExprAt parser.now.limit)) attrs))
        (lexemes_of parser.now.tokens.now) from result }
    ensures parsed { IsParsed (λ attrs. InBraces (MaybeListed (AttrOf (IsExprAt parser.now.limit)) attrs)) Anything
        (lexemes_of parser.now.tokens.now) from result }
    // what the reader of this rule finds, which the parsers that call this build on
    ensures reads { Reads (attributes_with (expr_at parser.now.limit)) parser.now.tokens.now from result }
{
    resource::attributes(parser, from)
}
