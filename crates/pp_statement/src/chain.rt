//! The parser of chains, assignments and calls.
ghost use Rattle.std.specs.Prelude.{◌≡◌, ◌+◌, codes, [], ◌∷◌, length};
ghost use Rattle.pp_syntax.specs.declared.token.Kind.TheVariants as kind;
ghost use Rattle.pp_readers.specs.Parsed.{Gives, Reads};
ghost use Rattle.pp_readers.specs.Expressions.{expr_at, with_front};
ghost use Rattle.pp_readers.specs.Combining.{behind, many};
ghost use Rattle.pp_readers.specs.Names.{begins_arrow};
ghost use Rattle.pp_readers.specs.Statements.{link_with, with_links, sides_with, is_named, chain_of, chain_with, assign_with, bracketed_with, more_args, bare_with, args_with, call_with};

use crate::expressions::expr;
use crate::marks::{arrow_at, begins, begins_arrow, begins_bracket, function_at, variable};
use crate::operand::operand;
use crate::parser::Parser;
use pp_expression::{expect, first_at, mark, separator, turns};
use pp_readers::{Misread, Read};
use pp_syntax::{Arrow, Expr, Kind, Operand, Stmt};
use rh_base::Seq;

/// An arrow and the operand behind it.
fn link(parser: &Parser<'_>, from: usize) -> Read<(Arrow, Operand)>
    ensures { Reads (link_with (expr_at parser.now.limit)) parser.now.tokens.now from result }
{
    match arrow_at(parser.tokens, from) {
        Some((arrow, rest)) => {
            let (side, rest) = operand(parser, rest)?;
            Ok(((arrow, side), rest))
        }
        None => Err(Misread::Form(from)),
    }
}

/// The sides from the first on, and the arrows between them.
fn sides_behind(
    parser: &Parser<'_>,
    first: Operand,
    from: usize,
) -> Read<(Seq<Operand>, Seq<Arrow>)>
    ensures { Reads (λ ts. with_links (first ∷ []) [] (many begins_arrow (link_with (expr_at parser.now.limit)) (length ts + 1) ts))
        parser.now.tokens.now from result }
{
    let mut sides = Seq::new(parser.alloc);
    sides.push(first)?;
    let mut arrows = Seq::new(parser.alloc);
    let mut rest = from;
    for _turn in 0..turns(parser.tokens, from) {
        if !begins_arrow(parser.tokens, rest) {
            return Ok(((sides, arrows), rest));
        }
        let ((arrow, side), more) = link(parser, rest)?;
        sides.push(side)?;
        arrows.push(arrow)?;
        rest = more;
    }
    Err(Misread::Form(rest))
}

fn sides(parser: &Parser<'_>, from: usize) -> Read<(Seq<Operand>, Seq<Arrow>)>
    ensures { Reads (sides_with (expr_at parser.now.limit)) parser.now.tokens.now from result }
{
    let (first, rest) = operand(parser, from)?;
    sides_behind(parser, first, rest)
}

fn is_named(operand: &Operand) -> bool
    ensures { result ≡ is_named operand.now }
{
    matches!(operand, Operand::Named(_))
}

/// One side alone is a resource or a collector; the index is the one behind the sides.
fn chain_of(index: usize, at: u32, sides: Seq<Operand>, arrows: Seq<Arrow>) -> Result<Stmt, Misread>
    ensures { Gives (λ x. x) result (chain_of at (sides, arrows)) }
{
    match sides.as_slice() {
        [] => return Err(Misread::Form(index)),
        [side] => {
            if is_named(side) {
                return Err(Misread::Form(index));
            }
        }
        _ => {}
    }
    Ok(Stmt::Chain { at, sides, arrows })
}

/// Operands with arrows between them.
pub fn chain(parser: &Parser<'_>, from: usize) -> Read<Stmt>
    ensures { Reads (chain_with (expr_at parser.now.limit)) parser.now.tokens.now from result }
{
    let ((sides, arrows), rest) = sides(parser, from)?;
    let stmt = chain_of(rest, first_at(parser.tokens, from), sides, arrows)?;
    Ok((stmt, rest))
}

/// An assignment.
pub fn assign(parser: &Parser<'_>, from: usize) -> Read<Stmt>
    ensures { Reads (assign_with (expr_at parser.now.limit)) parser.now.tokens.now from result }
{
    let (name, rest) = variable(parser, from)?;
    let (_, rest) = expect(Kind::Sign, "=", parser.tokens, rest)?;
    let (value, rest) = expr(parser, rest)?;
    let at = first_at(parser.tokens, from);
    Ok((Stmt::Assign { at, name, value }, rest))
}

fn bracketed(parser: &Parser<'_>, from: usize) -> Read<Seq<Expr>>
    ensures { Reads (bracketed_with (expr_at parser.now.limit)) parser.now.tokens.now from result }
{
    let mut found = Seq::new(parser.alloc);
    let mut rest = from;
    for _turn in 0..turns(parser.tokens, from) {
        let (item, more) = expr(parser, rest)?;
        found.push(item)?;
        let (ends, more) = separator(")", parser.tokens, more)?;
        if ends {
            return Ok((found, more));
        }
        rest = more;
    }
    Err(Misread::Form(rest))
}

fn next_arg(parser: &Parser<'_>, from: usize) -> Read<Expr>
    ensures { Reads (behind kind.Sign (codes ",") (expr_at parser.now.limit)) parser.now.tokens.now from result }
{
    let (_, rest) = expect(Kind::Sign, ",", parser.tokens, from)?;
    expr(parser, rest)
}

/// Arguments from the first on, without brackets.
fn args_behind(parser: &Parser<'_>, first: Expr, from: usize) -> Read<Seq<Expr>>
    ensures { Reads (λ ts. with_front (first ∷ []) (more_args (expr_at parser.now.limit) (length ts + 1) ts))
        parser.now.tokens.now from result }
{
    let mut found = Seq::new(parser.alloc);
    found.push(first)?;
    let mut rest = from;
    for _turn in 0..turns(parser.tokens, from) {
        if !begins(Kind::Sign, ",", parser.tokens, rest) {
            return Ok((found, rest));
        }
        let (item, more) = next_arg(parser, rest)?;
        found.push(item)?;
        rest = more;
    }
    Err(Misread::Form(rest))
}

fn bare(parser: &Parser<'_>, from: usize) -> Read<Seq<Expr>>
    ensures { Reads (bare_with (expr_at parser.now.limit)) parser.now.tokens.now from result }
{
    let (first, rest) = expr(parser, from)?;
    args_behind(parser, first, rest)
}

/// The arguments of a call, with or without brackets.
fn args(parser: &Parser<'_>, from: usize) -> Read<Seq<Expr>>
    ensures { Reads (args_with (expr_at parser.now.limit)) parser.now.tokens.now from result }
{
    if let Some((_, rest)) = mark(Kind::Sign, "(", parser.tokens, from) {
        return bracketed(parser, rest);
    }
    if begins_bracket(parser.tokens, from) {
        return Err(Misread::Form(from));
    }
    bare(parser, from)
}

/// A call of a function.
pub fn call(parser: &Parser<'_>, from: usize) -> Read<Stmt>
    ensures { Reads (call_with (expr_at parser.now.limit)) parser.now.tokens.now from result }
{
    match function_at(parser.tokens, from) {
        Some((func, rest)) => {
            let (args, rest) = args(parser, rest)?;
            let at = first_at(parser.tokens, from);
            Ok((Stmt::Call { at, func, args }, rest))
        }
        None => Err(Misread::Form(from)),
    }
}
