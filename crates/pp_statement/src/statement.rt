//! The parser of statements and blocks.
ghost use Rattle.std.specs.Prelude.{◌+◌, codes, [], ◌∷◌, length};
ghost use Rattle.pp_syntax.specs.declared.token.Kind.TheVariants as kind;
ghost use Rattle.pp_readers.specs.Parsed.{Reads};
ghost use Rattle.pp_readers.specs.Expressions.{expr_at, with_front};
ghost use Rattle.pp_readers.specs.Combining.{behind, in_braces};
ghost use Rattle.pp_readers.specs.Statements.{statements_in, block_with, else_with, arm_with, more_arms, arms_with, if_with, unless_with, options_with, case_arm_with, case_arms_in, case_with, called_with, keyed_with, stmt_with, stmt_at};

use crate::chain::{assign, call, chain};
use crate::expressions::{expr, option};
use crate::marks::{begins, function_at, unclosed};
use crate::parser::Parser;
use pp_expression::{expect, first_at, front_of, mark, separator, turns};
use pp_readers::{Misread, Read};
use pp_syntax::{Arm, CaseArm, Expr, Kind, Stmt};
use rh_base::Seq;

/// A statement, with blocks nested less deep than this.
#[cycle(statement)]
pub fn statement(parser: &Parser<'_>, depth: usize, from: usize) -> Read<Stmt>
    ensures { Reads (stmt_at (expr_at parser.now.limit) depth) parser.now.tokens.now from result }
{
    if depth == 0 {
        return Err(Misread::Form(from));
    }
    any_statement(parser, depth - 1, from)
}

#[cycle(statement)]
fn any_statement(parser: &Parser<'_>, depth: usize, from: usize) -> Read<Stmt>
    ensures { Reads (stmt_with (expr_at parser.now.limit) (stmt_at (expr_at parser.now.limit) depth)) parser.now.tokens.now from result }
{
    match front_of(parser.tokens, from) {
        Some((token, _)) => match token.kind {
            Kind::Keyword => keyed(parser, depth, token.text, from),
            Kind::Var => assign(parser, from),
            Kind::Word => called(parser, from),
            _ => chain(parser, from),
        },
        None => Err(Misread::Form(from)),
    }
}

/// What begins with a word.
fn called(parser: &Parser<'_>, from: usize) -> Read<Stmt>
    ensures { Reads (called_with (expr_at parser.now.limit)) parser.now.tokens.now from result }
{
    match function_at(parser.tokens, from) {
        Some(_) => call(parser, from),
        None => chain(parser, from),
    }
}

/// What begins with this keyword.
#[cycle(statement)]
fn keyed(parser: &Parser<'_>, depth: usize, word: &str, from: usize) -> Read<Stmt>
    ensures { Reads (keyed_with (expr_at parser.now.limit) (stmt_at (expr_at parser.now.limit) depth) word.now)
        parser.now.tokens.now from result }
{
    if word == "if" {
        if_statement(parser, depth, from)
    } else if word == "unless" {
        unless_statement(parser, depth, from)
    } else if word == "case" {
        case_statement(parser, depth, from)
    } else {
        chain(parser, from)
    }
}

/// Statements to the end of their block.
#[cycle(statement)]
fn statements(parser: &Parser<'_>, depth: usize, from: usize) -> Read<Seq<Stmt>>
    ensures { Reads (statements_in (stmt_at (expr_at parser.now.limit) depth)) parser.now.tokens.now from result }
{
    let mut found = Seq::new(parser.alloc);
    let mut rest = from;
    for _turn in 0..turns(parser.tokens, from) {
        if !unclosed(parser.tokens, rest) {
            return Ok((found, rest));
        }
        let (item, more) = statement(parser, depth, rest)?;
        found.push(item)?;
        rest = more;
    }
    Err(Misread::Form(rest))
}

/// Statements in braces.
#[cycle(statement)]
pub fn block(parser: &Parser<'_>, depth: usize, from: usize) -> Read<Seq<Stmt>>
    ensures { Reads (block_with (stmt_at (expr_at parser.now.limit) depth)) parser.now.tokens.now from result }
{
    let (_, rest) = expect(Kind::Sign, "{", parser.tokens, from)?;
    let (found, rest) = statements(parser, depth, rest)?;
    let (_, rest) = expect(Kind::Sign, "}", parser.tokens, rest)?;
    Ok((found, rest))
}

/// The block of an `else`, or none.
#[cycle(statement)]
fn other(parser: &Parser<'_>, depth: usize, from: usize) -> Read<Seq<Stmt>>
    ensures { Reads (else_with (stmt_at (expr_at parser.now.limit) depth)) parser.now.tokens.now from result }
{
    if let Some((_, rest)) = mark(Kind::Keyword, "else", parser.tokens, from) {
        return block(parser, depth, rest);
    }
    Ok((Seq::new(parser.alloc), from))
}

#[cycle(statement)]
fn arm(parser: &Parser<'_>, depth: usize, from: usize) -> Read<Arm>
    ensures { Reads (arm_with (expr_at parser.now.limit) (stmt_at (expr_at parser.now.limit) depth)) parser.now.tokens.now from result }
{
    let (test, rest) = expr(parser, from)?;
    let (body, rest) = block(parser, depth, rest)?;
    Ok((Arm { test, body }, rest))
}

#[cycle(statement)]
fn next_arm(parser: &Parser<'_>, depth: usize, from: usize) -> Read<Arm>
    ensures { Reads (behind kind.Keyword (codes "elsif")
        (arm_with (expr_at parser.now.limit) (stmt_at (expr_at parser.now.limit) depth))) parser.now.tokens.now from result }
{
    let (_, rest) = expect(Kind::Keyword, "elsif", parser.tokens, from)?;
    arm(parser, depth, rest)
}

/// Arms from the first on.
#[cycle(statement)]
fn arms_behind(parser: &Parser<'_>, depth: usize, first: Arm, from: usize) -> Read<Seq<Arm>>
    ensures { Reads (λ ts. with_front (first ∷ [])
        (more_arms (expr_at parser.now.limit) (stmt_at (expr_at parser.now.limit) depth) (length ts + 1) ts)) parser.now.tokens.now from result }
{
    let mut found = Seq::new(parser.alloc);
    found.push(first)?;
    let mut rest = from;
    for _turn in 0..turns(parser.tokens, from) {
        if !begins(Kind::Keyword, "elsif", parser.tokens, rest) {
            return Ok((found, rest));
        }
        let (item, more) = next_arm(parser, depth, rest)?;
        found.push(item)?;
        rest = more;
    }
    Err(Misread::Form(rest))
}

#[cycle(statement)]
fn arms(parser: &Parser<'_>, depth: usize, from: usize) -> Read<Seq<Arm>>
    ensures { Reads (arms_with (expr_at parser.now.limit) (stmt_at (expr_at parser.now.limit) depth)) parser.now.tokens.now from result }
{
    let (first, rest) = arm(parser, depth, from)?;
    arms_behind(parser, depth, first, rest)
}

#[cycle(statement)]
fn if_statement(parser: &Parser<'_>, depth: usize, from: usize) -> Read<Stmt>
    ensures { Reads (if_with (expr_at parser.now.limit) (stmt_at (expr_at parser.now.limit) depth)) parser.now.tokens.now from result }
{
    let (_, rest) = expect(Kind::Keyword, "if", parser.tokens, from)?;
    let (arms, rest) = arms(parser, depth, rest)?;
    let (other, rest) = other(parser, depth, rest)?;
    let at = first_at(parser.tokens, from);
    Ok((Stmt::If { at, arms, other }, rest))
}

#[cycle(statement)]
fn unless_statement(parser: &Parser<'_>, depth: usize, from: usize) -> Read<Stmt>
    ensures { Reads (unless_with (expr_at parser.now.limit) (stmt_at (expr_at parser.now.limit) depth)) parser.now.tokens.now from result }
{
    let (_, rest) = expect(Kind::Keyword, "unless", parser.tokens, from)?;
    let (test, rest) = expr(parser, rest)?;
    let (body, rest) = block(parser, depth, rest)?;
    let (other, rest) = other(parser, depth, rest)?;
    let at = first_at(parser.tokens, from);
    Ok((
        Stmt::Unless {
            at,
            test,
            body,
            other,
        },
        rest,
    ))
}

/// What a value of a `case` is compared with.
fn options(parser: &Parser<'_>, from: usize) -> Read<Seq<Option<Expr>>>
    ensures { Reads (options_with (expr_at parser.now.limit)) parser.now.tokens.now from result }
{
    let mut found = Seq::new(parser.alloc);
    let mut rest = from;
    for _turn in 0..turns(parser.tokens, from) {
        let (item, more) = option(parser, rest)?;
        found.push(item)?;
        let (ends, more) = separator(":", parser.tokens, more)?;
        if ends {
            return Ok((found, more));
        }
        rest = more;
    }
    Err(Misread::Form(rest))
}

#[cycle(statement)]
fn case_arm(parser: &Parser<'_>, depth: usize, from: usize) -> Read<CaseArm>
    ensures { Reads (case_arm_with (expr_at parser.now.limit) (stmt_at (expr_at parser.now.limit) depth))
        parser.now.tokens.now from result }
{
    let (options, rest) = options(parser, from)?;
    let (body, rest) = block(parser, depth, rest)?;
    Ok((CaseArm { options, body }, rest))
}

#[cycle(statement)]
fn case_arms(parser: &Parser<'_>, depth: usize, from: usize) -> Read<Seq<CaseArm>>
    ensures { Reads (case_arms_in (expr_at parser.now.limit) (stmt_at (expr_at parser.now.limit) depth)) parser.now.tokens.now from result }
{
    let mut found = Seq::new(parser.alloc);
    let mut rest = from;
    for _turn in 0..turns(parser.tokens, from) {
        if !unclosed(parser.tokens, rest) {
            return Ok((found, rest));
        }
        let (item, more) = case_arm(parser, depth, rest)?;
        found.push(item)?;
        rest = more;
    }
    Err(Misread::Form(rest))
}

#[cycle(statement)]
fn braced_arms(parser: &Parser<'_>, depth: usize, from: usize) -> Read<Seq<CaseArm>>
    ensures { Reads (in_braces (case_arms_in (expr_at parser.now.limit) (stmt_at (expr_at parser.now.limit) depth)))
        parser.now.tokens.now from result }
{
    let (_, rest) = expect(Kind::Sign, "{", parser.tokens, from)?;
    let (found, rest) = case_arms(parser, depth, rest)?;
    let (_, rest) = expect(Kind::Sign, "}", parser.tokens, rest)?;
    Ok((found, rest))
}

#[cycle(statement)]
fn case_statement(parser: &Parser<'_>, depth: usize, from: usize) -> Read<Stmt>
    ensures { Reads (case_with (expr_at parser.now.limit) (stmt_at (expr_at parser.now.limit) depth)) parser.now.tokens.now from result }
{
    let (_, rest) = expect(Kind::Keyword, "case", parser.tokens, from)?;
    let (value, rest) = expr(parser, rest)?;
    let (arms, rest) = braced_arms(parser, depth, rest)?;
    let at = first_at(parser.tokens, from);
    Ok((Stmt::Case { at, value, arms }, rest))
}
