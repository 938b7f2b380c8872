//! The parser of expressions, one function for each rule of the grammar.
ghost use Rattle.std.specs.Prelude.{◌≡◌, ◌+◌, ◌-◌, ◌≤◌, ◌<◌, ◌||◌, drop, length, codes};
ghost use Rattle.pp_syntax.specs.Lexing.{lexemes_of, lexeme_of};
ghost use Rattle.pp_syntax.specs.declared.token.Kind.TheVariants as kind;
ghost use Rattle.pp_readers.specs.Marks.{front_of, mark};
ghost use Rattle.pp_readers.specs.Parsed.{Gives, Reads};
ghost use Rattle.pp_readers.specs.Expressions.{operations, levels_with, unary_with, postfix_with, primary_with, suffixes, suffix_with, index_with, choices_with, selection_with, choice_with, option_with, pair_with, enclosed_with, items, maybe_items, separator, list_with, map_with, reference_with, titles_with, double_with, quoted_with, members, member_with, part_with, hole_with, inner_with, opened_or, string_with, atom_of, atom_in, expr_at};

use crate::marks::{
    begins_suffix, begins_word, expect, first_at, front_of, infix_at, mark, prefixes, turns,
};
use crate::nodes::{as_variable, chain_of, indexed, joined, prefixed, referred, selected};
use crate::unquoting::dq;
use crate::values::{atom, name_of};
use pp_readers::{Misread, Read};
use pp_syntax::{Expr, Form, Kind, Op, Token};
use rh_base::Seq;
use std::alloc::Global;

/// An expression, with brackets nested less deep than this.
#[cycle(expression)]
pub fn expr(alloc: Global, depth: usize, tokens: &[Token<'_>], from: usize) -> Read<Expr>
    ensures { Reads (expr_at depth) tokens.now from result }
{
    if depth == 0 {
        return Err(Misread::Form(from));
    }
    level(alloc, depth - 1, 7, tokens, from)
}

/// What the nth rule from the tightest reads.
#[cycle(expression)]
#[tactic(auto, unfolding(pp_readers::specs::Expressions::chain_with))]
fn level(alloc: Global, depth: usize, n: u32, tokens: &[Token<'_>], from: usize) -> Read<Expr>
    requires { n ≤ 7 }
    ensures { Reads (levels_with (expr_at depth) n) tokens.now from result }
{
    if n == 0 {
        return unary(alloc, depth, tokens, from);
    }
    let (first, rest) = level(alloc, depth, n - 1, tokens, from)?;
    let (more, rest) = operations(alloc, depth, n - 1, turns(tokens, rest), tokens, rest)?;
    let e = chain_of(alloc, first_at(tokens, from), first, more)?;
    Ok((e, rest))
}

/// Operators of one level, each with its right operand.
#[cycle(expression)]
fn operations(
    alloc: Global,
    depth: usize,
    n: u32,
    turns: usize,
    tokens: &[Token<'_>],
    from: usize,
) -> Read<Seq<(Op, Expr)>>
    requires { n < 7 }
    ensures { Reads (operations (6 - n) (levels_with (expr_at depth) n) turns) tokens.now from result }
{
    let mut found = Seq::new(alloc);
    let mut rest = from;
    for _turn in 0..turns {
        let Some((op, behind)) = infix_at(6 - n, tokens, rest) else {
            return Ok((found, rest));
        };
        let (operand, more) = level(alloc, depth, n, tokens, behind)?;
        found.push((op, operand))?;
        rest = more;
    }
    Err(Misread::Form(rest))
}

#[cycle(expression)]
#[tactic(auto, unfolding(pp_readers::specs::Expressions::unary_with))]
fn unary(alloc: Global, depth: usize, tokens: &[Token<'_>], from: usize) -> Read<Expr>
    ensures { Reads (unary_with (expr_at depth)) tokens.now from result }
{
    let (ops, rest) = prefixes(alloc, tokens, from)?;
    let (operand, rest) = postfix(alloc, depth, tokens, rest)?;
    let e = prefixed(alloc, first_at(tokens, from), ops, operand)?;
    Ok((e, rest))
}

/// An operand with the indexes and selections behind it.
#[cycle(expression)]
#[tactic(auto, unfolding(pp_readers::specs::Expressions::postfix_with))]
pub fn postfix(alloc: Global, depth: usize, tokens: &[Token<'_>], from: usize) -> Read<Expr>
    ensures { Reads (postfix_with (expr_at depth)) tokens.now from result }
{
    let (operand, rest) = primary(alloc, depth, tokens, from)?;
    suffixes(
        alloc,
        depth,
        first_at(tokens, from),
        turns(tokens, rest),
        operand,
        tokens,
        rest,
    )
}

/// Indexes and selections behind an operand.
#[cycle(expression)]
fn suffixes(
    alloc: Global,
    depth: usize,
    at: u32,
    turns: usize,
    operand: Expr,
    tokens: &[Token<'_>],
    from: usize,
) -> Read<Expr>
    ensures { Reads (suffixes (expr_at depth) at turns operand) tokens.now from result }
{
    let mut base = operand;
    let mut rest = from;
    for _turn in 0..turns {
        if begins_suffix(tokens, rest) {
            let (next, more) = suffix(alloc, depth, at, base, tokens, rest)?;
            base = next;
            rest = more;
        } else {
            return Ok((base, rest));
        }
    }
    Err(Misread::Form(rest))
}

#[cycle(expression)]
fn suffix(
    alloc: Global,
    depth: usize,
    at: u32,
    base: Expr,
    tokens: &[Token<'_>],
    from: usize,
) -> Read<Expr>
    ensures { Reads (suffix_with (expr_at depth) at base) tokens.now from result }
{
    match front_of(tokens, from) {
        Some((token, _)) => match token.kind {
            Kind::Tight => index(alloc, depth, at, base, tokens, from),
            Kind::Sign => selection(alloc, depth, at, base, tokens, from),
            _ => Err(Misread::Form(from)),
        },
        None => Err(Misread::Form(from)),
    }
}

#[cycle(expression)]
#[tactic(auto, unfolding(pp_readers::specs::Expressions::index_with))]
fn index(
    alloc: Global,
    depth: usize,
    at: u32,
    base: Expr,
    tokens: &[Token<'_>],
    from: usize,
) -> Read<Expr>
    ensures { Reads (index_with (expr_at depth) at base) tokens.now from result }
{
    let (_, rest) = expect(Kind::Tight, "[", tokens, from)?;
    let (key, rest) = enclosed(alloc, depth, "]", tokens, rest)?;
    let e = indexed(alloc, at, base, key)?;
    Ok((e, rest))
}

#[cycle(expression)]
#[tactic(auto, unfolding(pp_readers::specs::Expressions::selection_with))]
fn selection(
    alloc: Global,
    depth: usize,
    at: u32,
    base: Expr,
    tokens: &[Token<'_>],
    from: usize,
) -> Read<Expr>
    ensures { Reads (selection_with (expr_at depth) at base) tokens.now from result }
{
    let (found, rest) = choices(alloc, depth, tokens, from)?;
    let e = selected(alloc, at, base, found)?;
    Ok((e, rest))
}

#[cycle(expression)]
#[tactic(auto, unfolding(pp_readers::specs::Expressions::choices_with))]
fn choices(
    alloc: Global,
    depth: usize,
    tokens: &[Token<'_>],
    from: usize,
) -> Read<Seq<(Option<Expr>, Expr)>>
    ensures { Reads (choices_with (expr_at depth)) tokens.now from result }
{
    let (_, rest) = expect(Kind::Sign, "?", tokens, from)?;
    let (_, rest) = expect(Kind::Sign, "{", tokens, rest)?;
    some_choices(alloc, depth, turns(tokens, rest), tokens, rest)
}

#[cycle(expression)]
fn some_choices(
    alloc: Global,
    depth: usize,
    turns: usize,
    tokens: &[Token<'_>],
    from: usize,
) -> Read<Seq<(Option<Expr>, Expr)>>
    ensures { Reads (items (codes "}") (choice_with (expr_at depth)) turns) tokens.now from result }
{
    let mut found = Seq::new(alloc);
    let mut rest = from;
    for _turn in 0..turns {
        let (item, more) = choice(alloc, depth, tokens, rest)?;
        found.push(item)?;
        let (ends, more) = separator("}", tokens, more)?;
        if ends {
            return Ok((found, more));
        }
        rest = more;
    }
    Err(Misread::Form(rest))
}

#[cycle(expression)]
#[tactic(auto, unfolding(pp_readers::specs::Expressions::choice_with))]
fn choice(
    alloc: Global,
    depth: usize,
    tokens: &[Token<'_>],
    from: usize,
) -> Read<(Option<Expr>, Expr)>
    ensures { Reads (choice_with (expr_at depth)) tokens.now from result }
{
    let (key, rest) = option(alloc, depth, tokens, from)?;
    let (_, rest) = expect(Kind::Sign, "=>", tokens, rest)?;
    let (value, rest) = expr(alloc, depth, tokens, rest)?;
    Ok(((key, value), rest))
}

/// An expression or `default`.
#[cycle(expression)]
fn option(alloc: Global, depth: usize, tokens: &[Token<'_>], from: usize) -> Read<Option<Expr>>
    ensures { Reads (option_with (expr_at depth)) tokens.now from result }
{
    if let Some((_, rest)) = mark(Kind::Keyword, "default", tokens, from) {
        return Ok((None, rest));
    }
    let (e, rest) = expr(alloc, depth, tokens, from)?;
    Ok((Some(e), rest))
}

#[cycle(expression)]
#[tactic(auto, unfolding(pp_readers::specs::Expressions::pair_with))]
fn pair(alloc: Global, depth: usize, tokens: &[Token<'_>], from: usize) -> Read<(Expr, Expr)>
    ensures { Reads (pair_with (expr_at depth)) tokens.now from result }
{
    let (key, rest) = expr(alloc, depth, tokens, from)?;
    let (_, rest) = expect(Kind::Sign, "=>", tokens, rest)?;
    let (value, rest) = expr(alloc, depth, tokens, rest)?;
    Ok(((key, value), rest))
}

/// An expression, and the sign that closes it.
#[cycle(expression)]
#[tactic(auto, unfolding(pp_readers::specs::Expressions::enclosed_with))]
fn enclosed(
    alloc: Global,
    depth: usize,
    close: &str,
    tokens: &[Token<'_>],
    from: usize,
) -> Read<Expr>
    ensures { Reads (enclosed_with (expr_at depth) close.now) tokens.now from result }
{
    let (e, rest) = expr(alloc, depth, tokens, from)?;
    let (_, rest) = expect(Kind::Sign, close, tokens, rest)?;
    Ok((e, rest))
}

/// Behind an item of a list that this sign closes: whether the list ends here, and the index behind
/// the comma or the sign.
pub fn separator(close: &str, tokens: &[Token<'_>], from: usize) -> Read<bool>
    ensures { Reads (separator close.now) tokens.now from result }
{
    if let Some((_, rest)) = mark(Kind::Sign, close, tokens, from) {
        return Ok((true, rest));
    }
    let (_, behind) = expect(Kind::Sign, ",", tokens, from)?;
    if let Some((_, rest)) = mark(Kind::Sign, close, tokens, behind) {
        return Ok((true, rest));
    }
    Ok((false, behind))
}

/// Expressions with commas between them, and the sign that closes them.
#[cycle(expression)]
fn exprs(
    alloc: Global,
    depth: usize,
    close: &str,
    turns: usize,
    tokens: &[Token<'_>],
    from: usize,
) -> Read<Seq<Expr>>
    ensures { Reads (items close.now (expr_at depth) turns) tokens.now from result }
{
    let mut found = Seq::new(alloc);
    let mut rest = from;
    for _turn in 0..turns {
        let (item, more) = expr(alloc, depth, tokens, rest)?;
        found.push(item)?;
        let (ends, more) = separator(close, tokens, more)?;
        if ends {
            return Ok((found, more));
        }
        rest = more;
    }
    Err(Misread::Form(rest))
}

#[cycle(expression)]
fn maybe_exprs(
    alloc: Global,
    depth: usize,
    close: &str,
    tokens: &[Token<'_>],
    from: usize,
) -> Read<Seq<Expr>>
    ensures { Reads (maybe_items close.now (expr_at depth) (length (drop from (lexemes_of tokens.now)) + 1)) tokens.now from result }
{
    if let Some((_, rest)) = mark(Kind::Sign, close, tokens, from) {
        return Ok((Seq::new(alloc), rest));
    }
    exprs(alloc, depth, close, turns(tokens, from), tokens, from)
}

#[cycle(expression)]
fn pairs(
    alloc: Global,
    depth: usize,
    turns: usize,
    tokens: &[Token<'_>],
    from: usize,
) -> Read<Seq<(Expr, Expr)>>
    ensures { Reads (items (codes "}") (pair_with (expr_at depth)) turns) tokens.now from result }
{
    let mut found = Seq::new(alloc);
    let mut rest = from;
    for _turn in 0..turns {
        let (item, more) = pair(alloc, depth, tokens, rest)?;
        found.push(item)?;
        let (ends, more) = separator("}", tokens, more)?;
        if ends {
            return Ok((found, more));
        }
        rest = more;
    }
    Err(Misread::Form(rest))
}

#[cycle(expression)]
fn maybe_pairs(
    alloc: Global,
    depth: usize,
    tokens: &[Token<'_>],
    from: usize,
) -> Read<Seq<(Expr, Expr)>>
    ensures { Reads (maybe_items (codes "}") (pair_with (expr_at depth))
        (length (drop from (lexemes_of tokens.now)) + 1)) tokens.now from result }
{
    if let Some((_, rest)) = mark(Kind::Sign, "}", tokens, from) {
        return Ok((Seq::new(alloc), rest));
    }
    pairs(alloc, depth, turns(tokens, from), tokens, from)
}

/// A list in brackets.
#[cycle(expression)]
#[tactic(auto, unfolding(pp_readers::specs::Expressions::list_with))]
fn list(alloc: Global, depth: usize, tokens: &[Token<'_>], from: usize) -> Read<Expr>
    ensures { Reads (list_with (expr_at depth)) tokens.now from result }
{
    let (at, rest) = expect(Kind::Loose, "[", tokens, from)?;
    let (found, rest) = maybe_exprs(alloc, depth, "]", tokens, rest)?;
    let form = Form::List(found);
    Ok((Expr { at, form }, rest))
}

/// A map in braces.
#[cycle(expression)]
#[tactic(auto, unfolding(pp_readers::specs::Expressions::map_with))]
fn map(alloc: Global, depth: usize, tokens: &[Token<'_>], from: usize) -> Read<Expr>
    ensures { Reads (map_with (expr_at depth)) tokens.now from result }
{
    let (at, rest) = expect(Kind::Sign, "{", tokens, from)?;
    let (found, rest) = maybe_pairs(alloc, depth, tokens, rest)?;
    let form = Form::Map(found);
    Ok((Expr { at, form }, rest))
}

/// What a reference refers to, in brackets.
#[cycle(expression)]
#[tactic(auto, unfolding(pp_readers::specs::Expressions::titles_with))]
fn titles(alloc: Global, depth: usize, tokens: &[Token<'_>], from: usize) -> Read<Seq<Expr>>
    ensures { Reads (titles_with (expr_at depth)) tokens.now from result }
{
    let (_, rest) = expect(Kind::Tight, "[", tokens, from)?;
    exprs(alloc, depth, "]", turns(tokens, rest), tokens, rest)
}

/// A reference with its titles.
#[cycle(expression)]
pub fn reference(alloc: Global, depth: usize, tokens: &[Token<'_>], from: usize) -> Read<Expr>
    ensures { Reads (reference_with (expr_at depth)) tokens.now from result }
{
    match front_of(tokens, from) {
        Some((token, rest)) => match token.kind {
            Kind::Ref => {
                let (found, rest) = titles(alloc, depth, tokens, rest)?;
                let e = referred(alloc, token.at, token.text, found)?;
                Ok((e, rest))
            }
            _ => Err(Misread::Form(from)),
        },
        None => Err(Misread::Form(from)),
    }
}

/// A token that is an operand by itself.
fn atom_of(alloc: Global, index: usize, token: &Token<'_>) -> Result<Expr, Misread>
    ensures { Gives (λ x. x) result (atom_of (lexeme_of token.now)) }
{
    let form = atom(alloc, index, token.kind, token.text)?;
    Ok(Expr { at: token.at, form })
}

fn atom_at(alloc: Global, tokens: &[Token<'_>], from: usize) -> Read<Expr>
    ensures { Reads (λ ts. atom_in (front_of ts)) tokens.now from result }
{
    match front_of(tokens, from) {
        Some((token, rest)) => {
            let e = atom_of(alloc, from, token)?;
            Ok((e, rest))
        }
        None => Err(Misread::Form(from)),
    }
}

#[cycle(expression)]
fn opened(alloc: Global, depth: usize, tokens: &[Token<'_>], from: usize) -> Read<Expr>
    ensures { Reads (λ ts. opened_or (expr_at depth) (mark kind.Sign (codes "(") ts) ts) tokens.now from result }
{
    if let Some((_, rest)) = mark(Kind::Sign, "(", tokens, from) {
        return enclosed(alloc, depth, ")", tokens, rest);
    }
    map(alloc, depth, tokens, from)
}

#[cycle(expression)]
fn primary(alloc: Global, depth: usize, tokens: &[Token<'_>], from: usize) -> Read<Expr>
    ensures { Reads (primary_with (expr_at depth)) tokens.now from result }
{
    match front_of(tokens, from) {
        Some((token, _)) => match token.kind {
            Kind::DqOpen => double(alloc, depth, tokens, from),
            Kind::Sign => opened(alloc, depth, tokens, from),
            Kind::Loose => list(alloc, depth, tokens, from),
            Kind::Ref => reference(alloc, depth, tokens, from),
            _ => atom_at(alloc, tokens, from),
        },
        None => Err(Misread::Form(from)),
    }
}

/// A text in quotes.
pub fn string(alloc: Global, depth: usize, tokens: &[Token<'_>], from: usize) -> Read<Expr>
    ensures { Reads (string_with (expr_at depth)) tokens.now from result }
{
    match front_of(tokens, from) {
        Some((token, _)) => match token.kind {
            Kind::Sq => atom_at(alloc, tokens, from),
            Kind::DqOpen => double(alloc, depth, tokens, from),
            _ => Err(Misread::Form(from)),
        },
        None => Err(Misread::Form(from)),
    }
}

#[cycle(expression)]
#[tactic(auto, unfolding(pp_readers::specs::Expressions::double_with))]
fn double(alloc: Global, depth: usize, tokens: &[Token<'_>], from: usize) -> Read<Expr>
    ensures { Reads (double_with (expr_at depth)) tokens.now from result }
{
    let (at, rest) = expect(Kind::DqOpen, "\"", tokens, from)?;
    quoted(alloc, depth, at, tokens, rest)
}

#[cycle(expression)]
#[tactic(auto, unfolding(pp_readers::specs::Expressions::quoted_with))]
fn quoted(alloc: Global, depth: usize, at: u32, tokens: &[Token<'_>], from: usize) -> Read<Expr>
    ensures { Reads (quoted_with (expr_at depth) at) tokens.now from result }
{
    let ((found, part), rest) = members(alloc, depth, turns(tokens, from), tokens, from)?;
    let e = joined(alloc, from, at, found, part)?;
    Ok((e, rest))
}

fn any_of(one: bool, other: bool) -> bool
    ensures { result ≡ one || other }
{
    one || other
}

/// The members of a text to its closing quote, and whether a variable or an expression is among them.
#[cycle(expression)]
fn members(
    alloc: Global,
    depth: usize,
    turns: usize,
    tokens: &[Token<'_>],
    from: usize,
) -> Read<(Seq<Expr>, bool)>
    ensures { Reads (members (expr_at depth) turns) tokens.now from result }
{
    let mut found = Seq::new(alloc);
    let mut part = false;
    let mut rest = from;
    for _turn in 0..turns {
        if let Some((_, behind)) = mark(Kind::DqClose, "\"", tokens, rest) {
            return Ok(((found, part), behind));
        }
        let ((e, is_part), more) = member(alloc, depth, tokens, rest)?;
        found.push(e)?;
        let either = any_of(part, is_part);
        part = either;
        rest = more;
    }
    Err(Misread::Form(rest))
}

#[cycle(expression)]
fn member(alloc: Global, depth: usize, tokens: &[Token<'_>], from: usize) -> Read<(Expr, bool)>
    ensures { Reads (member_with (expr_at depth)) tokens.now from result }
{
    match front_of(tokens, from) {
        Some((token, rest)) => match token.kind {
            Kind::DqText => {
                let form = Form::Str(dq(alloc, tokens.len(), token.text)?);
                Ok(((Expr { at: token.at, form }, false), rest))
            }
            Kind::DqVar => {
                let form = Form::Var(name_of(alloc, tokens.len(), token.text)?);
                Ok(((Expr { at: token.at, form }, true), rest))
            }
            Kind::Hole => {
                let (e, rest) = part(alloc, depth, tokens, from)?;
                Ok(((e, true), rest))
            }
            _ => Err(Misread::Form(from)),
        },
        None => Err(Misread::Form(from)),
    }
}

/// An expression between `${` and `}`.
#[cycle(expression)]
#[tactic(auto, unfolding(pp_readers::specs::Expressions::part_with))]
fn part(alloc: Global, depth: usize, tokens: &[Token<'_>], from: usize) -> Read<Expr>
    ensures { Reads (part_with (expr_at depth)) tokens.now from result }
{
    let (_, rest) = expect(Kind::Hole, "${", tokens, from)?;
    hole(alloc, depth, tokens, rest)
}

#[cycle(expression)]
#[tactic(auto, unfolding(pp_readers::specs::Expressions::hole_with))]
fn hole(alloc: Global, depth: usize, tokens: &[Token<'_>], from: usize) -> Read<Expr>
    ensures { Reads (hole_with (expr_at depth)) tokens.now from result }
{
    let (e, rest) = inner(alloc, depth, tokens, from)?;
    let (_, rest) = expect(Kind::HoleEnd, "}", tokens, rest)?;
    Ok((e, rest))
}

#[cycle(expression)]
#[tactic(auto, unfolding(pp_readers::specs::Expressions::inner_with))]
fn inner(alloc: Global, depth: usize, tokens: &[Token<'_>], from: usize) -> Read<Expr>
    ensures { Reads (inner_with (expr_at depth)) tokens.now from result }
{
    let (e, rest) = expr(alloc, depth, tokens, from)?;
    if begins_word(tokens, from) {
        let e = as_variable(alloc, e)?;
        return Ok((e, rest));
    }
    Ok((e, rest))
}
