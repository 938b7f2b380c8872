//! The parser of searches.
ghost use Rattle.std.specs.Prelude.{◌≡◌, ◌+◌, codes, [], ◌∷◌, length};
ghost use Rattle.pp_syntax.specs.declared.token.Kind.TheVariants as kind;
ghost use Rattle.pp_readers.specs.Parsed.{Gives, Reads};
ghost use Rattle.pp_readers.specs.Expressions.{with_front, expr_at, postfix_with};
ghost use Rattle.pp_readers.specs.Combining.{behind, before};
ghost use Rattle.pp_readers.specs.Statements.{equal_with, differ_with, compared_with, comparison_with, atom_with, only, are_many, all_of, ands_with, conjunction_with, any_of, ors_with, search_with, search_at, sought_with};

use crate::expressions::postfix;
use crate::marks::{begins, name};
use crate::parser::Parser;
use pp_expression::{expect, mark, turns};
use pp_readers::{Misread, Read};
use pp_syntax::{Kind, Search};
use rh_base::{Seq, Text};

fn equal(parser: &Parser<'_>, name: Text, from: usize) -> Read<Search>
    ensures { Reads (equal_with (postfix_with (expr_at parser.now.limit)) name) parser.now.tokens.now from result }
{
    let (value, rest) = postfix(parser, from)?;
    Ok((Search::Equal(name, value), rest))
}

fn differ(parser: &Parser<'_>, name: Text, from: usize) -> Read<Search>
    ensures { Reads (differ_with (postfix_with (expr_at parser.now.limit)) name) parser.now.tokens.now from result }
{
    let (_, rest) = expect(Kind::Sign, "!=", parser.tokens, from)?;
    let (value, rest) = postfix(parser, rest)?;
    Ok((Search::Differ(name, value), rest))
}

/// What stands behind an attribute's name.
fn compared(parser: &Parser<'_>, name: Text, from: usize) -> Read<Search>
    ensures { Reads (compared_with (postfix_with (expr_at parser.now.limit)) name) parser.now.tokens.now from result }
{
    if let Some((_, rest)) = mark(Kind::Sign, "==", parser.tokens, from) {
        return equal(parser, name, rest);
    }
    differ(parser, name, from)
}

fn comparison(parser: &Parser<'_>, from: usize) -> Read<Search>
    ensures { Reads (comparison_with (postfix_with (expr_at parser.now.limit))) parser.now.tokens.now from result }
{
    let (name, rest) = name(parser, from)?;
    compared(parser, name, rest)
}

#[cycle(search)]
fn enclosed(parser: &Parser<'_>, depth: usize, from: usize) -> Read<Search>
    ensures { Reads (before (search_at (postfix_with (expr_at parser.now.limit)) depth) kind.Sign (codes ")"))
        parser.now.tokens.now from result }
{
    let (found, rest) = search(parser, depth, from)?;
    let (_, rest) = expect(Kind::Sign, ")", parser.tokens, rest)?;
    Ok((found, rest))
}

#[cycle(search)]
fn atom(parser: &Parser<'_>, depth: usize, from: usize) -> Read<Search>
    ensures { Reads (atom_with (postfix_with (expr_at parser.now.limit)) (search_at (postfix_with (expr_at parser.now.limit)) depth))
        parser.now.tokens.now from result }
{
    if let Some((_, rest)) = mark(Kind::Sign, "(", parser.tokens, from) {
        return enclosed(parser, depth, rest);
    }
    comparison(parser, from)
}

#[cycle(search)]
fn next_atom(parser: &Parser<'_>, depth: usize, from: usize) -> Read<Search>
    ensures { Reads (behind kind.Keyword (codes "and")
        (atom_with (postfix_with (expr_at parser.now.limit))
        (search_at (postfix_with (expr_at parser.now.limit)) depth))) parser.now.tokens.now from result }
{
    let (_, rest) = expect(Kind::Keyword, "and", parser.tokens, from)?;
    atom(parser, depth, rest)
}

#[cycle(search)]
fn ands(parser: &Parser<'_>, depth: usize, first: Search, from: usize) -> Read<Seq<Search>>
    ensures { Reads (λ ts. with_front (first ∷ [])
        (ands_with (postfix_with (expr_at parser.now.limit))
        (search_at (postfix_with (expr_at parser.now.limit)) depth) (length ts + 1) ts)) parser.now.tokens.now from result }
{
    let mut found = Seq::new(parser.alloc);
    found.push(first)?;
    let mut rest = from;
    for _turn in 0..turns(parser.tokens, from) {
        if !begins(Kind::Keyword, "and", parser.tokens, rest) {
            return Ok((found, rest));
        }
        let (item, more) = next_atom(parser, depth, rest)?;
        found.push(item)?;
        rest = more;
    }
    Err(Misread::Form(rest))
}

#[cycle(search)]
fn conjunction(parser: &Parser<'_>, depth: usize, from: usize) -> Read<Search>
    ensures { Reads (conjunction_with (postfix_with (expr_at parser.now.limit))
        (search_at (postfix_with (expr_at parser.now.limit)) depth)) parser.now.tokens.now from result }
{
    let (first, rest) = atom(parser, depth, from)?;
    let (found, rest) = ands(parser, depth, first, rest)?;
    let all = all_of(from, found)?;
    Ok((all, rest))
}

#[cycle(search)]
fn next_conjunction(parser: &Parser<'_>, depth: usize, from: usize) -> Read<Search>
    ensures { Reads (behind kind.Keyword (codes "or")
        (conjunction_with (postfix_with (expr_at parser.now.limit))
        (search_at (postfix_with (expr_at parser.now.limit)) depth))) parser.now.tokens.now from result }
{
    let (_, rest) = expect(Kind::Keyword, "or", parser.tokens, from)?;
    conjunction(parser, depth, rest)
}

#[cycle(search)]
fn ors(parser: &Parser<'_>, depth: usize, first: Search, from: usize) -> Read<Seq<Search>>
    ensures { Reads (λ ts. with_front (first ∷ [])
        (ors_with (postfix_with (expr_at parser.now.limit))
        (search_at (postfix_with (expr_at parser.now.limit)) depth) (length ts + 1) ts)) parser.now.tokens.now from result }
{
    let mut found = Seq::new(parser.alloc);
    found.push(first)?;
    let mut rest = from;
    for _turn in 0..turns(parser.tokens, from) {
        if !begins(Kind::Keyword, "or", parser.tokens, rest) {
            return Ok((found, rest));
        }
        let (item, more) = next_conjunction(parser, depth, rest)?;
        found.push(item)?;
        rest = more;
    }
    Err(Misread::Form(rest))
}

#[cycle(search)]
fn disjunction(parser: &Parser<'_>, depth: usize, from: usize) -> Read<Search>
    ensures { Reads (search_with (postfix_with (expr_at parser.now.limit)) (search_at (postfix_with (expr_at parser.now.limit)) depth))
        parser.now.tokens.now from result }
{
    let (first, rest) = conjunction(parser, depth, from)?;
    let (found, rest) = ors(parser, depth, first, rest)?;
    let any = any_of(from, found)?;
    Ok((any, rest))
}

/// A search, with brackets nested less deep than this.
#[cycle(search)]
fn search(parser: &Parser<'_>, depth: usize, from: usize) -> Read<Search>
    ensures { Reads (search_at (postfix_with (expr_at parser.now.limit)) depth) parser.now.tokens.now from result }
{
    if depth == 0 {
        return Err(Misread::Form(from));
    }
    disjunction(parser, depth - 1, from)
}

/// The search of a collector, or none.
pub fn sought(parser: &Parser<'_>, from: usize) -> Read<Option<Search>>
    ensures { Reads (sought_with (postfix_with (expr_at parser.now.limit))) parser.now.tokens.now from result }
{
    if begins(Kind::Sign, "|>", parser.tokens, from) {
        return Ok((None, from));
    }
    let (found, rest) = search(parser, turns(parser.tokens, from), from)?;
    Ok((Some(found), rest))
}

/// The one search that there is.
fn only(index: usize, found: Seq<Search>) -> Result<Search, Misread>
    ensures { Gives (λ x. x) result (only found) }
{
    let mut found = found.into_vec();
    match found.pop() {
        None => Err(Misread::Form(index)),
        Some(search) => {
            if !found.is_empty() {
                return Err(Misread::Form(index));
            }
            Ok(search)
        }
    }
}

fn are_many(found: &Seq<Search>) -> bool
    ensures { result ≡ are_many found.now }
{
    matches!(found.as_slice(), [_, _, ..])
}

/// All of these hold.
fn all_of(index: usize, found: Seq<Search>) -> Result<Search, Misread>
    ensures { Gives (λ x. x) result (all_of found) }
{
    if are_many(&found) {
        return Ok(Search::And(found));
    }
    only(index, found)
}

/// One of these holds.
fn any_of(index: usize, found: Seq<Search>) -> Result<Search, Misread>
    ensures { Gives (λ x. x) result (any_of found) }
{
    if are_many(&found) {
        return Ok(Search::Or(found));
    }
    only(index, found)
}
