//! The token at an index: which one it is, and which operator.
ghost use Rattle.std.specs.Prelude.{◌≡◌, ◌+◌, ◌<◌, ◌≤◌, drop, length, IfOk, IfSome};
ghost use Rattle.std.specs.Option.{option_map};
ghost use Rattle.pp_syntax.specs.Lexing.{lexemes_of, lexeme_of};
ghost use Rattle.pp_readers.specs.Marks.{front_of, first_at, mark, sign_operator, keyword_operator, operator_of, infix_at, sign_prefix, prefix_of, prefix_at, is_suffix, begins_suffix};
ghost use Rattle.pp_readers.specs.Parsed.{Reads, Sees};
ghost use Rattle.pp_readers.specs.Expressions.{begins_word, prefixes};

use pp_readers::{Misread, Read};
use pp_syntax::{Kind, Op, Token, op_among};
use rh_base::{NoMemory, Seq};
use std::alloc::Global;

/// The token at this index, and the index behind it.
pub fn front_of<'a, 't>(tokens: &'a [Token<'t>], from: usize) -> Option<(&'a Token<'t>, usize)>
    ensures is { option_map (λ x. (lexeme_of x.0.now, drop x.1 (lexemes_of tokens.now))) result ≡ front_of (drop from (lexemes_of tokens.now)) }
    ensures behind { IfSome result (λ x. (x.1 ≡ from + 1) × (from < length tokens.now)) }
{
    let token = tokens.get(from)?;
    Some((token, from + 1))
}

/// One more than the number of tokens from this index on.
pub fn turns(tokens: &[Token<'_>], from: usize) -> usize
    ensures { result ≡ length (drop from (lexemes_of tokens.now)) + 1 }
{
    tokens.len().saturating_sub(from) + 1
}

/// Where the token of this kind and text stands that is at this index, and the index behind it.
pub fn mark(kind: Kind, text: &str, tokens: &[Token<'_>], from: usize) -> Option<(u32, usize)>
    ensures { Sees (mark kind text.now) tokens.now from result }
{
    let (token, rest) = front_of(tokens, from)?;
    let same = token.kind == kind;
    let spelled = token.text == text;
    if same && spelled {
        Some((token.at, rest))
    } else {
        None
    }
}

/// The same, where nothing else goes on.
pub fn expect(kind: Kind, text: &str, tokens: &[Token<'_>], from: usize) -> Read<u32>
    ensures { Reads (mark kind text.now) tokens.now from result }
{
    mark(kind, text, tokens, from).ok_or(Misread::Form(from))
}

/// Where the token at this index stands.
pub fn first_at(tokens: &[Token<'_>], from: usize) -> u32
    ensures { result ≡ first_at (drop from (lexemes_of tokens.now)) }
{
    match front_of(tokens, from) {
        Some((token, _)) => token.at,
        None => 0,
    }
}

/// A WORD stands at this index.
pub fn begins_word(tokens: &[Token<'_>], from: usize) -> bool
    ensures { result ≡ begins_word (drop from (lexemes_of tokens.now)) }
{
    match front_of(tokens, from) {
        Some((token, _)) => matches!(token.kind, Kind::Word),
        None => false,
    }
}

fn sign_operator(text: &str) -> Option<Op>
    ensures { result ≡ sign_operator text.now }
{
    let signs = [
        Op::Less,
        Op::Greater,
        Op::AtMost,
        Op::AtLeast,
        Op::Same,
        Op::NotSame,
        Op::Plus,
        Op::Minus,
        Op::Times,
    ];
    op_among(&signs, text)
}

fn keyword_operator(text: &str) -> Option<Op>
    ensures { result ≡ keyword_operator text.now }
{
    op_among(&[Op::Or, Op::And, Op::In], text)
}

fn operator_of(kind: Kind, text: &str) -> Option<Op>
    ensures { result ≡ operator_of kind text.now }
{
    match kind {
        Kind::Sign => sign_operator(text),
        Kind::Keyword => keyword_operator(text),
        _ => None,
    }
}

/// The operator of this level that is at the front.
pub fn infix_at(level: u32, tokens: &[Token<'_>], from: usize) -> Option<(Op, usize)>
    ensures { Sees (infix_at level) tokens.now from result }
{
    let (token, rest) = front_of(tokens, from)?;
    let op = operator_of(token.kind, token.text)?;
    if op.level() == level {
        Some((op, rest))
    } else {
        None
    }
}

fn sign_prefix(text: &str) -> Option<Op>
    ensures { result ≡ sign_prefix text.now }
{
    op_among(&[Op::Not, Op::Minus], text)
}

fn prefix_of(kind: Kind, text: &str) -> Option<Op>
    ensures { result ≡ prefix_of kind text.now }
{
    match kind {
        Kind::Sign => sign_prefix(text),
        _ => None,
    }
}

fn is_suffix(kind: Kind, text: &str) -> bool
    ensures { result ≡ is_suffix kind text.now }
{
    match kind {
        Kind::Tight => text == "[",
        Kind::Sign => text == "?",
        _ => false,
    }
}

/// What stands at this index indexes what is in front of it, or selects by it.
pub fn begins_suffix(tokens: &[Token<'_>], from: usize) -> bool
    ensures { result ≡ begins_suffix (drop from (lexemes_of tokens.now)) }
{
    match front_of(tokens, from) {
        Some((token, _)) => is_suffix(token.kind, token.text),
        None => false,
    }
}

fn prefix_at(tokens: &[Token<'_>], from: usize) -> Option<(Op, usize)>
    ensures is { Sees prefix_at tokens.now from result }
    ensures behind { IfSome result (λ x. (from < x.1) × (x.1 ≤ length tokens.now)) }
{
    let (token, rest) = front_of(tokens, from)?;
    let op = prefix_of(token.kind, token.text)?;
    Some((op, rest))
}

/// All `!` and `-` from this index on.
pub fn prefixes(
    alloc: Global,
    tokens: &[Token<'_>],
    from: usize,
) -> Result<(Seq<Op>, usize), NoMemory>
    ensures { IfOk result (λ x. (x.0, drop x.1 (lexemes_of tokens.now)) ≡ prefixes (drop from (lexemes_of tokens.now))) }
{
    let mut found = Seq::new(alloc);
    let mut rest = from;
    while let Some((op, more)) = prefix_at(tokens, rest) {
        found.push(op)?;
        rest = more;
    }
    Ok((found, rest))
}
