//! What is answered to a text, as the rows have it.
ghost use Rattle.std.specs.Prelude.{◌<◌, ◌^◌, length};

use pp_parser::parse;
use pp_print::print;
use pp_syntax::{Manifest, Token, lex};
use rh_base::{Fault, NoMemory};
use std::alloc::Global;
use std::test::Fail;
use test_rows::{joined, refused, same};

/// The canonical text of what a text spells, behind what was written before.
fn print_behind(alloc: Global, text: &[u8], into: &mut Vec<u8>) -> Result<(), Fault>
    requires { length text.now < 2 ^ 32 }
{
    let tokens = lex(alloc, text)?;
    let manifest = parse(alloc, &tokens)?;
    Ok(print(alloc, &manifest, into)?)
}

/// What was written before, with the canonical text of what a text spells behind it, or the refusal.
fn printed_into(alloc: Global, mut into: Vec<u8>, text: &str) -> Result<String, Fail>
    requires { length text.now < 2 ^ 32 }
{
    match print_behind(alloc, text.as_bytes(), &mut into) {
        Ok(()) => Ok(String::from_utf8(into)?),
        Err(fault) => Ok(refused(alloc, &fault)?),
    }
}

fn bytes_of(alloc: Global, text: &str) -> Result<Vec<u8>, NoMemory> {
    let mut bytes = Vec::new(alloc);
    bytes.extend_from_slice(text.as_bytes())?;
    Ok(bytes)
}

fn printed_behind(alloc: Global, front: &str, text: &str) -> Result<String, Fail> {
    if text.len() > 100_000 {
        return Err(Fail::from("a long text"));
    }
    printed_into(alloc, bytes_of(alloc, front)?, text)
}

/// The canonical text of what a text spells, behind a front, or the refusal, is this.
pub fn is_printed_behind(alloc: Global, front: &str, text: &str, want: &str) -> Result<(), Fail> {
    let printed = printed_behind(alloc, front, text)?;
    same(alloc, text, printed.as_str(), want)
}

/// Each row: a text, and its canonical text, or the refusal.
pub fn are_printed(alloc: Global, rows: &[(&str, &str)]) -> Result<(), Fail> {
    for (text, want) in rows {
        is_printed_behind(alloc, "", *text, *want)?;
    }
    Ok(())
}

/// A token as `4:Word(ntp)`.
fn token_text(alloc: Global, token: &Token<'_>) -> Result<String, NoMemory> {
    Ok(format!(in alloc; "{}:{:?}({}) ", token.at, token.kind, token.text)?)
}

fn push_token(alloc: Global, token: &Token<'_>, line: &mut String) -> Result<(), NoMemory> {
    let text = token_text(alloc, token)?;
    line.push_str(text.as_str())?;
    Ok(())
}

fn line_of_tokens(alloc: Global, tokens: &[Token<'_>]) -> Result<String, NoMemory> {
    let mut line = String::new(alloc);
    for token in tokens {
        push_token(alloc, token, &mut line)?;
    }
    Ok(line)
}

/// The tokens of a text with their places and kinds, or the refusal.
fn tokens_told(alloc: Global, text: &[u8]) -> Result<String, NoMemory>
    requires { length text.now < 2 ^ 32 }
{
    match lex(alloc, text) {
        Ok(tokens) => line_of_tokens(alloc, &tokens),
        Err(fault) => refused(alloc, &fault),
    }
}

fn tokens_of(alloc: Global, text: &[u8]) -> Result<String, Fail> {
    if text.len() > 100_000 {
        return Err(Fail::from("a long text"));
    }
    Ok(tokens_told(alloc, text)?)
}

/// The tokens of bytes, or the refusal, are these.
pub fn is_told(alloc: Global, row: &str, text: &[u8], want: &str) -> Result<(), Fail> {
    let told = tokens_of(alloc, text)?;
    same(alloc, row, told.as_str(), want)
}

/// Each row: a text, and its tokens, or the refusal.
pub fn are_tokens(alloc: Global, rows: &[(&str, &str)]) -> Result<(), Fail> {
    for (text, want) in rows {
        is_told(alloc, *text, text.as_bytes(), *want)?;
    }
    Ok(())
}

fn manifest_of(alloc: Global, text: &[u8]) -> Result<Manifest, Fault>
    requires { length text.now < 2 ^ 32 }
{
    let tokens = lex(alloc, text)?;
    parse(alloc, &tokens)
}

/// The refusal of a text, or `none`.
fn refusal_told(alloc: Global, text: &str) -> Result<String, NoMemory>
    requires { length text.now < 2 ^ 32 }
{
    match manifest_of(alloc, text.as_bytes()) {
        Ok(_) => joined(alloc, &["none"]),
        Err(fault) => refused(alloc, &fault),
    }
}

pub fn refusal_of(alloc: Global, text: &str) -> Result<String, Fail> {
    if text.len() > 100_000 {
        return Err(Fail::from("a long text"));
    }
    Ok(refusal_told(alloc, text)?)
}
