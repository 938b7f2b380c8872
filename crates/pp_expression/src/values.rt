//! The values of tokens that are operands by themselves.
ghost use Rattle.std.specs.Prelude.{◌≡◌, ◌<◌, ◌≤◌, ◌∷◌, ◌++◌, length, IfOk, MatchOption, Some, string_bytes};
ghost use Rattle.pp_syntax.specs.declared.tree.Form.TheVariants as form;
ghost use Rattle.pp_syntax.specs.TokenValues.{sq_value, sq_escaped};
ghost use Rattle.std.specs.Option.{option_map};
ghost use Rattle.pp_syntax.specs.Tokens.{int_value};
ghost use Rattle.pp_readers.specs.Parsed.{Gives};
ghost use Rattle.pp_readers.specs.Values.{literal, number, behind_byte, before_quote, sq, name_of, int_form, atom, HasNoBackslash};

use pp_readers::Misread;
use pp_syntax::{Form, Kind, int_value};
use rh_base::{NoMemory, Text};
use std::alloc::{AllocError, Global};

/// A copy of a text.
pub fn text_of(alloc: Global, text: &str) -> Result<Text, NoMemory>
    ensures { IfOk result (λ t. t ≡ text.now) }
{
    let mut copy = Text::new(alloc);
    copy.push(text)?;
    Ok(copy)
}

fn literal(text: &str) -> Option<Form>
    ensures { result ≡ literal text.now }
{
    if text == "true" {
        Some(Form::Bool(true))
    } else if text == "false" {
        Some(Form::Bool(false))
    } else if text == "undef" {
        Some(Form::Undef)
    } else {
        None
    }
}

/// What is left behind this ASCII character.
pub(crate) fn behind(text: &str, c: char) -> Option<&str>
    requires { c < 128 }
    ensures { option_map (λ r. r.now) result ≡ behind_byte c text.now }
{
    text.strip_prefix(c)
}

fn before_quote(text: &str) -> Option<&str>
    ensures { option_map (λ r. r.now) result ≡ before_quote text.now }
{
    text.strip_suffix('\'')
}

/// The name of a variable.
pub fn name_of(alloc: Global, index: usize, text: &str) -> Result<Text, Misread>
    ensures { Gives (λ t. t) result (name_of text.now) }
{
    let name = behind(text, '$').ok_or(Misread::Form(index))?;
    Ok(text_of(alloc, name)?)
}

fn variable(alloc: Global, index: usize, text: &str) -> Result<Form, Misread>
    ensures { Gives (λ t. t) result (option_map form.Var (name_of text.now)) }
{
    Ok(Form::Var(name_of(alloc, index, text)?))
}

fn word(alloc: Global, text: &str) -> Result<Form, Misread>
    ensures { Gives (λ t. t) result (Some (form.Str text.now)) }
{
    Ok(Form::Str(text_of(alloc, text)?))
}

fn single(alloc: Global, index: usize, text: &str) -> Result<Form, Misread>
    ensures { Gives (λ t. t) result (option_map form.Str (sq text.now)) }
{
    Ok(Form::Str(sq(alloc, index, text)?))
}

/// The form of a token that is an operand by itself.
pub fn atom(alloc: Global, index: usize, kind: Kind, text: &str) -> Result<Form, Misread>
    ensures { Gives (λ f. f) result (atom kind text.now) }
{
    match kind {
        Kind::Int => int_form(text).ok_or(Misread::Form(index)),
        Kind::Sq => single(alloc, index, text),
        Kind::Word => word(alloc, text),
        Kind::Var => variable(alloc, index, text),
        Kind::Keyword => literal(text).ok_or(Misread::Form(index)),
        _ => Err(Misread::Form(index)),
    }
}

fn int_form(text: &str) -> Option<Form>
    ensures { result ≡ int_form text.now }
{
    match int_value(text.as_bytes()) {
        Some(value) => Some(Form::Int(value as i64)),
        None => None,
    }
}

/// The number that an INT stands for, if it fits 64 bits with a sign.
pub fn number(text: &str) -> Option<i64>
    ensures { result ≡ number text.now }
{
    match int_value(text.as_bytes()) {
        Some(value) => Some(value as i64),
        None => None,
    }
}

/// What stands before the first backslash, and behind it.
pub(crate) fn cut(text: &str) -> Option<(&str, &str)>
    ensures { MatchOption result (HasNoBackslash text.now) (λ x. (text.now ≡ x.0.now ++ 92 ∷ x.1.now)
        × HasNoBackslash x.0.now × (length x.1.now < length text.now)) }
{
    text.split_once('\\')
}

/// The character that a backslash before this text stands for, and what is behind its escape.
fn escape_sq(text: &str) -> (char, &str)
    ensures value { sq_escaped text.now ≡ result.0 ∷ sq_value result.1.now }
    ensures ascii { result.0 < 128 }
    ensures shorter { length result.1.now ≤ length text.now }
{
    if let Some(rest) = behind(text, '\\') {
        ('\\', rest)
    } else if let Some(rest) = behind(text, '\'') {
        ('\'', rest)
    } else {
        ('\\', text)
    }
}

/// The value of what stands between single quotes.
#[tactic(auto, using(pp_readers::proofs::Escapes::one_escape, pp_readers::proofs::Escapes::at_end))]
fn unescaped(alloc: Global, raw: &str) -> Result<String, AllocError>
    ensures { IfOk result (λ s. string_bytes s ≡ sq_value raw.now) }
{
    let mut value = String::new(alloc);
    let mut rest = raw;
    while let Some((front, tail)) = cut(rest) {
        value.push_str(front)?;
        let (c, more) = escape_sq(tail);
        value.push(c)?;
        rest = more;
    }
    value.push_str(rest)?;
    Ok(value)
}

/// The value of a text with its single quotes.
#[tactic(auto, unfolding(pp_readers::specs::Values::sq))]
pub fn sq(alloc: Global, index: usize, text: &str) -> Result<Text, Misread>
    ensures { Gives (λ t. t) result (sq text.now) }
{
    let rest = behind(text, '\'').ok_or(Misread::Form(index))?;
    let raw = before_quote(rest).ok_or(Misread::Form(index))?;
    sq_of(alloc, raw)
}

fn sq_of(alloc: Global, raw: &str) -> Result<Text, Misread>
    ensures { Gives (λ t. t) result (Some (sq_value raw.now)) }
{
    match unescaped(alloc, raw) {
        Ok(value) => Ok(Text::from_string(value)),
        Err(_) => Err(Misread::Memory(NoMemory)),
    }
}
