//! The words of the types of parameters.
ghost use Rattle.std.specs.Prelude.{◌≡◌, ◌++◌, codes, OnOk};
ghost use Rattle.pp_print.specs.Words.{number, comma, quoted, in_tight, listed};
ghost use Rattle.pp_print.specs.Statements.{text_bounds, number_bounds, type_word, member_by, type_words};

use crate::words::Words;
use pp_syntax::{Kind, TypeName};
use rh_base::{Boxed, NoMemory, Text};

fn type_word(words: &mut Words, name: &str) -> Result<(), NoMemory>
    ensures { OnOk result (words.new ≡ words.old ++ type_word name.now) }
{
    words.push(Kind::Ref, name.as_bytes())
}

/// One bound in brackets.
fn bound(words: &mut Words, least: i64) -> Result<(), NoMemory>
    ensures { OnOk result (words.new ≡ words.old ++ in_tight (number least)) }
{
    words.push(Kind::Tight, b"[")?;
    words.number(least)?;
    words.sign("]")
}

/// Both bounds in brackets.
fn bounds(words: &mut Words, least: i64, most: i64) -> Result<(), NoMemory>
    ensures { OnOk result (words.new ≡ words.old ++ in_tight (number least ++ (comma ++ number most))) }
{
    words.push(Kind::Tight, b"[")?;
    words.number(least)?;
    words.sign(",")?;
    words.number(most)?;
    words.sign("]")
}

fn text_bounds(words: &mut Words, least: i64, most: Option<i64>) -> Result<(), NoMemory>
    ensures { OnOk result (words.new ≡ words.old ++ text_bounds least most) }
{
    match most {
        Some(most) => bounds(words, least, most),
        None => {
            if least.unsigned_abs() == 0 {
                return Ok(());
            }
            bound(words, least)
        }
    }
}

fn number_bounds(words: &mut Words, least: Option<i64>, most: Option<i64>) -> Result<(), NoMemory>
    ensures { OnOk result (words.new ≡ words.old ++ number_bounds least most) }
{
    match least {
        None => Ok(()),
        Some(least) => match most {
            None => bound(words, least),
            Some(most) => bounds(words, least, most),
        },
    }
}

fn text_type(words: &mut Words, least: i64, most: Option<i64>) -> Result<(), NoMemory>
    ensures { OnOk result (words.new ≡ words.old ++ (type_word (codes "String") ++ text_bounds least most)) }
{
    type_word(words, "String")?;
    text_bounds(words, least, most)
}

fn number_type(words: &mut Words, least: Option<i64>, most: Option<i64>) -> Result<(), NoMemory>
    ensures { OnOk result (words.new ≡ words.old ++ (type_word (codes "Integer") ++ number_bounds least most)) }
{
    type_word(words, "Integer")?;
    number_bounds(words, least, most)
}

fn texts(words: &mut Words, all: &[Text]) -> Result<(), NoMemory>
    ensures { OnOk result (words.new ≡ words.old ++ listed quoted all.now) }
{
    let Some((first, more)) = all.split_first() else {
        return Ok(());
    };
    words.quoted(first.as_str())?;
    for t in more {
        words.sign(",")?;
        words.quoted(t.as_str())?;
    }
    Ok(())
}

fn enumeration(words: &mut Words, all: &[Text]) -> Result<(), NoMemory>
    ensures { OnOk result (words.new ≡ words.old ++ (type_word (codes "Enum") ++ in_tight (listed quoted all.now))) }
{
    type_word(words, "Enum")?;
    words.push(Kind::Tight, b"[")?;
    texts(words, all)?;
    words.sign("]")
}

/// The type of a parameter.
#[cycle(types)]
#[tactic(auto, using(crate::proofs::Blocks::types))]
pub fn type_name(words: &mut Words, t: &TypeName) -> Result<(), NoMemory>
    ensures { OnOk result (words.new ≡ words.old ++ type_words t.now) }
{
    match t {
        TypeName::Any => type_word(words, "Any"),
        TypeName::Boolean => type_word(words, "Boolean"),
        TypeName::Hash => type_word(words, "Hash"),
        TypeName::Str { least, most } => text_type(words, *least, *most),
        TypeName::Int { least, most } => number_type(words, *least, *most),
        TypeName::Array(member) => array(words, member),
        TypeName::Optional(member) => of_member(words, "Optional", member.get()),
        TypeName::Enum(texts) => enumeration(words, texts.as_slice()),
        TypeName::Variant(members) => variant(words, members.as_slice()),
    }
}

/// A type with its member in brackets.
#[cycle(types)]
fn of_member(words: &mut Words, name: &str, member: &TypeName) -> Result<(), NoMemory>
    ensures { OnOk result (words.new ≡ words.old ++ (type_word name.now ++ in_tight (type_words member.now))) }
{
    type_word(words, name)?;
    words.push(Kind::Tight, b"[")?;
    type_name(words, member)?;
    words.sign("]")
}

#[cycle(types)]
fn array(words: &mut Words, member: &Option<Boxed<TypeName>>) -> Result<(), NoMemory>
    ensures { OnOk result (words.new ≡ words.old ++ (type_word (codes "Array") ++ member_by type_words member.now)) }
{
    match member {
        None => type_word(words, "Array"),
        Some(t) => of_member(words, "Array", t.get()),
    }
}

#[cycle(types)]
fn members(words: &mut Words, all: &[TypeName]) -> Result<(), NoMemory>
    ensures { OnOk result (words.new ≡ words.old ++ listed type_words all.now) }
{
    let Some((first, more)) = all.split_first() else {
        return Ok(());
    };
    type_name(words, first)?;
    for t in more {
        words.sign(",")?;
        type_name(words, t)?;
    }
    Ok(())
}

#[cycle(types)]
fn variant(words: &mut Words, all: &[TypeName]) -> Result<(), NoMemory>
    ensures { OnOk result (words.new ≡ words.old ++ (type_word (codes "Variant") ++ in_tight (listed type_words all.now))) }
{
    type_word(words, "Variant")?;
    words.push(Kind::Tight, b"[")?;
    members(words, all)?;
    words.sign("]")
}
