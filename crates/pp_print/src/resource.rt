//! The words of resources, collectors and references.
ghost use Rattle.std.specs.Prelude.{◌≡◌, ◌++◌, OnOk};
ghost use Rattle.pp_syntax.specs.declared.token.Kind.TheVariants as kind;
ghost use Rattle.pp_syntax.specs.declared.tree.Operand.TheVariants as operand;
ghost use Rattle.pp_print.specs.Words.{sign, in_loose, listed};
ghost use Rattle.pp_print.specs.Expressions.{expr_words};
ghost use Rattle.pp_print.specs.Statements.{attr_words, body_words, bodies_words, virtual_words, references, maybe_search, operand_words, arrow_words, links, chain_words};

use crate::expression::{expr, exprs};
use crate::search::maybe_search;
use crate::words::Words;
use pp_syntax::{Arrow, Attr, Body, Expr, Kind, Operand, Search};
use rh_base::NoMemory;

fn attr(words: &mut Words, a: &Attr) -> Result<(), NoMemory>
    ensures { OnOk result (words.new ≡ words.old ++ attr_words a.now) }
{
    words.named(a.name.as_str())?;
    words.sign("=>")?;
    expr(words, &a.value)
}

/// Attributes with commas between them.
pub fn attrs(words: &mut Words, all: &[Attr]) -> Result<(), NoMemory>
    ensures { OnOk result (words.new ≡ words.old ++ listed attr_words all.now) }
{
    let Some((first, more)) = all.split_first() else {
        return Ok(());
    };
    attr(words, first)?;
    for a in more {
        words.sign(",")?;
        attr(words, a)?;
    }
    Ok(())
}

fn body(words: &mut Words, b: &Body) -> Result<(), NoMemory>
    ensures { OnOk result (words.new ≡ words.old ++ body_words b.now) }
{
    expr(words, &b.title)?;
    words.sign(":")?;
    attrs(words, b.attrs.as_slice())
}

fn bodies(words: &mut Words, all: &[Body]) -> Result<(), NoMemory>
    ensures { OnOk result (words.new ≡ words.old ++ bodies_words all.now) }
{
    let Some((first, more)) = all.split_first() else {
        return Ok(());
    };
    body(words, first)?;
    for b in more {
        words.sign(";")?;
        body(words, b)?;
    }
    Ok(())
}

fn virtual_sign(words: &mut Words, is: bool) -> Result<(), NoMemory>
    ensures { OnOk result (words.new ≡ words.old ++ virtual_words is) }
{
    if is {
        return words.sign("@");
    }
    Ok(())
}

fn declared(words: &mut Words, is_virtual: bool, name: &str, all: &[Body]) -> Result<(), NoMemory>
    ensures { OnOk result (words.new ≡ words.old ++ operand_words (operand.Declare 0 is_virtual name.now all.now)) }
{
    virtual_sign(words, is_virtual)?;
    words.named(name)?;
    words.sign("{")?;
    bodies(words, all)?;
    words.sign("}")
}

fn collector(words: &mut Words, name: &str, s: &Option<Search>) -> Result<(), NoMemory>
    ensures { OnOk result (words.new ≡ words.old ++ operand_words (operand.Collect 0 name.now s.now)) }
{
    words.push(Kind::Ref, name.as_bytes())?;
    words.sign("<|")?;
    maybe_search(words, s)?;
    words.sign("|>")
}

fn in_loose(words: &mut Words, all: &[Expr]) -> Result<(), NoMemory>
    ensures { OnOk result (words.new ≡ words.old ++ in_loose (listed expr_words all.now)) }
{
    words.push(Kind::Loose, b"[")?;
    exprs(words, all)?;
    words.sign("]")
}

/// References, in brackets unless there is one.
fn references(words: &mut Words, all: &[Expr]) -> Result<(), NoMemory>
    ensures { OnOk result (words.new ≡ words.old ++ references all.now) }
{
    match all {
        [] => in_loose(words, all),
        [x] => expr(words, x),
        [_, _, ..] => in_loose(words, all),
    }
}

fn operand(words: &mut Words, y: &Operand) -> Result<(), NoMemory>
    ensures { OnOk result (words.new ≡ words.old ++ operand_words y.now) }
{
    match y {
        Operand::Declare {
            at: _,
            is_virtual,
            kind,
            bodies,
        } => declared(words, *is_virtual, kind.as_str(), bodies.as_slice()),
        Operand::Collect {
            at: _,
            kind,
            search,
        } => collector(words, kind.as_str(), search),
        Operand::Named(xs) => references(words, xs.as_slice()),
    }
}

fn arrow(words: &mut Words, a: Arrow) -> Result<(), NoMemory>
    ensures { OnOk result (words.new ≡ words.old ++ arrow_words a) }
{
    words.sign(a.symbol())
}

/// Arrows, each with the operand behind it.
fn links(words: &mut Words, arrows: &[Arrow], sides: &[Operand]) -> Result<(), NoMemory>
    ensures { OnOk result (words.new ≡ words.old ++ links arrows.now sides.now) }
{
    let mut rest = sides;
    for a in arrows {
        let Some((side, others)) = rest.split_first() else {
            return Ok(());
        };
        arrow(words, *a)?;
        operand(words, side)?;
        rest = others;
    }
    Ok(())
}

/// Operands with arrows between them.
pub fn chain(words: &mut Words, sides: &[Operand], arrows: &[Arrow]) -> Result<(), NoMemory>
    ensures { OnOk result (words.new ≡ words.old ++ chain_words sides.now arrows.now) }
{
    let Some((first, others)) = sides.split_first() else {
        return Ok(());
    };
    operand(words, first)?;
    links(words, arrows, others)
}
