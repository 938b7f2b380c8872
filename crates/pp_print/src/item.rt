//! The words of what stands at the top of a manifest.
ghost use Rattle.std.specs.Prelude.{◌≡◌, ◌++◌, OnOk};
ghost use Rattle.std.specs.List.{flat_map};
ghost use Rattle.pp_syntax.specs.declared.token.Kind.TheVariants as kind;
ghost use Rattle.pp_syntax.specs.declared.tree.Item.TheVariants as item;
ghost use Rattle.pp_print.specs.Words.{quoted, listed};
ghost use Rattle.pp_print.specs.Expressions.{option_by};
ghost use Rattle.pp_print.specs.Statements.{maybe_type, default_words, param_words, params_words, parent_words, item_words};

use crate::expression::expr;
use crate::resource::attrs;
use crate::statement::{block, stmt};
use crate::types::type_name;
use crate::words::Words;
use pp_syntax::{Attr, Expr, Item, Kind, Param, Stmt, TypeName};
use rh_base::{NoMemory, Text};

fn maybe_type(words: &mut Words, t: &Option<TypeName>) -> Result<(), NoMemory>
    ensures { OnOk result (words.new ≡ words.old ++ maybe_type t.now) }
{
    match t {
        None => Ok(()),
        Some(t) => type_name(words, t),
    }
}

fn default(words: &mut Words, value: &Option<Expr>) -> Result<(), NoMemory>
    ensures { OnOk result (words.new ≡ words.old ++ default_words value.now) }
{
    match value {
        None => Ok(()),
        Some(e) => {
            words.sign("=")?;
            expr(words, e)
        }
    }
}

fn param(words: &mut Words, p: &Param) -> Result<(), NoMemory>
    ensures { OnOk result (words.new ≡ words.old ++ param_words p.now) }
{
    maybe_type(words, &p.kind)?;
    words.var(p.name.as_str())?;
    default(words, &p.default)
}

/// Parameters with commas between them.
fn some_params(words: &mut Words, all: &[Param]) -> Result<(), NoMemory>
    ensures { OnOk result (words.new ≡ words.old ++ listed param_words all.now) }
{
    let Some((first, more)) = all.split_first() else {
        return Ok(());
    };
    param(words, first)?;
    for p in more {
        words.sign(",")?;
        param(words, p)?;
    }
    Ok(())
}

fn params(words: &mut Words, all: &[Param]) -> Result<(), NoMemory>
    ensures { OnOk result (words.new ≡ words.old ++ params_words all.now) }
{
    match all {
        [] => Ok(()),
        [_, ..] => {
            words.sign("(")?;
            some_params(words, all)?;
            words.sign(")")
        }
    }
}

fn parent(words: &mut Words, name: &Option<Text>) -> Result<(), NoMemory>
    ensures { OnOk result (words.new ≡ words.old ++ parent_words name.now) }
{
    match name {
        None => Ok(()),
        Some(name) => {
            words.keyword("inherits")?;
            words.push(Kind::Word, name.as_str().as_bytes())
        }
    }
}

fn node_name(words: &mut Words, name: &Option<Text>) -> Result<(), NoMemory>
    ensures { OnOk result (words.new ≡ words.old ++ option_by quoted name.now) }
{
    match name {
        None => words.keyword("default"),
        Some(name) => words.quoted(name.as_str()),
    }
}

fn node_names(words: &mut Words, all: &[Option<Text>]) -> Result<(), NoMemory>
    ensures { OnOk result (words.new ≡ words.old ++ listed (option_by quoted) all.now) }
{
    let Some((first, more)) = all.split_first() else {
        return Ok(());
    };
    node_name(words, first)?;
    for name in more {
        words.sign(",")?;
        node_name(words, name)?;
    }
    Ok(())
}

fn class(
    words: &mut Words,
    name: &str,
    all: &[Param],
    base: &Option<Text>,
    body: &[Stmt],
) -> Result<(), NoMemory>
    ensures { OnOk result (words.new ≡ words.old ++ item_words (item.Class 0 name.now all.now base.now body.now)) }
{
    words.keyword("class")?;
    words.push(Kind::Word, name.as_bytes())?;
    params(words, all)?;
    parent(words, base)?;
    block(words, body)
}

fn define(words: &mut Words, name: &str, all: &[Param], body: &[Stmt]) -> Result<(), NoMemory>
    ensures { OnOk result (words.new ≡ words.old ++ item_words (item.Define 0 name.now all.now body.now)) }
{
    words.keyword("define")?;
    words.push(Kind::Word, name.as_bytes())?;
    params(words, all)?;
    block(words, body)
}

fn node(words: &mut Words, names: &[Option<Text>], body: &[Stmt]) -> Result<(), NoMemory>
    ensures { OnOk result (words.new ≡ words.old ++ item_words (item.Node 0 names.now body.now)) }
{
    words.keyword("node")?;
    node_names(words, names)?;
    block(words, body)
}

fn defaults(words: &mut Words, name: &str, all: &[Attr]) -> Result<(), NoMemory>
    ensures { OnOk result (words.new ≡ words.old ++ item_words (item.Defaults 0 name.now all.now)) }
{
    words.push(Kind::Ref, name.as_bytes())?;
    words.sign("{")?;
    attrs(words, all)?;
    words.sign("}")
}

fn item(words: &mut Words, y: &Item) -> Result<(), NoMemory>
    ensures { OnOk result (words.new ≡ words.old ++ item_words y.now) }
{
    match y {
        Item::Class {
            at: _,
            name,
            params,
            parent,
            body,
        } => class(
            words,
            name.as_str(),
            params.as_slice(),
            parent,
            body.as_slice(),
        ),
        Item::Define {
            at: _,
            name,
            params,
            body,
        } => define(words, name.as_str(), params.as_slice(), body.as_slice()),
        Item::Node { at: _, names, body } => node(words, names.as_slice(), body.as_slice()),
        Item::Defaults { at: _, kind, attrs } => defaults(words, kind.as_str(), attrs.as_slice()),
        Item::Plain(s) => stmt(words, s),
    }
}

/// The words of a manifest's items.
pub fn items(words: &mut Words, all: &[Item]) -> Result<(), NoMemory>
    ensures { OnOk result (words.new ≡ words.old ++ flat_map item_words all.now) }
{
    for y in all {
        item(words, y)?;
    }
    Ok(())
}
