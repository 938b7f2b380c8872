//! The words of expressions.
ghost use Rattle.std.specs.Prelude.{◌≡◌, ◌+◌, ◌<◌, ◌++◌, codes, if◌then◌else◌, OnOk};
ghost use Rattle.std.specs.List.{flat_map};
ghost use Rattle.pp_syntax.specs.declared.token.Kind.TheVariants as kind;
ghost use Rattle.pp_print.specs.Words.{sign, keyword, in_parens, in_loose, in_braces, in_tight, listed};
ghost use Rattle.pp_print.specs.Expressions.{printed, expr_words, at_level, indexed, option_by, operator, level_in, pair_by, choice_by, hole_by, operation_by, joined_by, refer_by, prefix_by};

use crate::words::Words;
use pp_syntax::{Expr, Form, Kind, Op};
use rh_base::NoMemory;

/// The level of a chain with these operators.
fn level_in(more: &[(Op, Expr)]) -> u32
    ensures value { result ≡ level_in more.now }
    ensures most { result < 9 }
{
    match more.split_first() {
        Some((o, _)) => o.0.level(),
        None => 8,
    }
}

/// The level of an expression's operators.
#[tactic(auto, using(crate::proofs::Forms::forms))]
fn level(e: &Expr) -> u32
    ensures { result ≡ (printed e.now).level }
{
    match &e.form {
        Form::Chain(_, more) => level_in(more.as_slice()),
        Form::Prefix(_, _) => 7,
        Form::Int(_)
        | Form::Str(_)
        | Form::Var(_)
        | Form::Bool(_)
        | Form::Undef
        | Form::List(_)
        | Form::Map(_)
        | Form::Refer(_, _)
        | Form::Join(_)
        | Form::Index(_, _)
        | Form::Select(_, _) => 8,
    }
}

/// A `[` directly behind the expression is tight.
#[tactic(auto, using(crate::proofs::Forms::forms))]
fn is_indexable(e: &Expr) -> bool
    ensures { result ≡ (printed e.now).indexable }
{
    match &e.form {
        Form::Str(_)
        | Form::Var(_)
        | Form::List(_)
        | Form::Refer(_, _)
        | Form::Join(_)
        | Form::Index(_, _) => true,
        Form::Int(_)
        | Form::Bool(_)
        | Form::Undef
        | Form::Map(_)
        | Form::Chain(_, _)
        | Form::Prefix(_, _)
        | Form::Select(_, _) => false,
    }
}

fn operator(words: &mut Words, op: Op) -> Result<(), NoMemory>
    ensures { OnOk result (words.new ≡ words.old ++ operator op) }
{
    words.push(op.kind(), op.symbol().as_bytes())
}

fn operators(words: &mut Words, ops: &[Op]) -> Result<(), NoMemory>
    ensures { OnOk result (words.new ≡ words.old ++ flat_map operator ops.now) }
{
    for op in ops {
        operator(words, *op)?;
    }
    Ok(())
}

fn truth(words: &mut Words, b: bool) -> Result<(), NoMemory>
    ensures { OnOk result (words.new ≡ words.old ++ keyword (if b then codes "true" else codes "false")) }
{
    words.keyword(if b { "true" } else { "false" })
}

/// An expression, without brackets round it.
#[cycle(expression)]
#[tactic(auto, using(crate::proofs::Forms::forms))]
pub fn expr(words: &mut Words, e: &Expr) -> Result<(), NoMemory>
    ensures { OnOk result (words.new ≡ words.old ++ expr_words e.now) }
{
    match &e.form {
        Form::Int(n) => words.number(*n),
        Form::Str(text) => words.quoted(text.as_str()),
        Form::Var(name) => words.variable(name.as_str()),
        Form::Bool(b) => truth(words, *b),
        Form::Undef => words.keyword("undef"),
        Form::List(members) => list(words, members.as_slice()),
        Form::Map(pairs) => map(words, pairs.as_slice()),
        Form::Refer(name, titles) => refer(words, name.as_str(), titles.as_slice()),
        Form::Join(members) => join(words, members.as_slice()),
        Form::Chain(first, more) => {
            let level = level_in(more.as_slice());
            at_level(words, level + 1, first.get())?;
            operations(words, level, more.as_slice())
        }
        Form::Prefix(ops, x) => prefix(words, ops.as_slice(), x.get()),
        Form::Index(base, key) => {
            indexed(words, base.get())?;
            index(words, key.get())
        }
        Form::Select(base, choices) => {
            at_level(words, 8, base.get())?;
            selection(words, choices.as_slice())
        }
    }
}

/// An expression in brackets.
#[cycle(expression)]
fn enclosed(words: &mut Words, e: &Expr) -> Result<(), NoMemory>
    ensures { OnOk result (words.new ≡ words.old ++ in_parens (expr_words e.now)) }
{
    words.sign("(")?;
    expr(words, e)?;
    words.sign(")")
}

/// An expression where operators of this level, and those that bind tighter, need no brackets.
#[cycle(expression)]
pub fn at_level(words: &mut Words, least: u32, e: &Expr) -> Result<(), NoMemory>
    ensures { OnOk result (words.new ≡ words.old ++ at_level least (printed e.now)) }
{
    if least <= level(e) {
        expr(words, e)
    } else {
        enclosed(words, e)
    }
}

/// An expression before an index.
#[cycle(expression)]
fn indexed(words: &mut Words, e: &Expr) -> Result<(), NoMemory>
    ensures { OnOk result (words.new ≡ words.old ++ indexed (printed e.now)) }
{
    if is_indexable(e) {
        expr(words, e)
    } else {
        enclosed(words, e)
    }
}

/// Expressions with commas between them.
#[cycle(expression)]
pub fn exprs(words: &mut Words, es: &[Expr]) -> Result<(), NoMemory>
    ensures { OnOk result (words.new ≡ words.old ++ listed expr_words es.now) }
{
    let Some((first, more)) = es.split_first() else {
        return Ok(());
    };
    expr(words, first)?;
    for e in more {
        words.sign(",")?;
        expr(words, e)?;
    }
    Ok(())
}

#[cycle(expression)]
fn list(words: &mut Words, members: &[Expr]) -> Result<(), NoMemory>
    ensures { OnOk result (words.new ≡ words.old ++ in_loose (listed expr_words members.now)) }
{
    words.push(Kind::Loose, b"[")?;
    exprs(words, members)?;
    words.sign("]")
}

#[cycle(expression)]
fn pair(words: &mut Words, p: &(Expr, Expr)) -> Result<(), NoMemory>
    ensures { OnOk result (words.new ≡ words.old ++ pair_by printed p.now) }
{
    expr(words, &p.0)?;
    words.sign("=>")?;
    expr(words, &p.1)
}

#[cycle(expression)]
fn map(words: &mut Words, pairs: &[(Expr, Expr)]) -> Result<(), NoMemory>
    ensures { OnOk result (words.new ≡ words.old ++ in_braces (listed (pair_by printed) pairs.now)) }
{
    words.sign("{")?;
    all_pairs(words, pairs)?;
    words.sign("}")
}

#[cycle(expression)]
fn all_pairs(words: &mut Words, pairs: &[(Expr, Expr)]) -> Result<(), NoMemory>
    ensures { OnOk result (words.new ≡ words.old ++ listed (pair_by printed) pairs.now) }
{
    let Some((first, more)) = pairs.split_first() else {
        return Ok(());
    };
    pair(words, first)?;
    for p in more {
        words.sign(",")?;
        pair(words, p)?;
    }
    Ok(())
}

/// A reference of this kind.
#[cycle(expression)]
fn refer(words: &mut Words, name: &str, titles: &[Expr]) -> Result<(), NoMemory>
    ensures { OnOk result (words.new ≡ words.old ++ refer_by printed name.now titles.now) }
{
    words.push(Kind::Ref, name.as_bytes())?;
    words.push(Kind::Tight, b"[")?;
    exprs(words, titles)?;
    words.sign("]")
}

/// A member of a text in double quotes.
#[cycle(expression)]
fn hole(words: &mut Words, e: &Expr) -> Result<(), NoMemory>
    ensures { OnOk result (words.new ≡ words.old ++ hole_by printed e.now) }
{
    words.push(Kind::Hole, b"${")?;
    expr(words, e)?;
    words.push(Kind::HoleEnd, b"}")
}

#[cycle(expression)]
fn holes(words: &mut Words, members: &[Expr]) -> Result<(), NoMemory>
    ensures { OnOk result (words.new ≡ words.old ++ flat_map (hole_by printed) members.now) }
{
    for e in members {
        hole(words, e)?;
    }
    Ok(())
}

#[cycle(expression)]
fn join(words: &mut Words, members: &[Expr]) -> Result<(), NoMemory>
    ensures { OnOk result (words.new ≡ words.old ++ joined_by printed members.now) }
{
    words.push(Kind::DqOpen, b"\"")?;
    holes(words, members)?;
    words.push(Kind::DqClose, b"\"")
}

/// Operators of this level, each with its right operand.
#[cycle(expression)]
fn operations(words: &mut Words, level: u32, more: &[(Op, Expr)]) -> Result<(), NoMemory>
    requires { level < 9 }
    ensures { OnOk result (words.new ≡ words.old ++ flat_map (operation_by printed level) more.now) }
{
    for o in more {
        operation(words, level, o)?;
    }
    Ok(())
}

#[cycle(expression)]
fn operation(words: &mut Words, level: u32, o: &(Op, Expr)) -> Result<(), NoMemory>
    requires { level < 9 }
    ensures { OnOk result (words.new ≡ words.old ++ operation_by printed level o.now) }
{
    operator(words, o.0)?;
    at_level(words, level + 1, &o.1)
}

#[cycle(expression)]
fn prefix(words: &mut Words, ops: &[Op], x: &Expr) -> Result<(), NoMemory>
    ensures { OnOk result (words.new ≡ words.old ++ prefix_by printed ops.now x.now) }
{
    operators(words, ops)?;
    at_level(words, 8, x)
}

#[cycle(expression)]
fn index(words: &mut Words, key: &Expr) -> Result<(), NoMemory>
    ensures { OnOk result (words.new ≡ words.old ++ in_tight (expr_words key.now)) }
{
    words.push(Kind::Tight, b"[")?;
    expr(words, key)?;
    words.sign("]")
}

/// An expression, or `default`.
#[cycle(expression)]
pub fn option(words: &mut Words, e: &Option<Expr>) -> Result<(), NoMemory>
    ensures { OnOk result (words.new ≡ words.old ++ option_by expr_words e.now) }
{
    match e {
        None => words.keyword("default"),
        Some(e) => expr(words, e),
    }
}

#[cycle(expression)]
fn choice(words: &mut Words, c: &(Option<Expr>, Expr)) -> Result<(), NoMemory>
    ensures { OnOk result (words.new ≡ words.old ++ choice_by printed c.now) }
{
    option(words, &c.0)?;
    words.sign("=>")?;
    expr(words, &c.1)
}

#[cycle(expression)]
fn choices(words: &mut Words, all: &[(Option<Expr>, Expr)]) -> Result<(), NoMemory>
    ensures { OnOk result (words.new ≡ words.old ++ listed (choice_by printed) all.now) }
{
    let Some((first, more)) = all.split_first() else {
        return Ok(());
    };
    choice(words, first)?;
    for c in more {
        words.sign(",")?;
        choice(words, c)?;
    }
    Ok(())
}

#[cycle(expression)]
fn selection(words: &mut Words, all: &[(Option<Expr>, Expr)]) -> Result<(), NoMemory>
    ensures { OnOk result (words.new ≡ words.old ++ (sign (codes "?") ++ in_braces (listed (choice_by printed) all.now))) }
{
    words.sign("?")?;
    words.sign("{")?;
    choices(words, all)?;
    words.sign("}")
}
