//! The words of statements.
ghost use Rattle.std.specs.Prelude.{◌≡◌, ◌∷◌, ◌++◌, codes, OnOk};
ghost use Rattle.std.specs.List.{flat_map, join_by};
ghost use Rattle.pp_syntax.specs.declared.token.Kind.TheVariants as kind;
ghost use Rattle.pp_syntax.specs.Statements.{word_of};
ghost use Rattle.pp_print.specs.Words.{word, sign, keyword, in_parens, in_braces, listed};
ghost use Rattle.pp_print.specs.Expressions.{expr_words, option_by};
ghost use Rattle.pp_print.specs.Statements.{stmt_words, block_words, else_by, arm_words, case_arm_words};

use crate::expression::{expr, exprs, option};
use crate::resource::chain;
use crate::words::Words;
use pp_syntax::{Arm, CaseArm, Expr, Func, Kind, Stmt};
use rh_base::NoMemory;

fn assign(words: &mut Words, name: &str, value: &Expr) -> Result<(), NoMemory>
    ensures { OnOk result (words.new ≡ words.old ++ (word kind.Var (36 ∷ name.now) ++ (sign (codes "=") ++ expr_words value.now))) }
{
    words.var(name)?;
    words.sign("=")?;
    expr(words, value)
}

fn call(words: &mut Words, func: Func, args: &[Expr]) -> Result<(), NoMemory>
    ensures { OnOk result (words.new ≡ words.old ++ (word kind.Word (word_of func) ++ in_parens (listed expr_words args.now))) }
{
    words.push(Kind::Word, func.word().as_bytes())?;
    words.sign("(")?;
    exprs(words, args)?;
    words.sign(")")
}

/// Expressions with commas between them; `None` is `default`.
fn options(words: &mut Words, all: &[Option<Expr>]) -> Result<(), NoMemory>
    ensures { OnOk result (words.new ≡ words.old ++ listed (option_by expr_words) all.now) }
{
    let Some((first, more)) = all.split_first() else {
        return Ok(());
    };
    option(words, first)?;
    for e in more {
        words.sign(",")?;
        option(words, e)?;
    }
    Ok(())
}

/// A statement.
#[cycle(statement)]
#[tactic(auto, using(crate::proofs::Blocks::statements))]
pub fn stmt(words: &mut Words, s: &Stmt) -> Result<(), NoMemory>
    ensures { OnOk result (words.new ≡ words.old ++ stmt_words s.now) }
{
    match s {
        Stmt::Chain {
            at: _,
            sides,
            arrows,
        } => chain(words, sides.as_slice(), arrows.as_slice()),
        Stmt::Assign { at: _, name, value } => assign(words, name.as_str(), value),
        Stmt::Call { at: _, func, args } => call(words, *func, args.as_slice()),
        Stmt::If { at: _, arms, other } => {
            conditions(words, arms.as_slice())?;
            otherwise(words, other.as_slice())
        }
        Stmt::Unless {
            at: _,
            test,
            body,
            other,
        } => {
            unless(words, body.as_slice(), test)?;
            otherwise(words, other.as_slice())
        }
        Stmt::Case { at: _, value, arms } => case(words, arms.as_slice(), value),
    }
}

#[cycle(statement)]
fn statements(words: &mut Words, body: &[Stmt]) -> Result<(), NoMemory>
    ensures { OnOk result (words.new ≡ words.old ++ flat_map stmt_words body.now) }
{
    for s in body {
        stmt(words, s)?;
    }
    Ok(())
}

/// Statements in braces.
#[cycle(statement)]
pub fn block(words: &mut Words, body: &[Stmt]) -> Result<(), NoMemory>
    ensures { OnOk result (words.new ≡ words.old ++ block_words body.now) }
{
    words.sign("{")?;
    statements(words, body)?;
    words.sign("}")
}

#[cycle(statement)]
fn otherwise(words: &mut Words, other: &[Stmt]) -> Result<(), NoMemory>
    ensures { OnOk result (words.new ≡ words.old ++ else_by stmt_words other.now) }
{
    match other {
        [] => Ok(()),
        [_, ..] => {
            words.keyword("else")?;
            block(words, other)
        }
    }
}

#[cycle(statement)]
fn arm(words: &mut Words, a: &Arm) -> Result<(), NoMemory>
    ensures { OnOk result (words.new ≡ words.old ++ arm_words a.now) }
{
    expr(words, &a.test)?;
    block(words, a.body.as_slice())
}

#[cycle(statement)]
fn conditions(words: &mut Words, arms: &[Arm]) -> Result<(), NoMemory>
    ensures { OnOk result (words.new ≡ words.old ++ (keyword (codes "if") ++ join_by arm_words (keyword (codes "elsif")) arms.now)) }
{
    words.keyword("if")?;
    let Some((first, more)) = arms.split_first() else {
        return Ok(());
    };
    arm(words, first)?;
    for a in more {
        words.keyword("elsif")?;
        arm(words, a)?;
    }
    Ok(())
}

#[cycle(statement)]
fn unless(words: &mut Words, body: &[Stmt], test: &Expr) -> Result<(), NoMemory>
    ensures { OnOk result (words.new ≡ words.old ++ (keyword (codes "unless") ++ (expr_words test.now ++ block_words body.now))) }
{
    words.keyword("unless")?;
    expr(words, test)?;
    block(words, body)
}

#[cycle(statement)]
fn case_arm(words: &mut Words, a: &CaseArm) -> Result<(), NoMemory>
    ensures { OnOk result (words.new ≡ words.old ++ case_arm_words a.now) }
{
    options(words, a.options.as_slice())?;
    words.sign(":")?;
    block(words, a.body.as_slice())
}

#[cycle(statement)]
fn case_arms(words: &mut Words, arms: &[CaseArm]) -> Result<(), NoMemory>
    ensures { OnOk result (words.new ≡ words.old ++ flat_map case_arm_words arms.now) }
{
    for a in arms {
        case_arm(words, a)?;
    }
    Ok(())
}

#[cycle(statement)]
fn case(words: &mut Words, arms: &[CaseArm], value: &Expr) -> Result<(), NoMemory>
    ensures { OnOk result (words.new ≡ words.old ++
        (keyword (codes "case") ++ (expr_words value.now ++ in_braces (flat_map case_arm_words arms.now)))) }
{
    words.keyword("case")?;
    expr(words, value)?;
    words.sign("{")?;
    case_arms(words, arms)?;
    words.sign("}")
}
