//! The nodes of the trees of expressions.
ghost use Rattle.std.specs.Prelude.{◌≡◌, IfOk};
ghost use Rattle.pp_syntax.specs.declared.tree.Form.TheVariants as form;
ghost use Rattle.pp_readers.specs.Parsed.{Gives};
ghost use Rattle.pp_readers.specs.Expressions.{chain_of, prefixed, plain_of, joined, as_variable};

use crate::values::text_of;
use pp_readers::Misread;
use pp_syntax::{Expr, Form, Op};
use rh_base::{Boxed, NoMemory, Seq, Text};
use std::alloc::Global;

/// A chain of operators, or its one operand.
pub fn chain_of(
    alloc: Global,
    at: u32,
    first: Expr,
    more: Seq<(Op, Expr)>,
) -> Result<Expr, NoMemory>
    ensures { IfOk result (λ e. e ≡ chain_of at first more) }
{
    if more.is_empty() {
        return Ok(first);
    }
    let first = Boxed::new(alloc, first)?;
    let form = Form::Chain(first, more);
    Ok(Expr { at, form })
}

/// An operand with what stands before it, or the operand alone.
pub fn prefixed(alloc: Global, at: u32, ops: Seq<Op>, operand: Expr) -> Result<Expr, NoMemory>
    ensures { IfOk result (λ e. e ≡ prefixed at ops operand) }
{
    if ops.is_empty() {
        return Ok(operand);
    }
    let operand = Boxed::new(alloc, operand)?;
    let form = Form::Prefix(ops, operand);
    Ok(Expr { at, form })
}

/// An index into an operand.
pub fn indexed(alloc: Global, at: u32, base: Expr, key: Expr) -> Result<Expr, NoMemory>
    ensures { IfOk result (λ e. e ≡ record { at = at; form = form.Index base key }) }
{
    let base = Boxed::new(alloc, base)?;
    let key = Boxed::new(alloc, key)?;
    let form = Form::Index(base, key);
    Ok(Expr { at, form })
}

/// A reference.
pub fn referred(alloc: Global, at: u32, name: &str, titles: Seq<Expr>) -> Result<Expr, NoMemory>
    ensures { IfOk result (λ e. e ≡ record { at = at; form = form.Refer name.now titles }) }
{
    let name = text_of(alloc, name)?;
    let form = Form::Refer(name, titles);
    Ok(Expr { at, form })
}

/// A selection by an operand.
pub fn selected(
    alloc: Global,
    at: u32,
    base: Expr,
    choices: Seq<(Option<Expr>, Expr)>,
) -> Result<Expr, NoMemory>
    ensures { IfOk result (λ e. e ≡ record { at = at; form = form.Select base choices }) }
{
    let base = Boxed::new(alloc, base)?;
    let form = Form::Select(base, choices);
    Ok(Expr { at, form })
}

/// Text in double quotes that has no variables and expressions.
fn plain_of(alloc: Global, index: usize, at: u32, members: Seq<Expr>) -> Result<Expr, Misread>
    ensures { Gives (λ x. x) result (plain_of at members) }
{
    let mut members = members.into_vec();
    match members.pop() {
        None => Ok(Expr {
            at,
            form: Form::Str(Text::new(alloc)),
        }),
        Some(member) => {
            if !members.is_empty() {
                return Err(Misread::Form(index));
            }
            let Expr { at: _, form } = member;
            Ok(Expr { at, form })
        }
    }
}

/// A text in double quotes of these members; part: a variable or an expression is among them.
pub fn joined(
    alloc: Global,
    index: usize,
    at: u32,
    members: Seq<Expr>,
    part: bool,
) -> Result<Expr, Misread>
    ensures { Gives (λ x. x) result (joined at members part) }
{
    if part {
        return Ok(Expr {
            at,
            form: Form::Join(members),
        });
    }
    plain_of(alloc, index, at, members)
}

/// A text with nothing but indexes behind it, with the variable of that name in its place. Any other expression stays.
#[tactic(auto, using(pp_readers::proofs::Variables::at_as_variable))]
pub fn as_variable(alloc: Global, e: Expr) -> Result<Expr, NoMemory>
    ensures { IfOk result (λ v. v ≡ as_variable e) }
{
    let Expr { at, form } = e;
    match form {
        Form::Str(name) => Ok(Expr {
            at,
            form: Form::Var(name),
        }),
        Form::Index(base, key) => {
            let base = as_variable(alloc, base.into_inner())?;
            let base = Boxed::new(alloc, base)?;
            Ok(Expr {
                at,
                form: Form::Index(base, key),
            })
        }
        form => Ok(Expr { at, form }),
    }
}
