//! The evaluation of expressions, from left to right.
//!
//! It walks the tree, and stops at the first refusal. Indexing lends along variables and indexes, and copies only what it
//! gives: a member of a value isn't made, so it isn't asked for its size either.

ghost use Rattle.std.specs.Prelude.{[], None, map, option_map};
ghost use Rattle.pp_syntax.specs.declared.tree.Op.TheVariants as op;
ghost use Rattle.pp_value.specs.declared.value.Value.TheVariants as v;
ghost use Rattle.pp_eval.specs.Scoping.{find_in};
ghost use Rattle.pp_eval.specs.Evaluating.{AnswersBy, Answers, Refuses};
ghost use Rattle.pp_eval.specs.Evaluation.{value_of, evaluated, pair_by, operand_by, choice_by, values_in, list_at, pair_in, keyed_in, map_at, references_in, refer_at, joined_to, as_truth, operated, chain_from, prefix_at, indexed, bound_to, is_equal, is_among, default_in, chosen, selected};
ghost use Rattle.pp_eval.specs.Lending.{Lends};

use crate::answers::{limited, no_option, no_result, text_at, unbound};
use crate::blame::{Blame, blamed};
use crate::lent::Lent;
use crate::operations::{compared, operate, prefixed_all, truth_at};
use crate::references::{add_references, one_or_list};
use crate::scopes::Scopes;
use crate::texts::{key_of, push_shown};
use pp_syntax::{Expr, Form, Op};
use pp_value::{Pairs, Value, member};
use rh_base::{Fault, Seq, Text};
use std::alloc::Global;

/// The value of an expression, or the one refusal that is due, with its place.
#[cycle(evaluation)]
#[tactic(auto, using(crate::proofs::Forms::forms, crate::proofs::Forms::chain_is, crate::proofs::Forms::index_is, crate::proofs::Forms::select_is))]
pub fn eval(alloc: Global, e: &Expr, scopes: &Scopes) -> Result<Value, Fault>
    ensures { Answers (value_of scopes.now e.now) result }
{
    match &e.form {
        Form::Int(n) => Ok(Value::Int(*n)),
        Form::Str(text) => text_at(alloc, e.at, text),
        Form::Var(name) => variable(alloc, e.at, name.as_str(), scopes),
        Form::Bool(b) => Ok(Value::Bool(*b)),
        Form::Undef => Ok(Value::Undef),
        Form::List(members) => list(alloc, e.at, members.as_slice(), scopes),
        Form::Map(members) => map(alloc, e.at, members.as_slice(), scopes),
        Form::Refer(kind, titles) => refer(alloc, e.at, kind.as_str(), titles.as_slice(), scopes),
        Form::Join(members) => join(alloc, e.at, members.as_slice(), scopes),
        Form::Chain(first, more) => {
            let value = eval(alloc, first.get(), scopes)?;
            chain(alloc, e.at, more.as_slice(), value, scopes)
        }
        Form::Prefix(ops, x) => prefix(alloc, e.at, ops.as_slice(), x.get(), scopes),
        Form::Index(base, key) => match lend(alloc, base.get(), scopes) {
            Ok(Lent::Found(base)) => copy_member(alloc, e.at, key.get(), base, scopes),
            Ok(Lent::Undef) => Err(no_member(alloc, e.at, key.get(), scopes)),
            Ok(Lent::Nothing) => {
                let base = eval(alloc, base.get(), scopes)?;
                copy_member(alloc, e.at, key.get(), &base, scopes)
            }
            Err(fault) => Err(fault),
        },
        Form::Select(control, choices) => {
            let value = eval(alloc, control.get(), scopes)?;
            select(alloc, e.at, choices.as_slice(), &value, scopes)
        }
    }
}

/// A copy of the value that a variable is bound to.
fn variable(alloc: Global, at: u32, name: &str, scopes: &Scopes) -> Result<Value, Fault>
    ensures { Answers (bound_to at name.now (find_in scopes.now name.now)) result }
{
    match scopes.find(name) {
        Some(value) => Ok(value.copy(alloc)?),
        None => Err(unbound(alloc, at, name)),
    }
}

/// The values of some expressions, from the left.
#[cycle(evaluation)]
#[tactic(auto, using(crate::proofs::Steps::nothing_before, crate::proofs::Steps::next_value))]
pub fn eval_all(alloc: Global, members: &[Expr], scopes: &Scopes) -> Result<Seq<Value>, Fault>
    ensures { AnswersBy (λ xs. xs) (values_in (map (evaluated scopes.now) members.now)) result }
{
    let mut values = Seq::new(alloc);
    for member in members {
        values.push(eval(alloc, member, scopes)?)?;
    }
    Ok(values)
}

/// A list of these members.
#[cycle(evaluation)]
fn list(alloc: Global, at: u32, members: &[Expr], scopes: &Scopes) -> Result<Value, Fault>
    ensures { Answers (list_at at (map (evaluated scopes.now) members.now)) result }
{
    let values = eval_all(alloc, members, scopes)?;
    limited(alloc, at, Value::list(alloc, values)?)
}

/// A key and its value.
#[cycle(evaluation)]
fn pair(alloc: Global, member: &(Expr, Expr), scopes: &Scopes) -> Result<(Text, Value), Fault>
    ensures { AnswersBy (λ p. p) (pair_in (evaluated scopes.now member.now.0) (evaluated scopes.now member.now.1)) result }
{
    let key = eval(alloc, &member.0, scopes)?;
    let key = key_of(alloc, member.0.at, key)?;
    let value = eval(alloc, &member.1, scopes)?;
    Ok((key, value))
}

/// Pairs of which the last with a key counts, in the place of the first.
#[cycle(evaluation)]
#[tactic(auto, using(crate::proofs::Steps::next_pair))]
fn pairs(alloc: Global, members: &[(Expr, Expr)], scopes: &Scopes) -> Result<Pairs, Fault>
    ensures { AnswersBy (λ p. p) (keyed_in (map (pair_by (evaluated scopes.now)) members.now)) result }
{
    let mut pairs = Pairs::new(alloc);
    for member in members {
        let (key, value) = pair(alloc, member, scopes)?;
        pairs.put(key, value)?;
    }
    Ok(pairs)
}

/// A map of these pairs.
#[cycle(evaluation)]
fn map(alloc: Global, at: u32, members: &[(Expr, Expr)], scopes: &Scopes) -> Result<Value, Fault>
    ensures { Answers (map_at at (map (pair_by (evaluated scopes.now)) members.now)) result }
{
    let pairs = pairs(alloc, members, scopes)?;
    limited(alloc, at, Value::Map(pairs))
}

/// The references of a kind to some titles.
#[cycle(evaluation)]
#[tactic(auto, using(crate::proofs::Steps::next_titles))]
fn references(
    alloc: Global,
    kind: &str,
    titles: &[Expr],
    scopes: &Scopes,
) -> Result<Seq<Value>, Fault>
    ensures { AnswersBy (λ xs. xs) (references_in kind.now (map (evaluated scopes.now) titles.now)) result }
{
    let mut references = Seq::new(alloc);
    for title in titles {
        let value = eval(alloc, title, scopes)?;
        add_references(alloc, title.at, kind, &value, &mut references)?;
    }
    Ok(references)
}

/// The reference to a title, or a list of those to any other number of them.
#[cycle(evaluation)]
fn refer(
    alloc: Global,
    at: u32,
    kind: &str,
    titles: &[Expr],
    scopes: &Scopes,
) -> Result<Value, Fault>
    ensures { Answers (refer_at at kind.now (map (evaluated scopes.now) titles.now)) result }
{
    let references = references(alloc, kind, titles, scopes)?;
    limited(alloc, at, one_or_list(alloc, references)?)
}

/// A text in double quotes of these members.
#[cycle(evaluation)]
fn join(alloc: Global, at: u32, members: &[Expr], scopes: &Scopes) -> Result<Value, Fault>
    ensures { Answers (joined_to at [] (map (evaluated scopes.now) members.now)) result }
{
    let mut text = Text::new(alloc);
    for member in members {
        let value = eval(alloc, member, scopes)?;
        push_shown(alloc, at, member.at, &value, &mut text)?;
    }
    Ok(Value::Str(text))
}

/// The truth of an operand that decides.
#[cycle(evaluation)]
fn truth(alloc: Global, at: u32, e: &Expr, scopes: &Scopes) -> Result<Value, Fault>
    ensures { Answers (as_truth at (value_of scopes.now e.now)) result }
{
    let value = eval(alloc, e, scopes)?;
    Ok(Value::Bool(truth_at(alloc, at, &value)?))
}

/// Whether both count: the right one is looked at only where the left one does.
#[cycle(evaluation)]
fn both(alloc: Global, at: u32, right: &Expr, left: &Value, scopes: &Scopes) -> Result<Value, Fault>
    ensures { Answers (operated at op.And left.now (value_of scopes.now right.now)) result }
{
    if truth_at(alloc, at, left)? {
        truth(alloc, at, right, scopes)
    } else {
        Ok(Value::Bool(false))
    }
}

/// Whether one of both counts: the right one is looked at only where the left one doesn't.
#[cycle(evaluation)]
fn either(
    alloc: Global,
    at: u32,
    right: &Expr,
    left: &Value,
    scopes: &Scopes,
) -> Result<Value, Fault>
    ensures { Answers (operated at op.Or left.now (value_of scopes.now right.now)) result }
{
    if truth_at(alloc, at, left)? {
        Ok(Value::Bool(true))
    } else {
        truth(alloc, at, right, scopes)
    }
}

/// The value of an operator between the value on its left and the operand on its right.
#[cycle(evaluation)]
fn operated(
    alloc: Global,
    at: u32,
    o: &(Op, Expr),
    left: Value,
    scopes: &Scopes,
) -> Result<Value, Fault>
    ensures { Answers (operated at o.now.0 left (value_of scopes.now o.now.1)) result }
{
    match o.0 {
        Op::And => both(alloc, at, &o.1, &left, scopes),
        Op::Or => either(alloc, at, &o.1, &left, scopes),
        _ => {
            let right = eval(alloc, &o.1, scopes)?;
            operate(alloc, at, o.0, left, &right)
        }
    }
}

/// The value of operators of one level, each with its right operand, behind a value.
#[cycle(evaluation)]
fn chain(
    alloc: Global,
    at: u32,
    more: &[(Op, Expr)],
    first: Value,
    scopes: &Scopes,
) -> Result<Value, Fault>
    ensures { Answers (chain_from at first (map (operand_by (evaluated scopes.now)) more.now)) result }
{
    let mut value = first;
    for o in more {
        value = operated(alloc, at, o, value, scopes)?;
    }
    Ok(value)
}

/// The value of operators before an operand.
#[cycle(evaluation)]
#[tactic(auto, using(crate::proofs::Steps::refused_operand))]
fn prefix(alloc: Global, at: u32, ops: &[Op], x: &Expr, scopes: &Scopes) -> Result<Value, Fault>
    ensures { Answers (prefix_at at ops.now (value_of scopes.now x.now)) result }
{
    let value = eval(alloc, x, scopes)?;
    prefixed_all(alloc, at, ops, value)
}

/// The member, at an index or a key, of a value that is bound.
#[cycle(evaluation)]
fn lend_member<'s>(
    alloc: Global,
    at: u32,
    key: &Expr,
    base: &'s Value,
    scopes: &Scopes,
) -> Result<Lent<'s>, Fault>
    ensures { Lends (indexed at base.now (value_of scopes.now key.now)) result }
{
    let key = eval(alloc, key, scopes)?;
    match member(base, &key) {
        Ok(Some(value)) => Ok(Lent::Found(value)),
        Ok(None) => Ok(Lent::Undef),
        Err(_) => Err(no_result(alloc, at)),
    }
}

/// Undef has no members.
#[cycle(evaluation)]
fn no_member(alloc: Global, at: u32, key: &Expr, scopes: &Scopes) -> Fault
    ensures { Refuses (indexed at v.Undef (value_of scopes.now key.now)) result }
{
    match eval(alloc, key, scopes) {
        Ok(_) => no_result(alloc, at),
        Err(fault) => fault,
    }
}

/// What is bound to a variable, or a member of it.
#[cycle(evaluation)]
#[tactic(auto, using(crate::proofs::Forms::forms, crate::proofs::Forms::index_is))]
fn lend<'s>(alloc: Global, e: &Expr, scopes: &'s Scopes) -> Result<Lent<'s>, Fault>
    ensures { Lends (value_of scopes.now e.now) result }
{
    match &e.form {
        Form::Var(name) => match scopes.find(name.as_str()) {
            Some(value) => Ok(Lent::Found(value)),
            None => Err(unbound(alloc, e.at, name.as_str())),
        },
        Form::Index(base, key) => match lend(alloc, base.get(), scopes) {
            Ok(Lent::Found(base)) => lend_member(alloc, e.at, key.get(), base, scopes),
            Ok(Lent::Undef) => Err(no_member(alloc, e.at, key.get(), scopes)),
            Ok(Lent::Nothing) => Ok(Lent::Nothing),
            Err(fault) => Err(fault),
        },
        _ => Ok(Lent::Nothing),
    }
}

/// A copy of the member, at an index or a key, of a value.
#[cycle(evaluation)]
fn copy_member(
    alloc: Global,
    at: u32,
    key: &Expr,
    base: &Value,
    scopes: &Scopes,
) -> Result<Value, Fault>
    ensures { Answers (indexed at base.now (value_of scopes.now key.now)) result }
{
    let key = eval(alloc, key, scopes)?;
    match member(base, &key) {
        Ok(Some(value)) => Ok(value.copy(alloc)?),
        Ok(None) => Ok(Value::Undef),
        Err(_) => Err(no_result(alloc, at)),
    }
}

/// Whether an option is equal; `default` isn't compared.
#[cycle(evaluation)]
fn is_equal(
    alloc: Global,
    blame: Blame,
    option: &Option<Expr>,
    value: &Value,
    scopes: &Scopes,
) -> Result<bool, Fault>
    ensures { AnswersBy (λ b. b) (is_equal blame value.now (option_map (evaluated scopes.now) option.now)) result }
{
    let Some(option) = option else {
        return Ok(false);
    };
    let other = eval(alloc, option, scopes)?;
    compared(alloc, blamed(blame, value, option.at), value, &other)
}

/// Whether one of the options of an arm of a `case` is equal, from the left.
pub fn is_among(
    alloc: Global,
    blame: Blame,
    options: &[Option<Expr>],
    value: &Value,
    scopes: &Scopes,
) -> Result<bool, Fault>
    ensures { AnswersBy (λ b. b) (is_among blame value.now (map (option_map (evaluated scopes.now)) options.now)) result }
{
    for option in options {
        if is_equal(alloc, blame, option, value, scopes)? {
            return Ok(true);
        }
    }
    Ok(false)
}

/// What stands behind `default`.
#[cycle(evaluation)]
fn default(
    alloc: Global,
    at: u32,
    choices: &[(Option<Expr>, Expr)],
    scopes: &Scopes,
) -> Result<Value, Fault>
    ensures { Answers (chosen at None (default_in (map (choice_by (evaluated scopes.now)) choices.now))) result }
{
    for choice in choices {
        if choice.0.is_none() {
            return eval(alloc, &choice.1, scopes);
        }
    }
    Err(no_option(alloc, at))
}

/// What stands behind the first equal option, or else behind `default`.
#[cycle(evaluation)]
fn select(
    alloc: Global,
    at: u32,
    choices: &[(Option<Expr>, Expr)],
    value: &Value,
    scopes: &Scopes,
) -> Result<Value, Fault>
    ensures { Answers (selected at value.now (map (choice_by (evaluated scopes.now)) choices.now)) result }
{
    for choice in choices {
        if is_equal(alloc, Blame::Selector(at), &choice.0, value, scopes)? {
            return eval(alloc, &choice.1, scopes);
        }
    }
    default(alloc, at, choices, scopes)
}
