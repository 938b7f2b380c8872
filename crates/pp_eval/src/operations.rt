//! Operators on values, and their refusals.

ghost use Rattle.std.specs.Prelude.{◌≡◌, Result, Ok, Err};
ghost use Rattle.pp_value.specs.declared.value.Value.{Value};
ghost use Rattle.pp_value.specs.declared.fault.Misfit.{Misfit};
ghost use Rattle.pp_value.specs.Values.{exceeds_limits};
ghost use Rattle.pp_value.specs.Table.{Gives, equal_table, add_table};
ghost use Rattle.pp_eval.specs.Evaluating.{AnswersBy, Answers, Refuses, made};
ghost use Rattle.pp_eval.specs.Operations.{as_value, turned, operation, truth_of};
ghost use Rattle.pp_eval.specs.Evaluation.{truth_at, asked, prefixed, prefix_at};

use crate::answers::{limited, no_result, out_of_range, too_large};
use pp_syntax::Op;
use pp_value::{Misfit, Value, ValueFault, add, equal, less, multiply, negate, subtract, within};
use rh_base::Fault;
use std::alloc::Global;

/// The truth of a value; an opaque one has none.
fn truth_of(value: &Value) -> Option<bool>
    ensures { result ≡ truth_of value.now }
{
    match value {
        Value::Undef => Some(false),
        Value::Bool(b) => Some(*b),
        Value::Opaque => None,
        _ => Some(true),
    }
}

/// The truth of an operand of the operation at a place.
pub fn truth_at(alloc: Global, at: u32, value: &Value) -> Result<bool, Fault>
    ensures { AnswersBy (λ b. b) (truth_at at value.now) result }
{
    match truth_of(value) {
        Some(b) => Ok(b),
        None => Err(no_result(alloc, at)),
    }
}

/// Whether two values are equal, with the refusal at a place.
pub fn compared(alloc: Global, at: u32, a: &Value, b: &Value) -> Result<bool, Fault>
    ensures { AnswersBy (λ b. b) (asked at (equal_table a.now b.now)) result }
{
    match equal(a, b) {
        Ok(same) => Ok(same),
        Err(_) => Err(no_result(alloc, at)),
    }
}

fn as_value(outcome: Result<bool, Misfit>) -> Result<Value, Misfit>
    ensures { result ≡ as_value outcome }
{
    match outcome {
        Ok(b) => Ok(Value::Bool(b)),
        Err(m) => Err(m),
    }
}

fn turned(outcome: Result<bool, Misfit>) -> Result<Value, Misfit>
    ensures { result ≡ turned outcome }
{
    match outcome {
        Ok(b) => Ok(Value::Bool(!b)),
        Err(m) => Err(m),
    }
}

/// The answer of an operation that takes no memory, with its refusal.
fn answered(alloc: Global, at: u32, outcome: Result<Value, Misfit>) -> Result<Value, Fault>
    ensures { Answers (made at outcome) result }
{
    match outcome {
        Ok(value) => limited(alloc, at, value),
        Err(Misfit::Operand) => Err(no_result(alloc, at)),
        Err(Misfit::Range) => Err(out_of_range(alloc, at)),
    }
}

/// The refusal of an operation that takes memory.
fn refused(alloc: Global, at: u32, fault: ValueFault) -> Fault
    ensures { (table : Result Value Misfit) → Gives exceeds_limits table (Err fault) → Refuses (made at table) result }
{
    match fault {
        ValueFault::Operand => no_result(alloc, at),
        ValueFault::Range => out_of_range(alloc, at),
        ValueFault::Large => too_large(alloc, at),
        ValueFault::Memory(m) => Fault::Memory(m),
    }
}

/// The sum of two values, with its refusal.
fn summed(alloc: Global, at: u32, a: Value, b: &Value) -> Result<Value, Fault>
    ensures { Answers (made at (add_table a b.now)) result }
{
    match add(alloc, a, b) {
        Ok(value) => Ok(value),
        Err(fault) => Err(refused(alloc, at, fault)),
    }
}

/// The sum of two lent values, with its refusal.
fn summed_with(alloc: Global, at: u32, a: &Value, b: &Value) -> Result<Value, Fault>
    ensures { Answers (made at (add_table a.now b.now)) result }
{
    summed(alloc, at, a.copy(alloc)?, b)
}

/// The value of an operator between two lent operands, or its refusal at a place.
fn operate_on(alloc: Global, at: u32, op: Op, a: &Value, b: &Value) -> Result<Value, Fault>
    ensures { Answers (made at (operation op a.now b.now)) result }
{
    match op {
        Op::Less => answered(alloc, at, as_value(less(a, b))),
        Op::Greater => answered(alloc, at, as_value(less(b, a))),
        Op::AtMost => answered(alloc, at, turned(less(b, a))),
        Op::AtLeast => answered(alloc, at, turned(less(a, b))),
        Op::Same => answered(alloc, at, as_value(equal(a, b))),
        Op::NotSame => answered(alloc, at, turned(equal(a, b))),
        Op::Plus => summed_with(alloc, at, a, b),
        Op::Minus => answered(alloc, at, subtract(a, b)),
        Op::Times => answered(alloc, at, multiply(a, b)),
        Op::In => answered(alloc, at, as_value(within(a, b))),
        Op::Or | Op::And | Op::Not => answered(alloc, at, Err(Misfit::Operand)),
    }
}

/// The value of an operator between two operands whose values both count, or its refusal at a place. A sum grows in the place of its
/// left operand.
pub fn operate(alloc: Global, at: u32, op: Op, a: Value, b: &Value) -> Result<Value, Fault>
    ensures { Answers (made at (operation op a b.now)) result }
{
    match op {
        Op::Plus => summed(alloc, at, a, b),
        _ => operate_on(alloc, at, op, &a, b),
    }
}

/// The value of an operator before an operand.
fn prefixed(alloc: Global, at: u32, op: Op, value: &Value) -> Result<Value, Fault>
    ensures { Answers (prefixed at op value.now) result }
{
    match op {
        Op::Not => {
            let truth = truth_at(alloc, at, value)?;
            Ok(Value::Bool(!truth))
        }
        Op::Minus => answered(alloc, at, negate(value)),
        _ => Err(no_result(alloc, at)),
    }
}

/// The value of operators before an operand, of which the last comes first.
#[tactic(auto, using(crate::proofs::Steps::last_first, crate::proofs::Steps::refused_operand))]
pub fn prefixed_all(alloc: Global, at: u32, ops: &[Op], value: Value) -> Result<Value, Fault>
    ensures { Answers (prefix_at at ops.now (Ok value)) result }
{
    let mut rest = ops;
    let mut value = value;
    while let Some((op, front)) = rest.split_last() {
        value = prefixed(alloc, at, *op, &value)?;
        rest = front;
    }
    Ok(value)
}
