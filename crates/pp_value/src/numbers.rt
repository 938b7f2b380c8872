//! Arithmetic.

ghost use Rattle.std.specs.Prelude.{◌≡◌, ◌+ℤ◌, ◌-ℤ◌, ◌*ℤ◌, neg_ℤ};
ghost use Rattle.pp_value.specs.Table.{number, subtract_table, multiply_table, negate_table};

use crate::fault::Misfit;
use crate::value::Value;

/// The sum of two numbers, unless it leaves 64 bits.
#[tactic(auto, using(crate::proofs::WordLaws::of_some, crate::proofs::WordLaws::of_none))]
pub fn sum(a: i64, b: i64) -> Result<Value, Misfit>
    ensures { result ≡ number (a +ℤ b) }
{
    match a.checked_add(b) {
        Some(n) => Ok(Value::Int(n)),
        None => Err(Misfit::Range),
    }
}

#[tactic(auto, using(crate::proofs::WordLaws::of_some, crate::proofs::WordLaws::of_none))]
fn difference(a: i64, b: i64) -> Result<Value, Misfit>
    ensures { result ≡ number (a -ℤ b) }
{
    match a.checked_sub(b) {
        Some(n) => Ok(Value::Int(n)),
        None => Err(Misfit::Range),
    }
}

#[tactic(auto, using(crate::proofs::WordLaws::of_some, crate::proofs::WordLaws::of_none))]
fn product(a: i64, b: i64) -> Result<Value, Misfit>
    ensures { result ≡ number (a *ℤ b) }
{
    match a.checked_mul(b) {
        Some(n) => Ok(Value::Int(n)),
        None => Err(Misfit::Range),
    }
}

#[tactic(auto, using(crate::proofs::WordLaws::of_some, crate::proofs::WordLaws::of_none))]
fn opposite(a: i64) -> Result<Value, Misfit>
    ensures { result ≡ number (neg_ℤ a) }
{
    match a.checked_neg() {
        Some(n) => Ok(Value::Int(n)),
        None => Err(Misfit::Range),
    }
}

/// The difference of two numbers.
pub fn subtract(a: &Value, b: &Value) -> Result<Value, Misfit>
    ensures { result ≡ subtract_table a.now b.now }
{
    match (a, b) {
        (Value::Int(x), Value::Int(y)) => difference(*x, *y),
        _ => Err(Misfit::Operand),
    }
}

/// The product of two numbers.
pub fn multiply(a: &Value, b: &Value) -> Result<Value, Misfit>
    ensures { result ≡ multiply_table a.now b.now }
{
    match (a, b) {
        (Value::Int(x), Value::Int(y)) => product(*x, *y),
        _ => Err(Misfit::Operand),
    }
}

/// The opposite of a number.
pub fn negate(a: &Value) -> Result<Value, Misfit>
    ensures { result ≡ negate_table a.now }
{
    match a {
        Value::Int(x) => opposite(*x),
        _ => Err(Misfit::Operand),
    }
}
