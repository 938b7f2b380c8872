//! Sums, and the members of lists and maps.

ghost use Rattle.std.specs.Prelude.{◌≡◌, ◌++◌, IfOk, MatchResult, Ok, Err, option_map};
ghost use Rattle.pp_value.specs.declared.value.Value.TheVariants as v;
ghost use Rattle.pp_value.specs.Keys.{with_pairs};
ghost use Rattle.pp_value.specs.Values.{exceeds_limits};
ghost use Rattle.pp_value.specs.Table.{Gives, add_table, index_table, or_undef, member_at};

use crate::fault::{Misfit, ValueFault};
use crate::numbers::sum;
use crate::shared::Shared;
use crate::sizes::exceeds_limits;
use crate::value::{Pairs, Value, copy_all};
use rh_base::{NoMemory, Seq};
use std::alloc::Global;

/// A value that was made, unless it exceeds the limits.
fn limited(value: Value) -> Result<Value, ValueFault>
    ensures { Gives exceeds_limits (Ok value) result }
{
    if exceeds_limits(&value) {
        return Err(ValueFault::Large);
    }
    Ok(value)
}

/// The members of a list: taken where nobody else has the list, and else copied.
fn own_members(alloc: Global, list: Shared<Value>) -> Result<Seq<Value>, NoMemory>
    ensures { IfOk result (λ items. items ≡ list) }
{
    match list.into_items() {
        Ok(items) => Ok(items),
        Err(list) => copy_all(alloc, list.as_slice()),
    }
}

/// The members of two lists, one list after the other.
fn joined(alloc: Global, left: Shared<Value>, right: &[Value]) -> Result<Value, NoMemory>
    ensures { IfOk result (λ x. x ≡ v.List (left ++ right.now)) }
{
    let mut items = own_members(alloc, left)?;
    for item in right {
        items.push(item.copy(alloc)?)?;
    }
    Value::list(alloc, items)
}

/// Two maps as one, in which the right one's values win.
fn merged(alloc: Global, left: Pairs, right: &Pairs) -> Result<Value, NoMemory>
    ensures { IfOk result (λ x. x ≡ v.Map (with_pairs left right.now)) }
{
    let mut pairs = left;
    for pair in right.as_slice() {
        let key = pair.0.copy(alloc)?;
        pairs.put(key, pair.1.copy(alloc)?)?;
    }
    Ok(Value::Map(pairs))
}

/// The sum of two numbers, two lists one after the other, or two maps as one, in which the right one's values win and
/// its new keys go last.
#[tactic(auto, using(crate::proofs::Tables::add_lists, crate::proofs::Tables::add_maps))]
pub fn add(alloc: Global, a: Value, b: &Value) -> Result<Value, ValueFault>
    ensures { Gives exceeds_limits (add_table a b.now) result }
{
    match (a, b) {
        (Value::Int(x), Value::Int(y)) => Ok(sum(x, *y)?),
        (Value::List(x), Value::List(y)) => limited(joined(alloc, x, y.as_slice())?),
        (Value::Map(x), Value::Map(y)) => limited(merged(alloc, x, y)?),
        _ => Err(ValueFault::Operand),
    }
}

/// The member at a place from 0, or from the end where the number is negative.
fn member_at(items: &[Value], n: i64) -> Option<&Value>
    ensures { or_undef (option_map (λ x. x.now) result) ≡ member_at items.now n }
{
    if n >= 0 {
        return items.get(n as usize);
    }
    let back = n.unsigned_abs() as usize;
    if back > items.len() {
        return None;
    }
    items.get(items.len() - back)
}

/// The member of a list at a place, from 0 or, where negative, from the end, or the value of a map's key, compared
/// exactly. None stands for undef, where there is none.
#[tactic(auto, using(crate::proofs::Tables::index_list, crate::proofs::Tables::index_map))]
pub fn member<'v>(a: &'v Value, key: &Value) -> Result<Option<&'v Value>, Misfit>
    ensures { MatchResult result (λ m. index_table a.now key.now ≡ Ok (or_undef (option_map (λ x. x.now) m)))
        (λ e. index_table a.now key.now ≡ Err e) }
{
    match (a, key) {
        (Value::List(items), Value::Int(n)) => Ok(member_at(items.as_slice(), *n)),
        (Value::Map(pairs), Value::Str(name)) => Ok(pairs.find(name.as_str())),
        _ => Err(Misfit::Operand),
    }
}
