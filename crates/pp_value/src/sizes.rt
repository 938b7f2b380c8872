//! How large a value is, and how deep it nests.

ghost use Rattle.std.specs.Prelude.{◌≡◌, ◌-◌, ◌^◌, min};
ghost use Rattle.pp_value.specs.Values.{size_of, depth_of, exceeds_limits};
ghost use Rattle.pp_value.specs.Levels.{size_of_all, size_of_each, depth_of_all, depth_of_each};

use crate::value::{Pairs, Value};
use rh_base::limits::{VALUE_DEPTH, VALUE_SIZE};

/// The size of a value: the bytes of each text and each key in it, and one for each value and each pair. Where it is
/// larger than the greatest u64, that.
#[cycle(size)]
#[tactic(auto, using(crate::specs::Levels::size_of_list, crate::specs::Levels::size_of_map))]
pub fn size(v: &Value) -> u64
    ensures { result ≡ min (size_of v.now) (2 ^ 64 - 1) }
{
    match v {
        Value::Str(text) => 1u64.saturating_add(text.len() as u64),
        Value::List(items) => 1u64.saturating_add(size_of_all(items.as_slice())),
        Value::Map(pairs) => 1u64.saturating_add(size_of_each(pairs)),
        Value::Refer(r) => {
            let both = (r.kind.len() as u64).saturating_add(r.title.len() as u64);
            1u64.saturating_add(both)
        }
        _ => 1,
    }
}

#[cycle(size)]
fn size_of_all(items: &[Value]) -> u64
    ensures { result ≡ min (size_of_all items.now) (2 ^ 64 - 1) }
{
    let mut total = 0u64;
    for item in items {
        total = total.saturating_add(size(item));
    }
    total
}

#[cycle(size)]
fn size_of_each(pairs: &Pairs) -> u64
    ensures { result ≡ min (size_of_each pairs.now) (2 ^ 64 - 1) }
{
    let mut total = 0u64;
    for pair in pairs.as_slice() {
        let key = 1u64.saturating_add(pair.0.len() as u64);
        total = total.saturating_add(key.saturating_add(size(&pair.1)));
    }
    total
}

/// How many lists and maps stand within one another, this one too; at most the greatest u64.
#[cycle(depth)]
#[tactic(auto, using(crate::specs::Levels::depth_of_list, crate::specs::Levels::depth_of_map))]
fn depth(v: &Value) -> u64
    ensures { result ≡ min (depth_of v.now) (2 ^ 64 - 1) }
{
    match v {
        Value::List(items) => 1u64.saturating_add(depth_of_all(items.as_slice())),
        Value::Map(pairs) => 1u64.saturating_add(depth_of_each(pairs)),
        _ => 0,
    }
}

#[cycle(depth)]
fn depth_of_all(items: &[Value]) -> u64
    ensures { result ≡ min (depth_of_all items.now) (2 ^ 64 - 1) }
{
    let mut deepest = 0u64;
    for item in items {
        deepest = deepest.max(depth(item));
    }
    deepest
}

#[cycle(depth)]
fn depth_of_each(pairs: &Pairs) -> u64
    ensures { result ≡ min (depth_of_each pairs.now) (2 ^ 64 - 1) }
{
    let mut deepest = 0u64;
    for pair in pairs.as_slice() {
        deepest = deepest.max(depth(&pair.1));
    }
    deepest
}

/// Whether a value is larger than one may be, or nests deeper.
#[tactic(auto, using(crate::proofs::LimitLaws::over))]
pub fn exceeds_limits(v: &Value) -> bool
    ensures { result ≡ exceeds_limits v.now }
{
    let is_large = size(v) > VALUE_SIZE;
    let is_deep = depth(v) > VALUE_DEPTH;
    is_large || is_deep
}
