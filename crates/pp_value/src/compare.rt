//! Which values are equal, less, or within another.

ghost use Rattle.std.specs.Prelude.{◌≡◌};
ghost use Rattle.std.specs.List.{list_any};
ghost use Rattle.pp_value.specs.Values.{has_opaque, same, same_ref};
ghost use Rattle.pp_value.specs.Texts.{same_text};
ghost use Rattle.pp_value.specs.Levels.{all_same, same_in};
ghost use Rattle.pp_value.specs.Table.{equal_table, less_table, member_table, within_table};

use crate::fault::Misfit;
use crate::texts::{is_part, less_text, same_text};
use crate::value::{Pairs, Ref, Value};
use rh_base::Text;

/// Whether an opaque value stands anywhere in it.
#[cycle(opaque)]
#[tactic(auto, using(crate::specs::Levels::has_opaque_list, crate::specs::Levels::has_opaque_map))]
pub fn has_opaque(value: &Value) -> bool
    ensures { result ≡ has_opaque value.now }
{
    match value {
        Value::List(items) => any_opaque(items.as_slice()),
        Value::Map(pairs) => any_opaque_value(pairs),
        Value::Opaque => true,
        _ => false,
    }
}

#[cycle(opaque)]
fn any_opaque(items: &[Value]) -> bool
    ensures { result ≡ list_any has_opaque items.now }
{
    for item in items {
        if has_opaque(item) {
            return true;
        }
    }
    false
}

#[cycle(opaque)]
fn any_opaque_value(pairs: &Pairs) -> bool
    ensures { result ≡ list_any (λ p. has_opaque p.1) pairs.now }
{
    for pair in pairs.as_slice() {
        if has_opaque(&pair.1) {
            return true;
        }
    }
    false
}

fn same_ref(a: &Ref, b: &Ref) -> bool
    ensures { result ≡ same_ref a.now b.now }
{
    let kind = a.kind.as_str() == b.kind.as_str();
    let title = a.title.as_str() == b.title.as_str();
    kind && title
}

/// Whether two values are equal. An opaque value is equal to none, itself included; the order of a map's pairs and the
/// ASCII case of texts don't count.
#[cycle(same)]
#[tactic(auto, using(crate::specs::Levels::same_list_other, crate::specs::Levels::same_map_other, crate::specs::Levels::on_list_of, crate::specs::Levels::on_map_of))]
pub fn same(a: &Value, b: &Value) -> bool
    ensures { result ≡ same a.now b.now }
{
    match (a, b) {
        (Value::Undef, Value::Undef) => true,
        (Value::Bool(x), Value::Bool(y)) => *x == *y,
        (Value::Int(x), Value::Int(y)) => *x == *y,
        (Value::Str(x), Value::Str(y)) => same_text(x.as_str(), y.as_str()),
        (Value::List(x), Value::List(y)) => all_same(x.as_slice(), y.as_slice()),
        (Value::Map(x), Value::Map(y)) => same_pairs(x, y),
        (Value::Refer(x), Value::Refer(y)) => same_ref(x, y),
        _ => false,
    }
}

#[cycle(same)]
fn all_same(xs: &[Value], ys: &[Value]) -> bool
    ensures { result ≡ all_same xs.now ys.now }
{
    let mut rest = ys;
    for x in xs {
        let Some((y, more)) = rest.split_first() else {
            return false;
        };
        if !same(x, y) {
            return false;
        }
        rest = more;
    }
    rest.is_empty()
}

#[cycle(same)]
fn same_pairs(xs: &Pairs, ys: &Pairs) -> bool
    ensures { result ≡ same_in xs.now ys.now }
{
    if xs.len() != ys.len() {
        return false;
    }
    for pair in xs.as_slice() {
        let Some(other) = ys.find(pair.0.as_str()) else {
            return false;
        };
        if !same(&pair.1, other) {
            return false;
        }
    }
    true
}

/// Whether two values are equal. The order of a map's pairs and the ASCII case of texts don't count, that of keys does.
pub fn equal(a: &Value, b: &Value) -> Result<bool, Misfit>
    ensures { result ≡ equal_table a.now b.now }
{
    let left = has_opaque(a);
    let right = has_opaque(b);
    if left || right {
        return Err(Misfit::Operand);
    }
    Ok(same(a, b))
}

/// Whether a number or a text is less than another.
pub fn less(a: &Value, b: &Value) -> Result<bool, Misfit>
    ensures { result ≡ less_table a.now b.now }
{
    match (a, b) {
        (Value::Int(x), Value::Int(y)) => Ok(*x < *y),
        (Value::Str(x), Value::Str(y)) => {
            let is_less = less_text(x.as_str().as_bytes(), y.as_str().as_bytes());
            Ok(is_less)
        }
        _ => Err(Misfit::Operand),
    }
}

fn any_same(x: &Value, items: &[Value]) -> bool
    ensures { result ≡ list_any (same x.now) items.now }
{
    for item in items {
        if same(x, item) {
            return true;
        }
    }
    false
}

fn is_member(x: &Value, items: &[Value]) -> Result<bool, Misfit>
    ensures { result ≡ member_table x.now items.now }
{
    let left = has_opaque(x);
    let right = any_opaque(items);
    if left || right {
        return Err(Misfit::Operand);
    }
    Ok(any_same(x, items))
}

fn is_key(key: &str, pairs: &[(Text, Value)]) -> bool
    ensures { result ≡ list_any (λ p. same_text key.now p.0) pairs.now }
{
    for pair in pairs {
        if same_text(key, pair.0.as_str()) {
            return true;
        }
    }
    false
}

/// Whether a text is a part of another, a value is a member of a list, or a text is a key of a map, ASCII case aside.
#[tactic(auto, using(crate::proofs::Tables::in_text, crate::proofs::Tables::in_list, crate::proofs::Tables::in_map))]
pub fn within(a: &Value, b: &Value) -> Result<bool, Misfit>
    ensures { result ≡ within_table a.now b.now }
{
    match (a, b) {
        (Value::Str(part), Value::Str(text)) => {
            let found = is_part(part.as_str().as_bytes(), text.as_str().as_bytes());
            Ok(found)
        }
        (x, Value::List(items)) => is_member(x, items.as_slice()),
        (Value::Str(key), Value::Map(pairs)) => Ok(is_key(key.as_str(), pairs.as_slice())),
        _ => Err(Misfit::Operand),
    }
}
