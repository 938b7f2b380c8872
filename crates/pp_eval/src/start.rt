//! What stands at the top from the start.

ghost use Rattle.std.specs.Prelude.{◌≡◌, ◌∷◌, [], codes, IfOk, OnOk};
ghost use Rattle.std.specs.List.{list_all};
ghost use Rattle.pp_eval.specs.Scoping.{is_name_byte, is_variable, with_facts, pairs_in, top_of};

use pp_value::{Pairs, Value};
use rh_base::{NoMemory, Text};
use std::alloc::Global;

fn is_name_byte(c: u8) -> bool
    ensures { result ≡ is_name_byte c }
{
    let lower = c.is_ascii_lowercase();
    let upper = c.is_ascii_uppercase();
    let digit = c.is_ascii_digit();
    lower || upper || digit || c == b'_'
}

fn are_name_bytes(name: &[u8]) -> bool
    ensures { result ≡ list_all is_name_byte name.now }
{
    for c in name {
        if !is_name_byte(*c) {
            return false;
        }
    }
    true
}

fn is_variable(name: &[u8]) -> bool
    ensures { result ≡ is_variable name.now }
{
    let Some((c, rest)) = name.split_first() else {
        return false;
    };
    let first = c.is_ascii_lowercase() || *c == b'_';
    let others = are_name_bytes(rest);
    first && others
}

/// Binds each of these whose key is the name of a variable.
fn bind_pairs(alloc: Global, bindings: &mut Pairs, pairs: &[(Text, Value)]) -> Result<(), NoMemory>
    ensures { OnOk result (bindings.new ≡ with_facts bindings.old pairs.now) }
{
    for pair in pairs {
        let name = pair.0.as_str();
        let fits = is_variable(name.as_bytes());
        let is_free = bindings.find(name).is_none();
        if fits && is_free {
            let name = pair.0.copy(alloc)?;
            bindings.push(name, pair.1.copy(alloc)?)?;
        }
    }
    Ok(())
}

/// Binds each fact whose key is the name of a variable.
#[tactic(auto, using(crate::specs::Scoping::pairs_in_map))]
fn bind_facts(alloc: Global, bindings: &mut Pairs, facts: &Value) -> Result<(), NoMemory>
    ensures { OnOk result (bindings.new ≡ with_facts bindings.old (pairs_in facts.now)) }
{
    match facts {
        Value::Map(pairs) => bind_pairs(alloc, bindings, pairs.as_slice()),
        _ => Ok(()),
    }
}

/// The binding of the whole map of the facts.
fn with_whole(alloc: Global, facts: &Value) -> Result<Pairs, NoMemory>
    ensures { IfOk result (λ b. b ≡ (codes "facts", facts.now) ∷ []) }
{
    let mut bindings = Pairs::new(alloc);
    let name = Text::from_string(String::from_str(alloc, "facts")?);
    bindings.push(name, facts.copy(alloc)?)?;
    Ok(bindings)
}

/// The bindings of the top.
pub fn top_of(alloc: Global, facts: &Value) -> Result<Pairs, NoMemory>
    ensures { IfOk result (λ b. b ≡ top_of facts.now) }
{
    let mut bindings = with_whole(alloc, facts)?;
    bind_facts(alloc, &mut bindings, facts)?;
    Ok(bindings)
}
