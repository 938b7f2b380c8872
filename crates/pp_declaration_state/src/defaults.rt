//! The attributes that defaults give to a type.

ghost use Rattle.std.specs.Prelude.{◌≡◌, [], map, IfOk, OnOk};
ghost use Rattle.pp_value.specs.Keys.{with_pairs};
ghost use Rattle.catalog_semantics.specs.States.{defaults_of};
ghost use Rattle.pp_declaration_state.specs.Defaulting.{with_those_of, noted, names_noted, AreApart};

use catalog_semantics::Default;
use pp_value::{Keyed, Pairs};
use rh_base::NoMemory;
use std::alloc::Global;

/// Puts pairs behind others, one after the other.
fn put_all(alloc: Global, into: &mut Pairs, pairs: &Pairs) -> Result<(), NoMemory>
    ensures { OnOk result (into.new ≡ with_pairs into.old pairs.now) }
{
    for pair in pairs.as_slice() {
        let name = pair.0.copy(alloc)?;
        into.put(name, pair.1.copy(alloc)?)?;
    }
    Ok(())
}

/// Puts the attributes of a default behind others, where it is of this type.
fn put_default(alloc: Global, kind: &str, into: &mut Pairs, d: &Default) -> Result<(), NoMemory>
    ensures { OnOk result (into.new ≡ with_those_of kind.now d.now into.old) }
{
    if d.kind.as_str() != kind {
        return Ok(());
    }
    put_all(alloc, into, &d.attributes)
}

/// The attributes that defaults give to a type, in order; of two with one name the last counts.
#[tactic(auto, using(crate::proofs::DefaultLaws::next_default))]
pub fn defaults_of(alloc: Global, kind: &str, defaults: &[Default]) -> Result<Pairs, NoMemory>
    ensures { IfOk result (λ pairs. pairs ≡ with_pairs [] (defaults_of kind.now defaults.now)) }
{
    let mut all = Pairs::new(alloc);
    for d in defaults {
        put_default(alloc, kind, &mut all, d)?;
    }
    Ok(all)
}

/// Notes the names of attributes.
fn note_names(alloc: Global, pairs: &Pairs) -> Result<Keyed<bool>, NoMemory>
    ensures { IfOk result (λ names. names ≡ with_pairs [] (map noted pairs.now)) }
{
    let mut names = Keyed::new(alloc);
    for pair in pairs.as_slice() {
        let name = pair.0.copy(alloc)?;
        names.put(name, true)?;
    }
    Ok(names)
}

/// The names of the attributes that defaults give to a type.
#[tactic(auto, using(crate::proofs::DefaultLaws::kept, crate::proofs::DefaultLaws::noted_once))]
pub fn names_of(alloc: Global, kind: &str, defaults: &[Default]) -> Result<Keyed<bool>, NoMemory>
    requires { AreApart defaults.now }
    ensures { IfOk result (λ names. names ≡ names_noted kind.now defaults.now) }
{
    let pairs = defaults_of(alloc, kind, defaults)?;
    note_names(alloc, &pairs)
}
