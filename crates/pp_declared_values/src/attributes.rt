//! Attributes as they are evaluated. Names of those that were `undef` count as standing, so they are kept apart from those that
//! are given.

ghost use Rattle.std.specs.Prelude.{◌≡◌, ◌∷◌, ◌++◌, [], None, true, OnOk, IfOk, IfErr};
ghost use Rattle.pp_value.specs.Values.{value_at, is_undef};
ghost use Rattle.pp_eval.specs.Evaluating.{AnswersBy, Refuses};
ghost use Rattle.catalog_semantics.specs.Attributes.{first_time, attribute_of, attributes_behind, attributes_at};
ghost use Rattle.pp_declared_values.specs.Named.{keys_of, given_behind, may_be_given, AllStand, GoesOn};

use crate::references::references_in;
use catalog_semantics::is_metaparameter;
use pp_eval::{Scopes, eval, no_result, refusal};
use pp_syntax::Attr;
use pp_value::{Keyed, Pairs, Value, has_opaque};
use rh_base::{Fault, NoMemory};
use std::alloc::Global;

fn is_undef(value: &Value) -> bool
    ensures { result ≡ is_undef value.now }
{
    matches!(value, Value::Undef)
}

/// Notes a name, which stands for the first time.
#[tactic(auto, using(crate::proofs::Naming::stands_already, crate::proofs::Naming::stands_not))]
fn note_name(alloc: Global, names: &mut Keyed<bool>, a: &Attr) -> Result<(), Fault>
    ensures new { OnOk result (value_at a.now.name names.old ≡ None) }
    ensures ok { OnOk result (names.new ≡ names.old ++ (a.now.name, true) ∷ []) }
    ensures err { IfErr result (Refuses (first_time (keys_of names.old) a.now)) }
{
    if names.find(a.name.as_str()).is_some() {
        return Err(refusal(alloc, 24, a.at, a.name.as_str()));
    }
    let name = a.name.copy(alloc)?;
    names.push(name, true)?;
    Ok(())
}

/// Whether a value may be given to an attribute: that of a metaparameter is references.
fn may_be_given(alloc: Global, a: &Attr, x: &Value) -> Result<bool, NoMemory>
    ensures { IfOk result (λ b. b ≡ may_be_given a.now x.now) }
{
    if !is_metaparameter(a.name.as_str()) {
        return Ok(true);
    }
    Ok(references_in(alloc, x)?.is_some())
}

/// Adds the attribute, unless its value is undef.
fn give(alloc: Global, a: &Attr, x: Value, given: &mut Pairs) -> Result<(), Fault>
    requires { value_at a.now.name given.old ≡ None }
    ensures { AnswersBy (λ done. given.new) (given_behind given.old (attribute_of a.now x)) result }
{
    if has_opaque(&x) {
        return Err(no_result(alloc, a.value.at));
    }
    if is_undef(&x) {
        return Ok(());
    }
    if !may_be_given(alloc, a, &x)? {
        return Err(no_result(alloc, a.value.at));
    }
    let name = a.name.copy(alloc)?;
    given.push(name, x)?;
    Ok(())
}

/// Evaluates an attribute, and adds it and its name.
#[tactic(auto, using(crate::proofs::Naming::value_refused, crate::proofs::Naming::name_refused))]
fn add_attribute(
    alloc: Global,
    a: &Attr,
    scopes: &Scopes,
    names: &mut Keyed<bool>,
    given: &mut Pairs,
) -> Result<(), Fault>
    requires { AllStand given.old names.old }
    ensures stand { OnOk result (AllStand given.new names.new) }
    ensures goes_on { GoesOn scopes.now a.now names.old given.old names.new given.new result }
{
    let x = eval(alloc, &a.value, scopes)?;
    note_name(alloc, names, a)?;
    give(alloc, a, x, given)
}

/// Attributes in order, behind names that stand already: of each its value, then its name, then the kind of the value.
pub fn attributes_behind(
    alloc: Global,
    names: Keyed<bool>,
    attrs: &[Attr],
    scopes: &Scopes,
) -> Result<Pairs, Fault>
    ensures { AnswersBy (λ pairs. pairs) (attributes_behind scopes.now (keys_of names) attrs.now) result }
{
    let mut names = names;
    let mut given = Pairs::new(alloc);
    for a in attrs {
        match add_attribute(alloc, a, scopes, &mut names, &mut given) {
            Ok(()) => {}
            Err(fault) => return Err(fault),
        }
    }
    Ok(given)
}

/// Attributes in order.
pub fn attributes_at(alloc: Global, attrs: &[Attr], scopes: &Scopes) -> Result<Pairs, Fault>
    ensures { AnswersBy (λ pairs. pairs) (attributes_at scopes.now attrs.now) result }
{
    attributes_behind(alloc, Keyed::new(alloc), attrs, scopes)
}
