//! References that stand in values.

ghost use Rattle.std.specs.Prelude.{◌≡◌, IfOk};
ghost use Rattle.pp_eval.specs.Evaluating.{AnswersBy, if_there};
ghost use Rattle.catalog_semantics.specs.Attributes.{references_in};
ghost use Rattle.catalog_semantics.specs.Effects.{named_refs};
ghost use Rattle.pp_declared_values.specs.Found.{references_in_all, Appends, refs_behind};

use pp_eval::{Scopes, eval, no_result};
use pp_syntax::Expr;
use pp_value::{Ref, Value};
use rh_base::{Fault, NoMemory, Seq};
use std::alloc::Global;

/// Appends the references of a value, where it is a reference or a list of them; answers whether it is.
#[cycle(references)]
#[tactic(auto, using(crate::specs::Found::references_in_list))]
fn push_references(alloc: Global, value: &Value, into: &mut Seq<Ref>) -> Result<bool, NoMemory>
    ensures { IfOk result (Appends (references_in value.now) into.old into.new) }
{
    match value {
        Value::List(items) => push_all(alloc, items.as_slice(), into),
        Value::Refer(r) => {
            into.push(r.copy(alloc)?)?;
            Ok(true)
        }
        _ => Ok(false),
    }
}

#[cycle(references)]
#[tactic(auto, using(crate::proofs::Steps::next_references))]
fn push_all(alloc: Global, items: &[Value], into: &mut Seq<Ref>) -> Result<bool, NoMemory>
    ensures { IfOk result (Appends (references_in_all items.now) into.old into.new) }
{
    for item in items {
        if !push_references(alloc, item, into)? {
            return Ok(false);
        }
    }
    Ok(true)
}

/// The references of a value, where it is a reference or a list of them at any depth.
pub fn references_in(alloc: Global, value: &Value) -> Result<Option<Seq<Ref>>, NoMemory>
    ensures { IfOk result (λ refs. refs ≡ references_in value.now) }
{
    let mut refs = Seq::new(alloc);
    if push_references(alloc, value, &mut refs)? {
        Ok(Some(refs))
    } else {
        Ok(None)
    }
}

/// Appends the references of a value that stands at a place.
fn push_refs(alloc: Global, at: u32, value: &Value, refs: &mut Seq<Ref>) -> Result<(), Fault>
    ensures { AnswersBy (λ done. refs.new) (refs_behind refs.old (if_there at (references_in value.now))) result }
{
    if push_references(alloc, value, refs)? {
        Ok(())
    } else {
        Err(no_result(alloc, at))
    }
}

/// The references of some expressions, from the left.
#[tactic(auto, using(crate::proofs::Steps::next_refs))]
pub fn named_refs(alloc: Global, es: &[Expr], scopes: &Scopes) -> Result<Seq<Ref>, Fault>
    ensures { AnswersBy (λ refs. refs) (named_refs scopes.now es.now) result }
{
    let mut refs = Seq::new(alloc);
    for e in es {
        let value = eval(alloc, e, scopes)?;
        push_refs(alloc, e.at, &value, &mut refs)?;
    }
    Ok(refs)
}
