//! What statements do in which no body runs.

ghost use Rattle.std.specs.Prelude.{◌≡◌, IfOk, OnOk};
ghost use Rattle.pp_eval.specs.Evaluating.{AnswersBy};
ghost use Rattle.catalog_semantics.specs.Declaring.{class_resource};
ghost use Rattle.catalog_semantics.specs.Effects.{assigned};
ghost use Rattle.pp_declarations.specs.Including.{after_include};

use catalog_semantics::{Resource, Sort};
use pp_declaration_state::State;
use pp_declared_bodies::class_ref;
use pp_eval::eval;
use pp_syntax::{Expr, Func};
use pp_value::{Pairs, copy_pairs};
use rh_base::{Fault, NoMemory};
use std::alloc::Global;

/// A name is bound to the value of an expression.
pub fn assign(
    alloc: Global,
    at: u32,
    name: &str,
    value: &Expr,
    state: &mut State,
) -> Result<(), Fault>
    ensures { AnswersBy (λ done. state.new) (assigned at name.now value.now state.old) result }
{
    let x = eval(alloc, value, state.scopes())?;
    state.bind(at, name, x)
}

/// The resource that a class becomes.
pub fn class_resource(
    alloc: Global,
    at: u32,
    name: &str,
    attributes: &Pairs,
) -> Result<Resource, NoMemory>
    ensures { IfOk result (λ r. r ≡ class_resource at name.now attributes.now) }
{
    let id = class_ref(alloc, name)?;
    let attrs = copy_pairs(alloc, attributes)?;
    Ok(Resource {
        id,
        sort: Sort::Class,
        is_virtual: false,
        at,
        holder: None,
        attrs,
    })
}

/// What a function does with a class behind including it.
pub fn after_include(
    alloc: Global,
    func: Func,
    at: u32,
    name: &str,
    state: &mut State,
) -> Result<(), NoMemory>
    ensures { OnOk result (state.new ≡ after_include func at name.now state.old) }
{
    match func {
        Func::Contain => {
            let class = class_ref(alloc, name)?;
            state.contain(&class)
        }
        Func::Require => {
            let class = class_ref(alloc, name)?;
            state.require(at, class)
        }
        _ => Ok(()),
    }
}
