//! What is told of the programs of resources and the order between them.

ghost use Rattle.std.specs.Prelude.{◌≡◌, ◌<◌, length, map, IfOk, IfErr};
ghost use Rattle.std.specs.List.{AllByRecursion};
ghost use Rattle.rh_base.specs.Refused.{IfRefused};
ghost use Rattle.fs_lang.specs.Meaning.{program_of};
ghost use Rattle.graph_semantics.specs.Graphs.{reference_at};
ghost use Rattle.given_verdict.specs.Limits.{IsTooLargeWith};
ghost use Rattle.verdict_report.specs.Told.{IsTold};
ghost use Rattle.reports.specs.Stages.{IsInOrder};
ghost use Rattle.reports.specs.Questions.{names_in};

use crate::modelling::Modelled;
use crate::terms::Asked;
use catalog::Catalog;
use plans::Plan;
use pp_value::shown_ref;
use rh_base::{Fault, NoMemory, Seq, Text};
use std::alloc::Global;
use verdict_report::{Form, NamedPlan, Report, told};

/// The reference of the resource at a place, as it is shown.
pub(crate) fn name_at(alloc: Global, catalog: &Catalog, place: u32) -> Result<Text, NoMemory>
    requires { place < length catalog.now.resources }
    ensures { IfOk result (λ text. text ≡ reference_at catalog.now place) }
{
    shown_ref(alloc, &catalog.get(place).id)
}

/// The references of plain resources.
pub(crate) fn names_in(
    alloc: Global,
    catalog: &Catalog,
    plain: &[u32],
) -> Result<Seq<Text>, NoMemory>
    requires { AllByRecursion (λ k. k < length catalog.now.resources) plain.now }
    ensures { IfOk result (λ names. names ≡ names_in catalog.now plain.now) }
{
    let mut names = Seq::new(alloc);
    for place in plain {
        names.push(name_at(alloc, catalog, *place)?)?;
    }
    Ok(names)
}

/// The references of the resources.
pub(crate) fn names_of(alloc: Global, made: &Modelled) -> Result<Seq<Text>, NoMemory>
    requires { IsInOrder made.now.catalog made.now.graph (map program_of made.now.programs) }
    ensures names { IfOk result (λ names. names ≡ names_in made.now.catalog made.now.graph.plain) }
    ensures count { IfOk result (λ names. length names ≡ made.now.graph.order.count) }
{
    let plain = made.graph.plain.as_slice();
    let names = names_in(alloc, &made.catalog, plain)?;
    Ok(names)
}

/// What is told of the programs of resources and the order between them.
pub fn judged(alloc: Global, form: Form, asked: &Asked, made: &Modelled) -> Result<Report, Fault>
    requires { IsInOrder made.now.catalog made.now.graph (map program_of made.now.programs) }
    ensures told { IfOk result
        (IsTold form asked.now.terms asked.now.notes (names_in made.now.catalog made.now.graph.plain)
        (map program_of made.now.programs) made.now.graph.order) }
    ensures refused { IfErr result
        (λ e. IfRefused e (IsTooLargeWith asked.now.terms.limits asked.now.terms.given (map program_of made.now.programs))) }
{
    let names = names_of(alloc, made)?;
    let plan = Plan {
        programs: made.programs.as_slice(),
        order: &made.graph.order,
    };
    let named = NamedPlan {
        plan: &plan,
        names: names.as_slice(),
        notes: asked.notes.as_str().as_bytes(),
    };
    told(alloc, form, &asked.terms, &named)
}
