//! What is told of an entry that is wanted.

ghost use Rattle.std.specs.Prelude.{map, IfOk, IfErr};
ghost use Rattle.rh_base.specs.Refused.{IfRefused};
ghost use Rattle.fs_lang.specs.Meaning.{program_of};
ghost use Rattle.given_entry.specs.Sizes.{IsTooLargeProbed};
ghost use Rattle.entry_report.specs.Told.{IsEntryTold};
ghost use Rattle.reports.specs.Stages.{IsInOrder};
ghost use Rattle.reports.specs.Questions.{names_in};

use crate::modelling::Modelled;
use crate::terms::Asked;
use crate::verdicts::names_of;
use entry_report::told;
use plans::Plan;
use rh_base::Fault;
use std::alloc::Global;
use verdict_report::{NamedPlan, Report};
use wanted_entry::Wanted;

/// What is told of an entry that is wanted of resources.
pub fn ensured(
    alloc: Global,
    asked: &Asked,
    wanted: &Wanted,
    made: &Modelled,
) -> Result<Report, Fault>
    requires { IsInOrder made.now.catalog made.now.graph (map program_of made.now.programs) }
    ensures told { IfOk result
        (IsEntryTold asked.now.terms asked.now.notes wanted.now (names_in made.now.catalog made.now.graph.plain)
        (map program_of made.now.programs) made.now.graph.order) }
    ensures refused { IfErr result
        (λ e. IfRefused e (IsTooLargeProbed asked.now.terms.limits asked.now.terms.given
        (map program_of made.now.programs) wanted.now)) }
{
    let names = names_of(alloc, made)?;
    let plan = Plan {
        programs: made.programs.as_slice(),
        order: &made.graph.order,
    };
    let named = NamedPlan {
        plan: &plan,
        names: names.as_slice(),
        notes: asked.notes.as_str().as_bytes(),
    };
    told(alloc, &asked.terms, wanted, &named)
}
