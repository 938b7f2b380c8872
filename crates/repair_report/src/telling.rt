//! What is told of a repair.

ghost use Rattle.std.specs.Prelude.{◌≡◌, length, IfOk, IfErr};
ghost use Rattle.rh_base.specs.Refused.{IfRefused};
ghost use Rattle.plans.specs.Plans.{meant_by};
ghost use Rattle.given_verdict.specs.Limits.{IsTooLargeWith};
ghost use Rattle.repair_report.specs.Told.{IsRepairTold};
ghost use Rattle.repair_report.specs.Steps.{AreTellable, IsReportOf};

use crate::lines::{repaired_text, unrepaired_text};
use given_repair::repair_from;
use question_terms::Terms;
use repair::Repaired;
use rh_base::{Fault, NoMemory};
use std::alloc::Global;
use verdict_report::{NamedPlan, Report, printed};

/// A repair, as it is told.
fn report_of(
    alloc: Global,
    named: &NamedPlan<'_>,
    budget: u64,
    repaired: &Repaired,
) -> Result<Report, NoMemory>
    requires { AreTellable (length named.now.names.now) repaired.now }
    ensures { IfOk result (IsReportOf named.now.names.now (length named.now.plan.now.programs.now)
        named.now.notes.now budget repaired.now) }
{
    let n = named.plan.programs.len();
    match repaired {
        Repaired::Done { added } => {
            let text = repaired_text(alloc, named.names, n, named.notes, added.as_slice())?;
            Ok(printed(text))
        }
        Repaired::Spent { .. } => {
            let text = unrepaired_text(alloc, n, named.notes, budget)?;
            Ok(Report { status: 3, text })
        }
    }
}

/// What is told of the arrows that programs in an order lack. The names of the resources are as they are written in Puppet.
pub fn told(alloc: Global, terms: &Terms, named: &NamedPlan<'_>) -> Result<Report, Fault>
    ensures told { IfOk result
        (IsRepairTold terms.now named.now.notes.now named.now.names.now (meant_by named.now.plan.now)
        named.now.plan.now.order.now) }
    // It is refused exactly where the graph is too large to be asked about.
    ensures refused { IfErr result
        (λ e. IfRefused e (IsTooLargeWith terms.now.limits terms.now.given (meant_by named.now.plan.now))) }
{
    let repaired = repair_from(alloc, named.plan, terms)?;
    let budget = terms.budget();
    let report = report_of(alloc, named, budget, &repaired)?;
    Ok(report)
}
