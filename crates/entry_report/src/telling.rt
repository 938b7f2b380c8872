//! What is told of an entry that is wanted.

ghost use Rattle.std.specs.Prelude.{◌≡◌, length, IfOk, IfErr};
ghost use Rattle.rh_base.specs.Refused.{IfRefused};
ghost use Rattle.plans.specs.Plans.{meant_by};
ghost use Rattle.given_entry.specs.Sizes.{IsTooLargeProbed};
ghost use Rattle.entry_report.specs.Lines.{status_of, first_status, first_lines, lines_of};
ghost use Rattle.entry_report.specs.Steps.{IsTellable, IsTellableFirst, IsReportOf};
ghost use Rattle.entry_report.specs.Told.{IsEntryTold};

use crate::lines::{ensured_text, missed_text, spent_late_text};
use determinism::First;
use ensured_entry::Ensured;
use given_entry::judge_entry_from;
use question_terms::Terms;
use rh_base::{Fault, NoMemory, Seq};
use std::alloc::Global;
use verdict::Asked;
use verdict_report::{NamedPlan, Report, difference_text, spent_text};
use wanted_entry::Wanted;

/// The status that goes with it where a graph isn't known to be deterministic.
pub fn first_status(first: &First) -> u8
    ensures { result ≡ first_status first.now }
{
    match first {
        First::Sure { .. } => 0,
        First::Differs { .. } => 1,
        First::Spent { .. } => 3,
    }
}

fn status_of(answered: &Ensured) -> u8
    ensures { result ≡ status_of answered.now }
{
    match answered {
        Ensured::First(first) => first_status(first),
        Ensured::Holds { .. } => 0,
        Ensured::Fails { .. } => 9,
        Ensured::Spent { .. } => 3,
    }
}

/// The lines where the graph isn't known to be deterministic.
pub fn first_lines(
    alloc: Global,
    named: &NamedPlan<'_>,
    budget: u64,
    first: &First,
) -> Result<Seq<u8>, NoMemory>
    requires { IsTellableFirst (length named.now.names.now) first.now }
    ensures { IfOk result (λ text. text ≡ first_lines named.now.names.now (meant_by named.now.plan.now)
        named.now.notes.now budget first.now) }
{
    match first {
        First::Sure { .. } => unreachable!(),
        First::Differs { pruned, witness } => { difference_text(alloc, named, *pruned, witness) }
        First::Spent { pruned, .. } => spent_text(
            alloc,
            named,
            *pruned,
            &Asked::Deterministic,
            budget,
        ),
    }
}

/// The lines on an answer.
fn lines_of(
    alloc: Global,
    named: &NamedPlan<'_>,
    budget: u64,
    answered: &Ensured,
) -> Result<Seq<u8>, NoMemory>
    requires { IsTellable (length named.now.names.now) answered.now }
    ensures { IfOk result (λ text. text ≡ lines_of named.now.names.now (meant_by named.now.plan.now)
        named.now.notes.now budget answered.now) }
{
    match answered {
        Ensured::First(first) => first_lines(alloc, named, budget, first),
        Ensured::Holds { settled, ends, .. } => ensured_text(alloc, named, settled.pruned, ends),
        Ensured::Fails { settled, witness } => {
            missed_text(alloc, named, settled.pruned, witness)
        }
        Ensured::Spent { settled, asked, .. } => spent_late_text(
            alloc,
            named,
            settled.pruned,
            asked,
            budget,
        ),
    }
}

/// An answer, as it is told.
fn report_of(
    alloc: Global,
    named: &NamedPlan<'_>,
    budget: u64,
    answered: &Ensured,
) -> Result<Report, NoMemory>
    requires { IsTellable (length named.now.names.now) answered.now }
    ensures { IfOk result (IsReportOf named.now.notes.now named.now.names.now (meant_by named.now.plan.now) budget answered.now) }
{
    let status = status_of(answered);
    let text = lines_of(alloc, named, budget, answered)?;
    Ok(Report { status, text })
}

/// What is told of programs in an order and an entry that is wanted.
pub fn told(
    alloc: Global,
    terms: &Terms,
    wanted: &Wanted,
    named: &NamedPlan<'_>,
) -> Result<Report, Fault>
    ensures told { IfOk result
        (IsEntryTold terms.now named.now.notes.now wanted.now named.now.names.now (meant_by named.now.plan.now)
        named.now.plan.now.order.now) }
    // It is refused exactly where the graph is too large to be asked about, or the domain with the entry is.
    ensures refused { IfErr result
        (λ e. IfRefused e (IsTooLargeProbed terms.now.limits terms.now.given
        (meant_by named.now.plan.now) wanted.now)) }
{
    let answered = judge_entry_from(alloc, named.plan, wanted, terms)?;
    let budget = terms.budget();
    let report = report_of(alloc, named, budget, &answered)?;
    Ok(report)
}
