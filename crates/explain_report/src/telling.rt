//! What is explained of programs and the order between them.

ghost use Rattle.std.specs.Prelude.{◌≡◌, length, IfOk, IfErr};
ghost use Rattle.rh_base.specs.Refused.{IfRefused};
ghost use Rattle.plans.specs.Plans.{meant_by};
ghost use Rattle.question_terms.specs.Terms.{budget_of};
ghost use Rattle.verdict.specs.Verdicts.{pruned_in};
ghost use Rattle.given_verdict.specs.Limits.{IsTooLargeWith};
ghost use Rattle.given_verdict.specs.Answers.{IsVerdictFrom};
ghost use Rattle.verdict_report.specs.Lines.{head_lines};
ghost use Rattle.verdict_report.specs.Told.{IsTellable};
ghost use Rattle.verdict_report.specs.declared.report.Report.{Report as R};
ghost use Rattle.explain_report.specs.Lines.{spent_text};
ghost use Rattle.explain_report.specs.Told.{Explains, IsExplained};

use crate::lines::{noted_head, spent_text};
use crate::parting::{explain_change, explain_difference};
use crate::sure::explain_sure;
use given_verdict::judge_from;
use plans::Plan;
use question_terms::Terms;
use rh_base::{Fault, NoMemory, Text};
use std::alloc::Global;
use verdict::{Asked, Second, Verdict};
use verdict_report::Report;

/// How many programs pruning doesn't keep.
fn pruned_in(judged: &Verdict) -> u32
    ensures { result ≡ pruned_in judged.now }
{
    match judged {
        Verdict::NotDeterministic { pruned, .. } => *pruned,
        Verdict::Judged { pruned, .. } => *pruned,
        Verdict::Spent { pruned, .. } => *pruned,
    }
}

/// What is told where a question's conflicts are spent.
fn explain_spent(alloc: Global, head: &[u8], asked: &Asked, budget: u64) -> Result<Report, NoMemory>
    ensures { IfOk result (λ report. report ≡ record { status = 3; text = spent_text head.now asked.now budget }) }
{
    let text = spent_text(alloc, head, asked, budget)?;
    Ok(Report { status: 3, text })
}

/// A verdict, as it is explained.
fn explain(
    alloc: Global,
    terms: &Terms,
    head: &[u8],
    names: &[Text],
    plan: &Plan<'_>,
    judged: &Verdict,
) -> Result<Report, NoMemory>
    requires places { IsTellable (length plan.now.programs.now) judged.now }
    requires verdict { IsVerdictFrom terms.now.given (meant_by plan.now) plan.now.order.now (budget_of terms.now.conflicts) judged.now }
    ensures { IfOk result (Explains terms.now names.now (meant_by plan.now) plan.now.order.now head.now) }
{
    let given = terms.given.as_slice();
    match judged {
        Verdict::NotDeterministic { witness, .. } => {
            explain_difference(alloc, head, names, plan.programs, witness, given)
        }
        Verdict::Judged {
            second: Second::Same(_),
            ends,
            ..
        } => explain_sure(alloc, head, names, plan, ends, given),
        Verdict::Judged {
            second: Second::Differs(witness),
            ..
        } => explain_change(alloc, head, names, plan.programs, witness, given),
        Verdict::Spent { asked, .. } => explain_spent(alloc, head, asked, terms.budget()),
    }
}

/// What is explained of programs and the order between them. The resources have these names, and these notes stand behind their
/// number.
pub fn told(
    alloc: Global,
    terms: &Terms,
    notes: &[u8],
    names: &[Text],
    plan: &Plan<'_>,
) -> Result<Report, Fault>
    ensures told { IfOk result (IsExplained terms.now notes.now names.now (meant_by plan.now) plan.now.order.now) }
    // It is refused exactly where the graph is too large to be asked about.
    ensures refused { IfErr result (λ e. IfRefused e (IsTooLargeWith terms.now.limits terms.now.given (meant_by plan.now))) }
{
    let judged = judge_from(alloc, plan, terms)?;
    let head = noted_head(alloc, plan.programs.len(), notes, pruned_in(&judged))?;
    let shown = head.as_slice();
    let report = explain(alloc, terms, shown, names, plan, &judged)?;
    Ok(report)
}
