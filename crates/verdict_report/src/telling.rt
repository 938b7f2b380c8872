//! What is told of programs and the order between them.

ghost use Rattle.std.specs.Prelude.{◌≡◌, [], length, IfOk, IfErr};
ghost use Rattle.rh_base.specs.Refused.{IfRefused};
ghost use Rattle.plans.specs.Plans.{meant_by};
ghost use Rattle.given_verdict.specs.Limits.{IsTooLargeWith};
ghost use Rattle.verdict_report.specs.Lines.{status_of, answer_of, lines_of, proofs_of};
ghost use Rattle.verdict_report.specs.Told.{IsTextOf, IsReportOf, IsTellable, IsTellableAgain, IsTold};
ghost use Rattle.verdict_report.specs.declared.report.Form.TheVariants as form_is;

use crate::lines::{spent_text, sure_text};
use crate::named::NamedPlan;
use crate::proofs::{all_trimmed, proofs_of, proofs_text};
use crate::report::{Form, Report};
use crate::runs::{change_text, difference_text};
use given_verdict::judge_from;
use question_terms::Terms;
use rh_base::{Fault, NoMemory, Seq};
use std::alloc::Global;
use verdict::{Ends, Second, Verdict};

fn status_of(judged: &Verdict) -> u8
    ensures { result ≡ status_of judged.now }
{
    match judged {
        Verdict::NotDeterministic { .. } => 1,
        Verdict::Judged {
            second: Second::Same(_),
            ..
        } => 0,
        Verdict::Judged {
            second: Second::Differs(_),
            ..
        } => 2,
        Verdict::Spent { .. } => 3,
    }
}

/// The lines on deterministic programs.
fn answer_of(
    alloc: Global,
    named: &NamedPlan<'_>,
    pruned: u32,
    second: &Second,
    end: &Ends,
) -> Result<Seq<u8>, NoMemory>
    requires { IsTellableAgain (length named.now.names.now) second.now }
    ensures { IfOk result (λ text. text ≡ answer_of named.now.names.now (meant_by named.now.plan.now)
        named.now.notes.now pruned second.now end.now) }
{
    match second {
        Second::Same(_) => sure_text(alloc, named, pruned, end),
        Second::Differs(witness) => change_text(alloc, named, pruned, witness),
    }
}

/// The lines on a verdict.
fn lines_of(
    alloc: Global,
    named: &NamedPlan<'_>,
    budget: u64,
    judged: &Verdict,
) -> Result<Seq<u8>, NoMemory>
    requires { IsTellable (length named.now.names.now) judged.now }
    ensures { IfOk result (λ text. text ≡ lines_of named.now.names.now (meant_by named.now.plan.now)
        named.now.notes.now budget judged.now) }
{
    match judged {
        Verdict::NotDeterministic { pruned, witness } => {
            difference_text(alloc, named, *pruned, witness)
        }
        Verdict::Judged {
            pruned,
            second,
            ends,
            ..
        } => answer_of(alloc, named, *pruned, second, ends),
        Verdict::Spent { pruned, asked, .. } => spent_text(alloc, named, *pruned, asked, budget),
    }
}

/// The proofs in a verdict. A solver writes a step for each conflict; only those that are used are told.
#[tactic(auto, using(crate::proofs::TrimmedLaws::told_proofs))]
fn proofs_in(alloc: Global, judged: Verdict) -> Result<Seq<u8>, NoMemory>
    ensures { IfOk result (IsTextOf form_is.Proofs [] (proofs_of judged)) }
{
    let refuted = proofs_of(alloc, judged)?;
    let left = all_trimmed(alloc, refuted.as_slice())?;
    let text = proofs_text(alloc, left.as_slice())?;
    Ok(text)
}

/// A verdict, as it is told.
fn report_of(
    alloc: Global,
    form: Form,
    named: &NamedPlan<'_>,
    budget: u64,
    judged: Verdict,
) -> Result<Report, NoMemory>
    requires { IsTellable (length named.now.names.now) judged }
    ensures { IfOk result (IsReportOf form named.now.notes.now named.now.names.now (meant_by named.now.plan.now) budget judged) }
{
    let status = status_of(&judged);
    let text = match form {
        Form::Lines => lines_of(alloc, named, budget, &judged)?,
        Form::Proofs => proofs_in(alloc, judged)?,
    };
    Ok(Report { status, text })
}

/// What is told of programs and the order between them, in one form or the other.
pub fn told(
    alloc: Global,
    form: Form,
    terms: &Terms,
    named: &NamedPlan<'_>,
) -> Result<Report, Fault>
    ensures told { IfOk result
        (IsTold form terms.now named.now.notes.now named.now.names.now (meant_by named.now.plan.now)
        named.now.plan.now.order.now) }
    // It is refused exactly where the graph is too large to be asked about.
    ensures refused { IfErr result
        (λ e. IfRefused e (IsTooLargeWith terms.now.limits terms.now.given (meant_by named.now.plan.now))) }
{
    let judged = judge_from(alloc, named.plan, terms)?;
    let budget = terms.budget();
    let report = report_of(alloc, form, named, budget, judged)?;
    Ok(report)
}
