//! What is told where all is well.

ghost use Rattle.std.specs.Prelude.{◌≡◌, ◌++◌, IfOk};
ghost use Rattle.given_hosts.specs.Given.{IsDeterministicFrom, IsIdempotentFrom};
ghost use Rattle.orders.specs.Relation.{Comes};
ghost use Rattle.plans.specs.Plans.{meant_by};
ghost use Rattle.verdict_report.specs.Lines.{last_line};
ghost use Rattle.explain_report.specs.Told.{IsEnding, ExplainsSure};
ghost use Rattle.explain_report.specs.Steps.{EndHolds};

use crate::lines::sure_text;
use explained_runs::nothing_line;
use fs_lang::Path;
use plans::Plan;
use rh_base::{NoMemory, Seq, Text};
use std::alloc::Global;
use verdict::Ends;
use verdict_report::{Report, push_last};
use verdict_text::push_bytes;

/// The last line, and what follows it.
fn last_text(alloc: Global, end: &Ends, more: &[u8]) -> Result<Seq<u8>, NoMemory>
    ensures { IfOk result (λ last. last ≡ last_line end.now ++ more.now) }
{
    let mut bytes = Vec::new(alloc);
    push_last(end, &mut bytes)?;
    push_bytes(more, &mut bytes)?;
    Ok(Seq::from_vec(bytes))
}

/// The end of the text.
fn ending(
    alloc: Global,
    names: &[Text],
    plan: &Plan<'_>,
    end: &Ends,
    given: &[Path],
) -> Result<Seq<u8>, NoMemory>
    requires { EndHolds given.now (meant_by plan.now) plan.now.order.now end.now }
    ensures { IfOk result (IsEnding given.now names.now (meant_by plan.now) plan.now.order.now) }
{
    match end {
        Ends::From(_) => last_text(alloc, end, &[]),
        Ends::Never(_) => {
            let line = nothing_line(alloc, names, plan.programs, plan.order, given)?;
            last_text(alloc, end, line.as_slice())
        }
    }
}

/// What is told where all is well.
pub fn explain_sure(
    alloc: Global,
    head: &[u8],
    names: &[Text],
    plan: &Plan<'_>,
    end: &Ends,
    given: &[Path],
) -> Result<Report, NoMemory>
    requires deterministic { IsDeterministicFrom given.now (meant_by plan.now) (Comes plan.now.order.now) }
    requires idempotent { IsIdempotentFrom given.now (meant_by plan.now) (Comes plan.now.order.now) }
    requires holds { EndHolds given.now (meant_by plan.now) plan.now.order.now end.now }
    ensures { IfOk result (ExplainsSure given.now names.now (meant_by plan.now) plan.now.order.now head.now) }
{
    let last = ending(alloc, names, plan, end, given)?;
    let text = sure_text(alloc, head, last.as_slice())?;
    Ok(Report { status: 0, text })
}
