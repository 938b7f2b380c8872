//! What is told of two graphs that are compared.

ghost use Rattle.std.specs.Prelude.{◌≡◌, ◌++◌, ◌<◌, length, IfOk, IfErr};
ghost use Rattle.std.specs.List.{AllByRecursion};
ghost use Rattle.rh_base.specs.Refused.{IfRefused};
ghost use Rattle.plans.specs.Plans.{meant_by};
ghost use Rattle.entry_report.specs.Lines.{first_lines};
ghost use Rattle.entry_report.specs.Steps.{IsTellableFirst};
ghost use Rattle.given_equal.specs.Sizes.{IsTooLargeJoined};
ghost use Rattle.equal_report.specs.Lines.{settled_lines, status_of, lines_of};
ghost use Rattle.equal_report.specs.Steps.{IsTellable, IsReportOf};
ghost use Rattle.equal_report.specs.Told.{IsComparedTold};

use crate::lines::{equal_text, push_settled, spent_equal_text, unequal_text};
use crate::turns::Turns;
use determinism::First;
use entry_report::{first_lines, first_status};
use equal_graphs::Compared;
use given_equal::compare_from;
use order_places::allowed_orders;
use question_terms::Terms;
use rh_base::{Fault, NoMemory, Seq};
use std::alloc::Global;
use verdict_report::{NamedPlan, Report};
use verdict_text::push_bytes;

fn status_of(compared: &Compared) -> u8
    ensures { result ≡ status_of compared.now }
{
    match compared {
        Compared::Left(first) => first_status(first),
        Compared::Right { right, .. } => first_status(right),
        Compared::Equal { .. } => 0,
        Compared::Differ { .. } => 10,
        Compared::Spent { .. } => 3,
    }
}

/// The lines where the left graph is deterministic, and the right one isn't known to be.
fn right_lines(
    alloc: Global,
    left: &NamedPlan<'_>,
    pruned: u32,
    right: &NamedPlan<'_>,
    budget: u64,
    first: &First,
) -> Result<Seq<u8>, NoMemory>
    requires { IsTellableFirst (length right.now.names.now) first.now }
    ensures { IfOk result (λ text. text ≡ settled_lines (length left.now.plan.now.programs.now) left.now.notes.now pruned
        ++ first_lines right.now.names.now (meant_by right.now.plan.now) right.now.notes.now budget first.now) }
{
    let rest = first_lines(alloc, right, budget, first)?;
    let mut bytes = Vec::new(alloc);
    push_settled(alloc, left, pruned, &mut bytes)?;
    push_bytes(rest.as_slice(), &mut bytes)?;
    Ok(Seq::from_vec(bytes))
}

/// The lines on an answer. Where two runs are told, they are in these orders.
fn lines_of(
    alloc: Global,
    left: &Turns<'_>,
    right: &Turns<'_>,
    budget: u64,
    compared: &Compared,
) -> Result<Seq<u8>, NoMemory>
    requires left { AllByRecursion (λ i. i < length left.now.named.now.names.now) left.now.order.now }
    requires right { AllByRecursion (λ i. i < length right.now.named.now.names.now) right.now.order.now }
    requires told { IsTellable (length left.now.named.now.names.now) (length right.now.named.now.names.now) compared.now }
    ensures { IfOk result (λ text. text ≡ lines_of left.now.named.now.notes.now right.now.named.now.notes.now
        left.now.named.now.names.now (meant_by left.now.named.now.plan.now) left.now.order.now
        right.now.named.now.names.now (meant_by right.now.named.now.plan.now) right.now.order.now budget compared.now) }
{
    let one = left.named;
    let other = right.named;
    match compared {
        Compared::Left(first) => first_lines(alloc, one, budget, first),
        Compared::Right {
            left: settled,
            right: first,
        } => right_lines(alloc, one, settled.pruned, other, budget, first),
        Compared::Equal {
            left: l,
            right: r,
            ..
        } => equal_text(alloc, one, l.pruned, other, r.pruned),
        Compared::Differ {
            left: l,
            right: r,
            tree,
        } => unequal_text(alloc, left, l.pruned, right, r.pruned, tree),
        Compared::Spent {
            left: l,
            right: r,
            ..
        } => spent_equal_text(alloc, one, l.pruned, other, r.pruned, budget),
    }
}

/// An answer, as it is told.
fn report_of(
    alloc: Global,
    left: &NamedPlan<'_>,
    right: &NamedPlan<'_>,
    budget: u64,
    compared: &Compared,
) -> Result<Report, NoMemory>
    requires { IsTellable (length left.now.names.now) (length right.now.names.now) compared.now }
    ensures { IfOk result (IsReportOf left.now.notes.now right.now.notes.now left.now.names.now (meant_by left.now.plan.now)
        left.now.plan.now.order.now right.now.names.now (meant_by right.now.plan.now) right.now.plan.now.order.now
        budget compared.now) }
{
    let status = status_of(compared);
    let one = left.plan.order.first_extension()?;
    let second = right.plan.order.first_extension()?;
    let first = Turns {
        named: left,
        order: one.as_slice(),
    };
    let other = Turns {
        named: right,
        order: second.as_slice(),
    };
    let text = lines_of(alloc, &first, &other, budget, compared)?;
    Ok(Report { status, text })
}

/// What is told of two graphs that are compared: whether they do the same.
pub fn told(
    alloc: Global,
    terms: &Terms,
    left: &NamedPlan<'_>,
    right: &NamedPlan<'_>,
) -> Result<Report, Fault>
    ensures told { IfOk result
        (IsComparedTold terms.now left.now.notes.now right.now.notes.now left.now.names.now (meant_by left.now.plan.now)
        left.now.plan.now.order.now right.now.names.now (meant_by right.now.plan.now) right.now.plan.now.order.now) }
    // It is refused exactly where the two are too large to be compared.
    ensures refused { IfErr result
        (λ e. IfRefused e (IsTooLargeJoined terms.now.limits terms.now.given (meant_by left.now.plan.now)
        (meant_by right.now.plan.now))) }
{
    allowed_orders();
    let compared = compare_from(alloc, left.plan, right.plan, terms)?;
    let budget = terms.budget();
    let report = report_of(alloc, left, right, budget, &compared)?;
    Ok(report)
}
