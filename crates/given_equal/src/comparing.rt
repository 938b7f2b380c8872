//! Comparing two graphs.

ghost use Rattle.std.specs.Prelude.{◌≢◌, ◌≤◌, [], IfOk, IfErr};
ghost use Rattle.rh_base.specs.Refused.{IfRefused};
ghost use Rattle.plans.specs.Plans.{meant_by};
ghost use Rattle.question_terms.specs.Terms.{budget_of};
ghost use Rattle.given_equal.specs.Sizes.{AreWithinWith, IsTooLargeJoined};
ghost use Rattle.given_equal.specs.Answers.{IsComparedFrom};

use crate::limits::check_within;
use crate::without::compared_without;
use commute_prune::pruning;
use equal_graphs::{Compared, compare};
use fs_lang::Path;
use guarded_graph::{guard_is_pruned, with_guard};
use order_extensions::has_first_extension;
use plans::Plan;
use question_terms::Terms;
use rh_base::{Fault, NoMemory};
use std::alloc::Global;

/// Asks about both graphs, each with the guard in front. What pruning keeps is what it keeps of the programs, whatever is given.
fn guarded_compare(
    alloc: Global,
    left: &Plan<'_>,
    right: &Plan<'_>,
    given: &[Path],
    budget: u64,
) -> Result<Compared, NoMemory>
    requires budget { 1 ≤ budget }
    requires given { given.now ≢ [] }
    ensures { IfOk result
        (IsComparedFrom given.now (meant_by left.now) left.now.order.now (meant_by right.now) right.now.order.now budget) }
{
    pruning();
    guard_is_pruned();
    let one = with_guard(alloc, left, given)?;
    let second = with_guard(alloc, right, given)?;
    // First extensions stand for all orders.
    has_first_extension(left.order);
    has_first_extension(&one.order);
    has_first_extension(right.order);
    has_first_extension(&second.order);
    let first = Plan {
        programs: one.programs.as_slice(),
        order: &one.order,
    };
    let other = Plan {
        programs: second.programs.as_slice(),
        order: &second.order,
    };
    let answered = compare(alloc, &first, &other, budget)?;
    compared_without(alloc, answered)
}

/// The answer, however large the graphs are. Where no folder is given the graphs themselves are asked about.
fn compared_from(
    alloc: Global,
    left: &Plan<'_>,
    right: &Plan<'_>,
    given: &[Path],
    budget: u64,
) -> Result<Compared, NoMemory>
    requires { 1 ≤ budget }
    ensures { IfOk result
        (IsComparedFrom given.now (meant_by left.now) left.now.order.now (meant_by right.now) right.now.order.now budget) }
{
    if given.is_empty() {
        return compare(alloc, left, right, budget);
    }
    guarded_compare(alloc, left, right, given, budget)
}

/// Whether two graphs do the same from the trees in which the given folders stand: the question of the graphs with a guard in front of
/// each, which ends in Error elsewhere. Each question has the whole budget.
pub fn compare_from(
    alloc: Global,
    left: &Plan<'_>,
    right: &Plan<'_>,
    terms: &Terms,
) -> Result<Compared, Fault>
    // It is refused exactly where the two are too large: together by the paths of their domain, or one of them by itself.
    ensures within { IfOk result
        (λ c. AreWithinWith terms.now.limits terms.now.given (meant_by left.now) (meant_by right.now)) }
    ensures refused { IfErr result
        (λ e. IfRefused e (IsTooLargeJoined terms.now.limits terms.now.given (meant_by left.now)
        (meant_by right.now))) }
    ensures only { AreWithinWith terms.now.limits terms.now.given (meant_by left.now) (meant_by right.now)
        → IfErr result (λ e. IfRefused e (λ r. ⊥)) }
    ensures compared { IfOk result
        (IsComparedFrom terms.now.given (meant_by left.now) left.now.order.now (meant_by right.now) right.now.order.now
        (budget_of terms.now.conflicts)) }
{
    let given = terms.given.as_slice();
    check_within(alloc, left.programs, right.programs, given, terms.limits)?;
    let compared = compared_from(alloc, left, right, given, terms.budget())?;
    Ok(compared)
}
