//! What is told where runs part.

ghost use Rattle.std.specs.Prelude.{◌≡◌, length, map, IfOk};
ghost use Rattle.fs_lang.specs.Meaning.{program_of};
ghost use Rattle.given_hosts.specs.Given.{IsDeterministicFrom};
ghost use Rattle.orders.specs.Relation.{Relation, Comes};
ghost use Rattle.given_verdict.specs.First.{IsDifferenceFrom};
ghost use Rattle.given_verdict.specs.Second.{IsChangeFrom};
ghost use Rattle.verdict_report.specs.Told.{HasOrders, HasTurns};
ghost use Rattle.explain_report.specs.Told.{ExplainsDifference, ExplainsChange};

use crate::lines::{again_text, apart_text};
use explained_runs::{again_lines, apart_lines};
use fs_lang::{Path, Program};
use order_encode::Witness;
use rh_base::{NoMemory, Text};
use std::alloc::Global;
use verdict_report::Report;

/// What is told of two orders that end apart.
pub fn explain_difference(
    alloc: Global,
    head: &[u8],
    names: &[Text],
    programs: &[Program],
    witness: &Witness,
    given: &[Path],
) -> Result<Report, NoMemory>
    requires { HasOrders (length programs.now) witness.now }
    ensures { IfOk result (λ report. (order : Relation) → IsDifferenceFrom given.now (map program_of programs.now) (Comes order) witness.now
        → ExplainsDifference given.now names.now (map program_of programs.now) order head.now report) }
{
    let Witness::Orders { tree, left, right } = witness else {
        unreachable!();
    };
    let first = left.as_slice();
    let second = right.as_slice();
    let lines = apart_lines(alloc, names, programs, tree, first, second, given)?;
    let text = apart_text(alloc, head, lines.as_slice())?;
    Ok(Report { status: 1, text })
}

/// What is told of a second run that changes what the first left.
pub fn explain_change(
    alloc: Global,
    head: &[u8],
    names: &[Text],
    programs: &[Program],
    witness: &Witness,
    given: &[Path],
) -> Result<Report, NoMemory>
    requires { HasTurns (length programs.now) witness.now }
    ensures { IfOk result (λ report. (order : Relation) → IsDeterministicFrom given.now (map program_of programs.now) (Comes order)
        → IsChangeFrom given.now (map program_of programs.now) order witness.now
        → ExplainsChange given.now names.now (map program_of programs.now) order head.now report) }
{
    let Witness::Twice { tree, order } = witness else {
        unreachable!();
    };
    let turns = order.as_slice();
    let lines = again_lines(alloc, names, programs, tree, turns, given)?;
    let text = again_text(alloc, head, lines.as_slice())?;
    Ok(Report { status: 2, text })
}
