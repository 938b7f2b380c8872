//! The lines on an entry that is wanted.

ghost use Rattle.std.specs.Prelude.{◌≡◌, ◌++◌, length, IfOk, OnOk};
ghost use Rattle.plans.specs.Plans.{meant_by};
ghost use Rattle.entry_report.specs.Lines.{ensured_text, missed_of, known_lines, question_name, spent_late_text};
ghost use Rattle.verdict_report.specs.Lines.{last_line};
ghost use Rattle.entry_report.specs.Steps.{HasRun};

use ensured_entry::Late;
use order_encode::Witness;
use rh_base::{NoMemory, Seq};
use std::alloc::Global;
use verdict::Ends;
use verdict_report::{NamedPlan, begun, push_last, push_run};
use verdict_text::{push_bytes, push_tree};

/// The lines where each run that ends leaves the entry.
pub fn ensured_text(
    alloc: Global,
    named: &NamedPlan<'_>,
    pruned: u32,
    end: &Ends,
) -> Result<Seq<u8>, NoMemory>
    ensures { IfOk result (λ text. text ≡ ensured_text (length named.now.plan.now.programs.now) named.now.notes.now pruned
        (last_line end.now)) }
{
    let mut bytes = begun(alloc, named, pruned, b"deterministic\nensured\n")?;
    push_last(end, &mut bytes)?;
    Ok(Seq::from_vec(bytes))
}

/// The lines on a run that ends without the entry.
pub fn missed_text(
    alloc: Global,
    named: &NamedPlan<'_>,
    pruned: u32,
    witness: &Witness,
) -> Result<Seq<u8>, NoMemory>
    requires { HasRun (length named.now.names.now) witness.now }
    ensures { IfOk result (λ text. text ≡ missed_of named.now.names.now (meant_by named.now.plan.now)
        named.now.notes.now pruned witness.now) }
{
    let Witness::Ends { tree, order } = witness else {
        unreachable!();
    };
    let turns = order.as_slice();
    let mut bytes = begun(alloc, named, pruned, b"deterministic\nnot ensured\n")?;
    push_tree(alloc, tree, &mut bytes)?;
    push_run(alloc, named, tree, turns, &mut bytes)?;
    Ok(Seq::from_vec(bytes))
}

fn push_known(asked: &Late, into: &mut Vec<u8>) -> Result<(), NoMemory>
    ensures { OnOk result (into.new.items ≡ into.old.items ++ known_lines asked.now) }
{
    match asked {
        Late::Ensures => push_bytes(b"deterministic\n", into),
        Late::Succeeds => push_bytes(b"deterministic\nensured\n", into),
    }
}

fn question_name(asked: &Late) -> &'static str
    ensures { result.now ≡ question_name asked.now }
{
    match asked {
        Late::Ensures => "ensures",
        Late::Succeeds => "succeeds",
    }
}

/// The lines where a question's conflicts are spent.
pub fn spent_late_text(
    alloc: Global,
    named: &NamedPlan<'_>,
    pruned: u32,
    asked: &Late,
    budget: u64,
) -> Result<Seq<u8>, NoMemory>
    ensures { IfOk result (λ text. text ≡ spent_late_text (length named.now.plan.now.programs.now) named.now.notes.now pruned
        asked.now budget) }
{
    let name = question_name(asked);
    let line = format!(in alloc; "spent {name} {budget}\n")?;
    let mut bytes = begun(alloc, named, pruned, b"")?;
    push_known(asked, &mut bytes)?;
    push_bytes(line.as_str().as_bytes(), &mut bytes)?;
    Ok(Seq::from_vec(bytes))
}
