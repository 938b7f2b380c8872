//! The lines on numbers, answers and questions.

ghost use Rattle.std.specs.Prelude.{◌≡◌, ◌++◌, length, IfOk, OnOk};
ghost use Rattle.verdict_report.specs.Lines.{count_lines, head_lines, last_line, sure_text, known_lines, question_name, spent_line, spent_text};

use crate::named::NamedPlan;
use rh_base::{NoMemory, Seq};
use std::alloc::Global;
use verdict::{Asked, Ends};
use verdict_text::push_bytes;

/// Appends how many resources there are, and the notes that stand behind that.
pub fn push_count(alloc: Global, n: usize, notes: &[u8], into: &mut Vec<u8>) -> Result<(), NoMemory>
    ensures { OnOk result (into.new.items ≡ into.old.items ++ count_lines n notes.now) }
{
    let count = format!(in alloc; "resources {n}\n")?;
    push_bytes(count.as_str().as_bytes(), into)?;
    push_bytes(notes, into)
}

/// Appends how many resources there are, with notes, and how many pruning leaves aside.
pub fn push_head(
    alloc: Global,
    n: usize,
    notes: &[u8],
    pruned: u32,
    into: &mut Vec<u8>,
) -> Result<(), NoMemory>
    ensures { OnOk result (into.new.items ≡ into.old.items ++ head_lines n notes.now pruned) }
{
    push_count(alloc, n, notes, into)?;
    let line = format!(in alloc; "pruned {pruned}\n")?;
    push_bytes(line.as_str().as_bytes(), into)
}

/// Begins the lines on a graph with its head, and what is known of it.
pub fn begun(
    alloc: Global,
    named: &NamedPlan<'_>,
    pruned: u32,
    known: &[u8],
) -> Result<Vec<u8>, NoMemory>
    ensures { IfOk result (λ bytes. bytes.items ≡ head_lines (length named.now.plan.now.programs.now) named.now.notes.now pruned
        ++ known.now) }
{
    let mut bytes = Vec::new(alloc);
    push_head(
        alloc,
        named.plan.programs.len(),
        named.notes,
        pruned,
        &mut bytes,
    )?;
    push_bytes(known, &mut bytes)?;
    Ok(bytes)
}

/// Appends whether some tree has a run without error.
pub fn push_last(end: &Ends, into: &mut Vec<u8>) -> Result<(), NoMemory>
    ensures { OnOk result (into.new.items ≡ into.old.items ++ last_line end.now) }
{
    match end {
        Ends::From(_) => push_bytes(b"succeeds from some tree\n", into),
        Ends::Never(_) => push_bytes(b"fails from every tree\n", into),
    }
}

/// The lines where all is well.
pub fn sure_text(
    alloc: Global,
    named: &NamedPlan<'_>,
    pruned: u32,
    end: &Ends,
) -> Result<Seq<u8>, NoMemory>
    ensures { IfOk result (λ text. text ≡ sure_text (length named.now.plan.now.programs.now) named.now.notes.now pruned
        (last_line end.now)) }
{
    let mut bytes = begun(alloc, named, pruned, b"deterministic\nidempotent\n")?;
    push_last(end, &mut bytes)?;
    Ok(Seq::from_vec(bytes))
}

/// Appends what is known when a question is asked.
pub fn push_known(asked: &Asked, into: &mut Vec<u8>) -> Result<(), NoMemory>
    ensures { OnOk result (into.new.items ≡ into.old.items ++ known_lines asked.now) }
{
    match asked {
        Asked::Deterministic => Ok(()),
        Asked::Idempotent => push_bytes(b"deterministic\n", into),
        Asked::Succeeds => push_bytes(b"deterministic\nidempotent\n", into),
    }
}

fn question_name(asked: &Asked) -> &'static str
    ensures { result.now ≡ question_name asked.now }
{
    match asked {
        Asked::Deterministic => "deterministic",
        Asked::Idempotent => "idempotent",
        Asked::Succeeds => "succeeds",
    }
}

/// Appends that a question's conflicts are spent.
pub fn push_spent(
    alloc: Global,
    asked: &Asked,
    budget: u64,
    into: &mut Vec<u8>,
) -> Result<(), NoMemory>
    ensures { OnOk result (into.new.items ≡ into.old.items ++ spent_line asked.now budget) }
{
    let name = question_name(asked);
    let line = format!(in alloc; "spent {name} {budget}\n")?;
    push_bytes(line.as_str().as_bytes(), into)
}

/// The lines where a question's conflicts are spent.
pub fn spent_text(
    alloc: Global,
    named: &NamedPlan<'_>,
    pruned: u32,
    asked: &Asked,
    budget: u64,
) -> Result<Seq<u8>, NoMemory>
    ensures { IfOk result (λ text. text ≡ spent_text (length named.now.plan.now.programs.now) named.now.notes.now pruned
        asked.now budget) }
{
    let mut bytes = begun(alloc, named, pruned, b"")?;
    push_known(asked, &mut bytes)?;
    push_spent(alloc, asked, budget, &mut bytes)?;
    Ok(Seq::from_vec(bytes))
}
