//! The lines on a repair.

ghost use Rattle.std.specs.Prelude.{◌≡◌, ◌<◌, ◌++◌, length, IfOk, OnOk};
ghost use Rattle.std.specs.List.{All};
ghost use Rattle.repair_report.specs.Lines.{arrow_line, arrow_lines, repaired_text, unrepaired_text};
ghost use Rattle.repair_report.specs.Steps.{IsArrowWithin};

use rh_base::{NoMemory, Seq, Text};
use std::alloc::Global;
use verdict_report::push_count;
use verdict_text::push_bytes;

/// Appends an arrow between two resources.
fn push_arrow(names: &[Text], arrow: (u32, u32), into: &mut Vec<u8>) -> Result<(), NoMemory>
    requires from { arrow.0 < length names.now }
    requires to { arrow.1 < length names.now }
    ensures { OnOk result (into.new.items ≡ into.old.items ++ arrow_line names.now arrow) }
{
    push_bytes(names[arrow.0 as usize].as_str().as_bytes(), into)?;
    push_bytes(b" -> ", into)?;
    push_bytes(names[arrow.1 as usize].as_str().as_bytes(), into)?;
    push_bytes(b"\n", into)
}

fn push_arrows(names: &[Text], arrows: &[(u32, u32)], into: &mut Vec<u8>) -> Result<(), NoMemory>
    requires { All (IsArrowWithin (length names.now)) arrows.now }
    ensures { OnOk result (into.new.items ≡ into.old.items ++ arrow_lines names.now arrows.now) }
{
    for arrow in arrows {
        push_arrow(names, *arrow, into)?;
    }
    Ok(())
}

/// The lines where arrows repair n resources.
pub fn repaired_text(
    alloc: Global,
    names: &[Text],
    n: usize,
    notes: &[u8],
    arrows: &[(u32, u32)],
) -> Result<Seq<u8>, NoMemory>
    requires { All (IsArrowWithin (length names.now)) arrows.now }
    ensures { IfOk result (λ text. text ≡ repaired_text names.now n notes.now arrows.now) }
{
    let edges = arrows.len();
    let head = format!(in alloc; "edges {edges}\n")?;
    let mut bytes = Vec::new(alloc);
    push_count(alloc, n, notes, &mut bytes)?;
    push_bytes(head.as_str().as_bytes(), &mut bytes)?;
    push_arrows(names, arrows, &mut bytes)?;
    push_bytes(b"deterministic\n", &mut bytes)?;
    Ok(Seq::from_vec(bytes))
}

/// The lines where the conflicts are spent.
pub fn unrepaired_text(
    alloc: Global,
    n: usize,
    notes: &[u8],
    budget: u64,
) -> Result<Seq<u8>, NoMemory>
    ensures { IfOk result (λ text. text ≡ unrepaired_text n notes.now budget) }
{
    let line = format!(in alloc; "spent deterministic {budget}\n")?;
    let mut bytes = Vec::new(alloc);
    push_count(alloc, n, notes, &mut bytes)?;
    push_bytes(line.as_str().as_bytes(), &mut bytes)?;
    Ok(Seq::from_vec(bytes))
}
