//! The text of an explanation.

ghost use Rattle.std.specs.Prelude.{◌≡◌, ◌++◌, IfOk};
ghost use Rattle.verdict_report.specs.Lines.{head_lines};
ghost use Rattle.explain_report.specs.Lines.{sure_text, apart_text, again_text, spent_text};

use rh_base::{NoMemory, Seq};
use std::alloc::Global;
use verdict::Asked;
use verdict_report::{push_head, push_known, push_spent};
use verdict_text::push_bytes;

/// How many resources there are, with notes, and how many pruning leaves aside.
pub fn noted_head(alloc: Global, n: usize, notes: &[u8], pruned: u32) -> Result<Seq<u8>, NoMemory>
    ensures { IfOk result (λ head. head ≡ head_lines n notes.now pruned) }
{
    let mut bytes = Vec::new(alloc);
    push_head(alloc, n, notes, pruned, &mut bytes)?;
    Ok(Seq::from_vec(bytes))
}

/// Three texts behind one another.
fn joined(alloc: Global, head: &[u8], middle: &str, rest: &[u8]) -> Result<Seq<u8>, NoMemory>
    ensures { IfOk result (λ text. text ≡ head.now ++ (middle.now ++ rest.now)) }
{
    let mut bytes = Vec::new(alloc);
    push_bytes(head, &mut bytes)?;
    push_bytes(middle.as_bytes(), &mut bytes)?;
    push_bytes(rest, &mut bytes)?;
    Ok(Seq::from_vec(bytes))
}

/// The text where all is well.
pub fn sure_text(alloc: Global, head: &[u8], last: &[u8]) -> Result<Seq<u8>, NoMemory>
    ensures { IfOk result (λ text. text ≡ sure_text head.now last.now) }
{
    joined(alloc, head, "deterministic\nidempotent\n", last)
}

/// The text where two orders end apart.
pub fn apart_text(alloc: Global, head: &[u8], lines: &[u8]) -> Result<Seq<u8>, NoMemory>
    ensures { IfOk result (λ text. text ≡ apart_text head.now lines.now) }
{
    joined(alloc, head, "not deterministic\n", lines)
}

/// The text where a second run changes what the first left.
pub fn again_text(alloc: Global, head: &[u8], lines: &[u8]) -> Result<Seq<u8>, NoMemory>
    ensures { IfOk result (λ text. text ≡ again_text head.now lines.now) }
{
    let mut bytes = Vec::new(alloc);
    push_bytes(head, &mut bytes)?;
    push_bytes(b"deterministic\nnot idempotent\n", &mut bytes)?;
    push_bytes(lines, &mut bytes)?;
    push_bytes(b"succeeds from some tree\n", &mut bytes)?;
    Ok(Seq::from_vec(bytes))
}

/// The text where a question's conflicts are spent.
pub fn spent_text(
    alloc: Global,
    head: &[u8],
    asked: &Asked,
    budget: u64,
) -> Result<Seq<u8>, NoMemory>
    ensures { IfOk result (λ text. text ≡ spent_text head.now asked.now budget) }
{
    let mut bytes = Vec::new(alloc);
    push_bytes(head, &mut bytes)?;
    push_known(asked, &mut bytes)?;
    push_spent(alloc, asked, budget, &mut bytes)?;
    Ok(Seq::from_vec(bytes))
}
