//! The text of the proofs of the questions that were refuted.

ghost use Rattle.std.specs.Prelude.{◌≡◌, ◌++◌, IfOk, OnOk};
ghost use Rattle.std.specs.List.{AllByRecursion, flat_map};
ghost use Rattle.cnf.specs.ProofText.{proof_text};
ghost use Rattle.verdict.specs.Verdicts.{proofs_in};
ghost use Rattle.verdict_report.specs.Lines.{end_proofs, later_proofs, proofs_of, proofs_text};
ghost use Rattle.verdict_report.specs.Told.{IsProved, AreTrimmedOf};

use cnf::write_proof;
use determinism::Sure;
use proof_check::Verified;
use rh_base::{NoMemory, Seq};
use std::alloc::Global;
use trimmed_proofs::trimmed;
use verdict::{Ends, Second, Verdict};
use verdict_text::push_bytes;

/// Adds what was refuted to answer the first question.
fn push_sure(sure: Sure, proofs: &mut Seq<Verified>) -> Result<(), NoMemory>
    ensures { OnOk result (proofs.new ≡ proofs.old ++ proofs_in sure) }
{
    match sure {
        Sure::Pruned => Ok(()),
        Sure::Proved(verified) => proofs.push(verified),
    }
}

/// Adds what was refuted to answer the last question.
fn push_end(end: Ends, proofs: &mut Seq<Verified>) -> Result<(), NoMemory>
    ensures { OnOk result (proofs.new ≡ proofs.old ++ end_proofs end) }
{
    match end {
        Ends::From(_) => Ok(()),
        Ends::Never(verified) => proofs.push(verified),
    }
}

/// Adds what was refuted to answer the questions after the first.
fn push_later(second: Second, end: Ends, proofs: &mut Seq<Verified>) -> Result<(), NoMemory>
    ensures { OnOk result (proofs.new ≡ proofs.old ++ later_proofs second end) }
{
    match second {
        Second::Same(verified) => {
            proofs.push(verified)?;
            push_end(end, proofs)
        }
        Second::Differs(_) => Ok(()),
    }
}

/// What was refuted, in the order asked.
pub fn proofs_of(alloc: Global, judged: Verdict) -> Result<Seq<Verified>, NoMemory>
    ensures { IfOk result (λ proofs. proofs ≡ proofs_of judged) }
{
    match judged {
        Verdict::NotDeterministic { .. } => Ok(Seq::new(alloc)),
        Verdict::Judged {
            sure,
            second,
            ends,
            ..
        } => {
            let mut refuted = Seq::new(alloc);
            push_sure(sure, &mut refuted)?;
            push_later(second, ends, &mut refuted)?;
            Ok(refuted)
        }
        Verdict::Spent { proofs, .. } => Ok(proofs),
    }
}

/// These refutations, each with only the steps that its empty clause rests on.
#[tactic(auto, using(crate::proofs::TrimmedLaws::trimmed_none, crate::proofs::TrimmedLaws::trimmed_more))]
pub fn all_trimmed(alloc: Global, refuted: &[Verified]) -> Result<Seq<Verified>, NoMemory>
    ensures { IfOk result (λ left. AreTrimmedOf refuted.now left) }
{
    let mut left = Seq::new(alloc);
    for verified in refuted {
        left.push(trimmed(alloc, verified)?)?;
    }
    Ok(left)
}

fn push_proof(verified: &Verified, into: &mut Vec<u8>) -> Result<(), NoMemory>
    ensures text { OnOk result (into.new.items ≡ into.old.items ++ proof_text verified.now.formula verified.now.steps) }
    ensures proved { IsProved verified.now }
{
    write_proof(verified.cnf(), verified.log(), into)
}

fn push_proofs(proofs: &[Verified], into: &mut Vec<u8>) -> Result<(), NoMemory>
    ensures text { OnOk result (into.new.items ≡ into.old.items ++ flat_map (λ p. proof_text p.formula p.steps) proofs.now) }
    ensures proved { OnOk result (AllByRecursion IsProved proofs.now) }
{
    for verified in proofs {
        push_proof(verified, into)?;
    }
    Ok(())
}

/// The text of proofs.
pub fn proofs_text(alloc: Global, proofs: &[Verified]) -> Result<Seq<u8>, NoMemory>
    ensures text { IfOk result (λ text. text ≡ proofs_text proofs.now) }
    ensures proved { IfOk result (λ text. AllByRecursion IsProved proofs.now) }
{
    let count = proofs.len();
    let head = format!(in alloc; "proofs {count}\n")?;
    let mut bytes = Vec::new(alloc);
    push_bytes(head.as_str().as_bytes(), &mut bytes)?;
    push_proofs(proofs, &mut bytes)?;
    Ok(Seq::from_vec(bytes))
}
