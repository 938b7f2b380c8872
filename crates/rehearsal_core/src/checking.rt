//! What is said of a text of proofs.

ghost use Rattle.std.specs.Prelude.{◌≡◌, ℕ, map, IfOk, IfErr, OnOk};
ghost use Rattle.std.specs.List.{AllByRecursion};
ghost use Rattle.rh_base.specs.Refused.{IfRefused, IsRefusal};
ghost use Rattle.proof_check.specs.Refuted.{refutation};
ghost use Rattle.proof_check.specs.declared.fault.Cause.{Cause};
ghost use Rattle.proof_check.specs.Faults.{IsFault};
ghost use Rattle.rehearsal_core.specs.Verified.{IsRefuted, AreVerified, FirstBad, BreaksProofRule, verified_line, bad_proof};

use crate::bytes::bytes_of;
use cnf::{Cnf, Log};
use proof_check::{CheckFault, check, read_proofs};
use rh_base::{Fault, NoMemory, Seq};
use std::alloc::Global;

/// The refusal of a proof.
fn bad_proof(alloc: Global, number: u64, step: u64) -> Fault
    ensures { IfRefused result (IsRefusal 81 0 (bad_proof number step)) }
{
    match format!(in alloc; "proof {number} step {step}") {
        Ok(name) => Fault::refused(alloc, 81, 0, name.as_str()),
        Err(_) => Fault::Memory(NoMemory),
    }
}

/// Whether a log is a proof of its formula. If it isn't, it is refused as the one of this number.
fn check_one(alloc: Global, number: u64, cnf: Cnf, log: Log) -> Result<(), Fault>
    ensures ok { OnOk result (IsRefuted (refutation (cnf, log))) }
    ensures bad { IfErr result (λ e. IfRefused e (λ r. (step : ℕ) × (cause : Cause) × IsFault cnf log.steps step cause
        × IsRefusal 81 0 (bad_proof number step) r)) }
{
    match check(alloc, cnf, log) {
        Ok(_) => Ok(()),
        Err(CheckFault::Bad(bad)) => Err(bad_proof(alloc, number, bad.step)),
        Err(CheckFault::Memory(m)) => Err(Fault::Memory(m)),
    }
}

/// Whether all are proofs.
fn check_all(alloc: Global, proofs: Vec<(Cnf, Log)>) -> Result<(), Fault>
    ensures ok { OnOk result (AllByRecursion IsRefuted (map refutation proofs.items)) }
    ensures bad { IfErr result (λ e. IfRefused e (λ r. (number : ℕ) × (step : ℕ)
        × FirstBad (map refutation proofs.items) number step × IsRefusal 81 0 (bad_proof number step) r)) }
{
    let mut number = 0u64;
    for (cnf, log) in proofs {
        number += 1;
        match check_one(alloc, number, cnf, log) {
            Ok(()) => {}
            Err(fault) => return Err(fault),
        }
    }
    Ok(())
}

fn verified_line(alloc: Global, count: usize) -> Result<Seq<u8>, NoMemory>
    ensures { IfOk result (λ text. text ≡ verified_line count) }
{
    Ok(bytes_of(format!(in alloc; "verified {count}\n")?))
}

/// The report on a text of proofs, or the first rule that it breaks.
pub fn verified(alloc: Global, text: &[u8]) -> Result<Seq<u8>, Fault>
    ensures report { IfOk result (AreVerified text.now) }
    ensures refused { IfErr result (λ e. IfRefused e (BreaksProofRule text.now)) }
{
    let proofs = read_proofs(alloc, text)?;
    let count = proofs.len();
    check_all(alloc, proofs)?;
    Ok(verified_line(alloc, count)?)
}
