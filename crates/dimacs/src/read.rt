//! Reading a formula in DIMACS form. It is read by the rules of proof texts, as the only formula of one, with an empty log: so what a
//! text spells is defined once.

ghost use Rattle.std.specs.Prelude.{◌≡◌, ◌∷◌, [], IfOk, Some, None, map};
ghost use Rattle.cnf.specs.Formulas.{Formula};
ghost use Rattle.proof_check.specs.Refuted.{refutation};
ghost use Rattle.dimacs.specs.Dimacs.{framed, alone, Reads};

use cnf::{Cnf, Log};
use proof_check::read_proofs;
use rh_base::{Fault, NoMemory};
use std::alloc::Global;

/// The text between the lines of a proof text.
fn frame(alloc: Global, text: &[u8]) -> Result<Vec<u8>, NoMemory>
    ensures { IfOk result (λ v. v.items ≡ framed text.now) }
{
    let mut framed = Vec::new(alloc);
    framed.extend_from_slice(b"proofs 1\n")?;
    framed.extend_from_slice(text)?;
    framed.extend_from_slice(b"\nlog 0\n")?;
    Ok(framed)
}

/// The formula of a list that has it alone, with an empty log.
fn only(mut proofs: Vec<(Cnf, Log)>) -> Option<Cnf>
    ensures some { (f : Formula) → result ≡ Some f → map refutation proofs.items ≡ alone f ∷ [] }
    ensures none { result ≡ None → (f : Formula) → map refutation proofs.items ≡ alone f ∷ [] → ⊥ }
{
    let Some((cnf, log)) = proofs.pop() else {
        return None;
    };
    if proofs.is_empty() && log.steps.is_empty() {
        Some(cnf)
    } else {
        None
    }
}

/// The formula that a text spells, or nothing where it spells none.
pub fn read(alloc: Global, text: &[u8]) -> Result<Option<Cnf>, NoMemory>
    ensures { IfOk result (Reads text.now) }
{
    let framed = frame(alloc, text)?;
    match read_proofs(alloc, &framed) {
        Ok(proofs) => Ok(only(proofs)),
        Err(Fault::Refused(_)) => Ok(None),
        Err(Fault::Memory(m)) => Err(m),
    }
}
