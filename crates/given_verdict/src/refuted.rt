//! What was refuted for the questions before the one on which the budget was spent.

ghost use Rattle.std.specs.Prelude.{◌≡◌, [], ◌∷◌, ◌++◌, IfOk};
ghost use Rattle.verdict.specs.Verdicts.{proofs_in};

use determinism::Sure;
use proof_check::Verified;
use rh_base::{NoMemory, Seq};
use std::alloc::Global;

/// What was refuted to answer the first question.
pub(crate) fn order_proofs(alloc: Global, sure: Sure) -> Result<Seq<Verified>, NoMemory>
    ensures { IfOk result (λ proofs. proofs ≡ proofs_in sure) }
{
    let mut proofs = Seq::new(alloc);
    match sure {
        Sure::Pruned => {}
        Sure::Proved(verified) => proofs.push(verified)?,
    }
    Ok(proofs)
}

/// What was refuted to answer the first two questions.
pub(crate) fn two_proofs(
    alloc: Global,
    sure: Sure,
    same: Verified,
) -> Result<Seq<Verified>, NoMemory>
    ensures { IfOk result (λ proofs. proofs ≡ proofs_in sure ++ same ∷ []) }
{
    let mut proofs = order_proofs(alloc, sure)?;
    proofs.push(same)?;
    Ok(proofs)
}
