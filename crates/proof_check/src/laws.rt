//! Laws of logs and of the texts of proofs, as functions that do nothing.

ghost use Rattle.std.specs.Prelude.{◌≡◌, ℕ, List};
ghost use Rattle.cnf.specs.declared.log.Step.{Step};
ghost use Rattle.cnf.specs.Formulas.{Formula};
ghost use Rattle.cnf.specs.Proofs.{IsAccepted};
ghost use Rattle.proof_check.specs.declared.fault.Cause.{Cause};
ghost use Rattle.proof_check.specs.Faults.{IsFault};
ghost use Rattle.proof_check.specs.ProofWords.{IsProofText};
ghost use Rattle.proof_check.specs.Refuted.{Refutation};

/// A text spells one list of proofs at most.
pub fn one_list_of_proofs()
    ensures { (text : List ℕ) (ps qs : List Refutation) → IsProofText text ps → IsProofText text qs → ps ≡ qs }
{}

/// A log that is accepted has no fault.
pub fn accepted_logs_have_no_fault()
    ensures { (f : Formula) (steps : List Step) (n : ℕ) (cause : Cause) → IsAccepted f steps → IsFault f steps n cause → ⊥ }
{}
