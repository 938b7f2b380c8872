//! Formulas that are refuted.

ghost use Rattle.std.specs.Prelude.{◌≡◌, ◌≢◌, ◌⊎◌, ◌≤◌, ◌-◌, ◌^◌, IfOk, IfNone, IfSome};
ghost use Rattle.cnf.specs.Formulas.{IsSatisfiable};
ghost use Rattle.cnf.specs.Proofs.{IsAccepted};
ghost use Rattle.proof_check.specs.Refuted.{HasNoModel};

use cnf::{Cnf, Lit, Log};
use proof_check::{CheckFault, Verified, check};
use rh_base::NoMemory;
use sat_solver::{Found, solve_by};
use std::alloc::Global;

/// The formula with its log, which is accepted.
pub(crate) fn verified(alloc: Global, cnf: Cnf, log: Log) -> Result<Verified, NoMemory>
    requires { IsAccepted cnf log.steps }
    ensures formula { IfOk result (λ v. v.formula ≡ cnf) }
    ensures no_model { IfOk result (λ v. HasNoModel cnf) }
{
    match check(alloc, cnf, log) {
        Ok(verified) => Ok(verified),
        Err(CheckFault::Bad(_)) => unreachable!(),
        Err(CheckFault::Memory(m)) => Err(m),
    }
}

/// The formula with its refutation. There is none where it has a model, or where the budget was spent. A solver may first try these
/// literals. A budget of `u64::MAX` stands for none.
pub fn refuted(
    alloc: Global,
    cnf: Cnf,
    firsts: &[Lit],
    budget: u64,
) -> Result<Option<Verified>, NoMemory>
    requires { 1 ≤ budget }
    ensures formula { IfOk result (λ found. IfSome found (λ v. v.formula ≡ cnf)) }
    ensures no_model { IfOk result (λ found. IfSome found (λ v. HasNoModel cnf)) }
    ensures none { IfOk result (λ found. IfNone found (IsSatisfiable cnf ⊎ (budget ≢ 2 ^ 64 - 1))) }
{
    let found = solve_by(alloc, &cnf, firsts, budget)?;
    match found {
        Found::Refuted(log) => Ok(Some(verified(alloc, cnf, log)?)),
        Found::Model(_) => Ok(None),
        Found::Spent(_) => Ok(None),
    }
}
