//! Trimming a refutation.

ghost use Rattle.std.specs.Prelude.{◌≤◌, length, IfOk};
ghost use Rattle.cnf.specs.Proofs.{IsAccepted};
ghost use Rattle.trimmed_proofs.specs.Trimmed.{IsTrimmedOf};
ghost use Rattle.trimmed_proofs.specs.Marks.{AreMarkedFrom};

use crate::formula::copied;
use crate::marks::used_steps;
use crate::steps::{kept_steps, new_numbers};
use cnf::{Cnf, Log};
use proof_check::{CheckFault, Verified, check};
use rh_base::NoMemory;
use std::alloc::Global;

/// The log without the steps that aren't used.
fn trimmed_log(alloc: Global, cnf: &Cnf, log: &Log) -> Result<Log, NoMemory>
    requires { IsAccepted cnf.now log.now.steps }
    ensures accepted { IfOk result (λ left. IsAccepted cnf.now left.steps) }
    ensures trimmed { IfOk result (λ left. IsTrimmedOf (record { formula = cnf.now; steps = log.now.steps })
        (record { formula = cnf.now; steps = left.steps })) }
    ensures fewer { IfOk result (λ left. length left.steps ≤ length log.now.steps) }
{
    let count = cnf.count();
    let steps = log.steps.as_slice();
    let marks = used_steps(alloc, count, steps)?;
    let numbers = new_numbers(alloc, count, &marks)?;
    let steps = kept_steps(alloc, count, &numbers, steps, &marks)?;
    Ok(Log { steps })
}

/// The refutation with the steps that its empty clause rests on, and no others. Its formula is the same. What comes out is checked
/// like any other log, and is accepted.
pub fn trimmed(alloc: Global, verified: &Verified) -> Result<Verified, NoMemory>
    ensures trimmed { IfOk result (λ left. IsTrimmedOf verified.now left) }
    ensures accepted { IfOk result (λ left. IsAccepted left.formula left.steps) }
    ensures fewer { IfOk result (λ left. length left.steps ≤ length verified.now.steps) }
{
    let cnf = copied(alloc, verified.cnf())?;
    let log = trimmed_log(alloc, verified.cnf(), verified.log())?;
    match check(alloc, cnf, log) {
        Ok(left) => Ok(left),
        Err(CheckFault::Memory(m)) => Err(m),
        Err(CheckFault::Bad(_)) => unreachable!(),
    }
}
