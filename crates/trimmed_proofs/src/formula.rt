//! A second one of a formula.

ghost use Rattle.std.specs.Prelude.{◌≡◌, ◌≤◌, [], ◌∷◌, ◌++◌, length, IfOk, OnOk};
ghost use Rattle.cnf.specs.Formulas.{IsFormula, clause_at};

use cnf::{Cnf, Lit};
use rh_base::NoMemory;
use std::alloc::Global;

/// The literals of a clause.
fn literals(alloc: Global, cnf: &Cnf, i: u64) -> Result<Vec<Lit>, NoMemory>
    requires low { 1 ≤ i }
    requires high { i ≤ length cnf.now.clauses }
    ensures { IfOk result (λ lits. lits.items ≡ clause_at cnf.now i) }
{
    let mut lits = Vec::new(alloc);
    for k in 0..cnf.length(i) {
        lits.push(cnf.lit(i, k))?;
    }
    Ok(lits)
}

/// Appends a clause of a formula to another one over the same variables.
fn add_copy(alloc: Global, cnf: &Cnf, i: u64, into: &mut Cnf) -> Result<(), NoMemory>
    requires low { 1 ≤ i }
    requires high { i ≤ length cnf.now.clauses }
    requires variables { into.old.vars ≡ cnf.now.vars }
    requires formula { IsFormula cnf.now }
    ensures { OnOk result (into.new ≡ record { vars = cnf.now.vars; clauses = into.old.clauses ++ clause_at cnf.now i ∷ [] }) }
{
    let lits = literals(alloc, cnf, i)?;
    into.add(&lits)?;
    Ok(())
}

/// The same formula once more.
pub(crate) fn copied(alloc: Global, cnf: &Cnf) -> Result<Cnf, NoMemory>
    ensures { IfOk result (λ f. f ≡ cnf.now) }
{
    let mut copy = Cnf::new(alloc, cnf.vars())?;
    for i in 0..cnf.count() {
        add_copy(alloc, cnf, i + 1, &mut copy)?;
    }
    Ok(copy)
}
