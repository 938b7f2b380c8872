//! The resolvent of a chain behind its links up to one, as a hash set of literals. It takes memory by the literals that it has,
//! where marks by variable would take it by the number of variables that a text states; and a link costs as much as the clause
//! that it names.

ghost use Rattle.std.specs.Prelude.{◌≡◌, true, false, [], cond, IfOk, OnOk, OnErr};
ghost use Rattle.cnf.specs.Literals.{HasVariable, same_lit};
ghost use Rattle.cnf.specs.Clauses.{has_lit, with_lit, without, IsClause, HasVariables};
ghost use Rattle.cnf.specs.declared.lit.Lit.{Lit};

use cnf::{Clause, Lit};
use indexmap::IndexSet;
use rh_base::NoMemory;
use std::alloc::Global;
use std::marker::Model;

/// A set of literals over some variables.
#[derive(Drop)]
pub(crate) struct LitSet {
    vars: u64,
    lits: IndexSet<Lit>,
}

impl Model for LitSet {
    ghost use Rattle.proof_check.specs.LitSets.{Gathered, gathered, AreOver};

    ghost Value = { Gathered };

    ghost view = { λ s. gathered s.vars s.lits.keys };

    ghost invariant = { λ s. AreOver s.vars s.lits.keys };
}

/// Whether a literal is among these.
fn has(lits: &IndexSet<Lit>, lit: Lit) -> bool
    ensures { result ≡ has_lit lits.now.keys lit }
{
    lits.contains(&lit)
}

/// Puts a literal in.
fn insert(lits: &mut IndexSet<Lit>, lit: Lit) -> Result<(), NoMemory>
    ensures ok { OnOk result ((x : Lit) → has_lit lits.new.keys x ≡ cond (same_lit lit x) true (has_lit lits.old.keys x)) }
    ensures err { OnErr result (lits.new.keys ≡ lits.old.keys) }
{
    lits.insert(lit)?;
    Ok(())
}

/// Takes a literal out, if it is there.
fn remove(lits: &mut IndexSet<Lit>, lit: Lit)
    ensures { (x : Lit) → has_lit lits.new.keys x ≡ cond (same_lit lit x) false (has_lit lits.old.keys x) }
{
    let _there = lits.swap_remove(&lit);
}

impl LitSet {
    ghost use Rattle.proof_check.specs.LitSets.{Gathered};

    /// The empty set over these variables.
    pub(crate) fn new(alloc: Global, vars: u64) -> LitSet
        ensures { result ≡ record { vars = vars; lits = [] } }
    {
        LitSet {
            vars,
            lits: IndexSet::new(alloc),
        }
    }

    /// Whether the set has a literal, which may be any.
    pub(crate) fn has(&self, lit: Lit) -> bool
        ensures has { result ≡ has_lit self.now.lits lit }
        ensures clause { IsClause self.now.lits }
    {
        has(&self.lits, lit)
    }

    #[tactic(auto, using(crate::proofs::LitLaws::inserted, crate::proofs::LitLaws::inserted_over))]
    pub(crate) fn insert(&mut self, lit: Lit) -> Result<(), NoMemory>
        requires { HasVariable self.old.vars lit }
        ensures ok { OnOk result (self.new ≡ record { vars = self.old.vars; lits = with_lit lit self.old.lits }) }
        ensures err { OnErr result (self.new ≡ self.old) }
    {
        insert(&mut self.lits, lit)
    }

    #[tactic(auto, using(crate::proofs::LitLaws::removed, crate::proofs::LitLaws::removed_over))]
    pub(crate) fn remove(&mut self, lit: Lit)
        ensures { self.new ≡ record { vars = self.old.vars; lits = without lit self.old.lits } }
    {
        remove(&mut self.lits, lit);
    }

    /// The clause of the set, which is empty then.
    #[tactic(auto, using(crate::proofs::LitLaws::over_variables))]
    pub(crate) fn take(&mut self, alloc: Global) -> Result<Clause, NoMemory>
        ensures clause { IfOk result (λ c. c ≡ self.old.lits) }
        ensures variables { IfOk result (λ c. HasVariables self.old.vars c) }
        ensures empty { OnOk result (self.new ≡ record { vars = self.old.vars; lits = [] }) }
    {
        let clause = Clause::from_lits(alloc, self.lits.as_slice())?;
        self.lits.clear();
        Ok(clause)
    }
}
