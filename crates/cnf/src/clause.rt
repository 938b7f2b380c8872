//! Clauses: disjunctions, as finite sets of literals. They are kept in order and without repetition, so two clauses with the same
//! literals are one value, and a checker compares them literal by literal. The empty clause is false.

ghost use Rattle.std.specs.Prelude.{◌≡◌, IfOk};

use crate::lit::Lit;
use rh_base::NoMemory;
use std::alloc::Global;
use std::marker::Model;

/// A finite set of literals, which contracts see as the list of them in order.
#[derive(Debug, Drop)]
pub struct Clause {
    lits: Vec<Lit>,
}

impl Model for Clause {
    ghost use Rattle.std.specs.Prelude.{List};
    ghost use Rattle.cnf.specs.declared.lit.Lit.{Lit};
    ghost use Rattle.cnf.specs.Clauses.{IsClause};

    ghost Value = { List Lit };

    ghost view = { λ c. c.lits.items };

    ghost invariant = { λ c. IsClause c.lits.items };
}

impl Clause {
    ghost use Rattle.cnf.specs.Clauses.{IsClause, IsClauseOf, clause_of};

    /// The clause of these literals, which come in any order and also repeated.
    pub fn from_lits(alloc: Global, lits: &[Lit]) -> Result<Clause, NoMemory>
        ensures members { IfOk result (IsClauseOf lits.now) }
        ensures value { IfOk result (λ c. c ≡ clause_of lits.now) }
    {
        let mut lits = Vec::from_slice(alloc, lits)?;
        lits.sort_unstable();
        lits.dedup();
        Ok(Clause { lits })
    }

    /// The literals in order, each once.
    pub fn lits(&self) -> &[Lit]
        ensures lits { result.now ≡ self.now }
        ensures ordered { IsClause self.now }
    {
        self.lits.as_slice()
    }
}
