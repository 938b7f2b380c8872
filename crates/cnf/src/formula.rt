//! Formulas: lists of clauses, kept in one array of 32-bit numbers: the indexes of the literals of all clauses one behind the other,
//! and where each clause ends. The *index* of a literal is 2 (v - 1) for variable v and one more for its negation, as MiniSat numbers
//! literals. More than 2^31 variables, or 2^32 literals, are answered with want of memory.

ghost use Rattle.std.specs.Prelude.{All, ◌≡◌, ◌+◌, ◌-◌, ◌*◌, ◌<◌, ◌≤◌, ◌^◌, [], ◌∷◌, ◌++◌, length, map, slice_get, slice_index, Some, IfOk, OnOk, OnErr};
ghost use Rattle.cnf.specs.Store.{index_of, lit_of, start_of};
ghost use Rattle.cnf.specs.Literals.{HasVariable};

use crate::clause::Clause;
use crate::lit::Lit;
use rh_base::NoMemory;
use std::alloc::Global;
use std::marker::Model;

/// The greatest number of variables that a formula can have.
const MOST_VARIABLES: u64 = 1 << 31;

/// A list of clauses over the variables from 1 on. The literals of all clauses stand in one array, by their
/// indexes; there are fewer than 2^32.
#[derive(Debug, Drop)]
pub struct Cnf {
    vars: u64,
    literals: Vec<u32>,
    ends: Vec<u32>,
}

impl Model for Cnf {
    ghost use Rattle.cnf.specs.Formulas.{Formula};
    ghost use Rattle.cnf.specs.Store.{formula_of, IsStored};

    ghost Value = { Formula };

    ghost view = { λ c. formula_of c.vars c.literals.items c.ends.items };

    ghost invariant = { λ c. IsStored c.vars c.literals.items c.ends.items };
}

/// The index of a literal.
fn index_of(lit: Lit) -> u32
    requires { HasVariable (2 ^ 31) lit }
    ensures { result ≡ index_of lit }
{
    let sign = if lit.positive { 0 } else { 1 };
    (2 * (lit.var - 1) + sign) as u32
}

/// The literal that has this index.
fn lit_of(index: u32) -> Lit
    ensures { result ≡ lit_of index }
{
    Lit {
        var: u64::from(index / 2) + 1,
        positive: index % 2 == 0,
    }
}

/// Appends the indexes of these literals, or leaves the array as it is.
fn push_literals(literals: &mut Vec<u32>, lits: &[Lit]) -> Result<(), NoMemory>
    requires { All (HasVariable (2 ^ 31)) lits.now }
    ensures ok { OnOk result (literals.new.items ≡ literals.old.items ++ map index_of lits.now) }
    ensures err { OnErr result (literals.new.items ≡ literals.old.items) }
{
    let before = literals.len();
    for lit in lits {
        if literals.push(index_of(*lit)).is_err() {
            literals.truncate(before);
            return Err(NoMemory);
        }
    }
    Ok(())
}

/// Appends a clause, or leaves all as it is.
fn push_clause(literals: &mut Vec<u32>, ends: &mut Vec<u32>, lits: &[Lit]) -> Result<(), NoMemory>
    requires { All (HasVariable (2 ^ 31)) lits.now }
    ensures literals { OnOk result (literals.new.items ≡ literals.old.items ++ map index_of lits.now) }
    ensures ends { OnOk result (ends.new.items ≡ ends.old.items ++ length literals.new.items ∷ []) }
    ensures literals_err { OnErr result (literals.new.items ≡ literals.old.items) }
    ensures ends_err { OnErr result (ends.new.items ≡ ends.old.items) }
{
    let before = literals.len();
    push_literals(literals, lits)?;
    let end = literals.len();
    if end > u32::MAX as usize || ends.push(end as u32).is_err() {
        literals.truncate(before);
        return Err(NoMemory);
    }
    Ok(())
}

/// Where the clause with this number begins and ends.
#[tactic(auto, using(crate::proofs::StoreLaws::start_at))]
fn bounds(ends: &[u32], i: usize) -> (usize, usize)
    requires low { 1 ≤ i }
    requires high { i ≤ length ends.now }
    ensures start { result.0 ≡ start_of 0 ends.now (i - 1) }
    ensures end { result.1 ≡ slice_index ends.now (i - 1) }
{
    if i == 1 {
        return (0, ends[0] as usize);
    }
    (ends[i - 2] as usize, ends[i - 1] as usize)
}

impl Cnf {
    ghost use Rattle.cnf.specs.Formulas.{Formula, IsFormula, clause_at};
    ghost use Rattle.cnf.specs.Clauses.{clause_of};

    /// No clauses over this many variables. For more than 2^31 the answer is that memory was refused.
    pub fn new(alloc: Global, vars: u64) -> Result<Cnf, NoMemory>
        ensures { IfOk result (λ f. f ≡ record { vars = vars; clauses = [] }) }
    {
        if vars > MOST_VARIABLES {
            return Err(NoMemory);
        }
        Ok(Cnf {
            vars,
            literals: Vec::new(alloc),
            ends: Vec::new(alloc),
        })
    }

    /// The number of variables.
    pub fn vars(&self) -> u64
        ensures count { result ≡ self.now.vars }
        ensures formula { IsFormula self.now }
        ensures small { self.now.vars ≤ 2 ^ 31 }
    {
        self.vars
    }

    /// The number of clauses.
    #[tactic(auto, using(crate::proofs::StoreLaws::count_is))]
    pub fn count(&self) -> u64
        ensures count { result ≡ length self.now.clauses }
        ensures formula { IsFormula self.now }
    {
        self.ends.len() as u64
    }

    /// Appends the clause of these literals.
    pub fn add(&mut self, lits: &[Lit]) -> Result<(), NoMemory>
        requires { All (HasVariable self.old.vars) lits.now }
        ensures ok { OnOk result (self.new ≡ record { vars = self.old.vars; clauses = self.old.clauses ++ clause_of lits.now ∷ [] }) }
        ensures err { OnErr result (self.new ≡ self.old) }
    {
        let alloc = *self.literals.allocator();
        let clause = Clause::from_lits(alloc, lits)?;
        push_clause(&mut self.literals, &mut self.ends, clause.lits())?;
        Ok(())
    }

    /// One more variable, in no clause yet.
    pub(crate) fn add_variable(&mut self) -> Result<u64, NoMemory>
        ensures formula { IsFormula self.old }
        ensures number { IfOk result (λ x. x ≡ self.old.vars + 1) }
        ensures ok { OnOk result (self.new ≡ record { vars = self.old.vars + 1; clauses = self.old.clauses }) }
        ensures err { OnErr result (self.new ≡ self.old) }
    {
        if self.vars == MOST_VARIABLES {
            return Err(NoMemory);
        }
        self.vars += 1;
        Ok(self.vars)
    }

    /// The number of literals of a clause, which is named by its number from 1 on.
    pub fn length(&self, i: u64) -> u64
        requires low { 1 ≤ i }
        requires high { i ≤ length self.now.clauses }
        ensures { result ≡ length (clause_at self.now i) }
    {
        let (start, end) = bounds(&self.ends, i as usize);
        (end - start) as u64
    }

    /// The literal at place k, from 0 on, of the clause with number i, from 1 on.
    pub fn lit(&self, i: u64, k: u64) -> Lit
        requires low { 1 ≤ i }
        requires high { i ≤ length self.now.clauses }
        requires within { k < length (clause_at self.now i) }
        ensures { slice_get (clause_at self.now i) k ≡ Some result }
    {
        let (start, _) = bounds(&self.ends, i as usize);
        lit_of(self.literals[start + k as usize])
    }
}
