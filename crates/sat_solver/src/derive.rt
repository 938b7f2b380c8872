//! The clause to learn from a conflict, and its step of the log: the false clause to begin with, and the chain of clauses with which
//! analysis and minimization resolved it, each with its pivot. That is a derivation by resolution in TraceCheck's manner; a checker
//! follows it without unit propagation, for which the hints of LRAT are meant.

ghost use Rattle.std.specs.Prelude.{◌≡◌, ℕ, ◌+◌, ◌*◌, ◌<◌, List, [], length, map, IfOk, OnOk};
ghost use Rattle.cnf.specs.declared.lit.Lit.{Lit};
ghost use Rattle.cnf.specs.Clauses.{clause_of};
ghost use Rattle.cnf.specs.Proofs.{IsRight};
ghost use Rattle.cnf.specs.Store.{lit_of};
ghost use Rattle.unit_propagation.specs.Watching.{IsStopped, IsSound, IsFalse};
ghost use Rattle.sat_solver.specs.Working.{IsNew};
ghost use Rattle.sat_solver.specs.Meaning.{link_of, IsStoreOf, IsDerived, IsLearnable, IsBlank};

use crate::analyze::{Resolution, Resolvent};
use crate::arrange::put_last_second;
use crate::graph::ImplicationGraph;
use cnf::{Clause, Link, Lit, Step};
use rh_base::{NoMemory, Seq};
use std::alloc::Global;
use unit_propagation::{Propagator, opposite};

/// The literal that has this index.
fn lit_of(literal: u32) -> Lit
    ensures { result ≡ lit_of literal }
{
    Lit {
        var: u64::from(literal / 2) + 1,
        positive: literal % 2 == 0,
    }
}

/// The literals that have these indexes.
fn lits_of(alloc: Global, literals: &[u32]) -> Result<Vec<Lit>, NoMemory>
    ensures { IfOk result (λ v. v.items ≡ map lit_of literals.now) }
{
    let mut lits = Vec::new(alloc);
    'literals: for literal in literals {
        lits.push(lit_of(*literal))?;
    }
    Ok(lits)
}

/// The link of a resolution.
fn link_of(resolution: &Resolution) -> Link
    ensures { result ≡ link_of resolution.now }
{
    Link {
        number: u64::from(resolution.number),
        pivot: lit_of(resolution.pivot),
    }
}

/// The links of these resolutions.
fn links_of(alloc: Global, resolutions: &[Resolution]) -> Result<Vec<Link>, NoMemory>
    ensures { IfOk result (λ v. v.items ≡ map link_of resolutions.now) }
{
    let mut links = Vec::new(alloc);
    'resolutions: for resolution in resolutions {
        links.push(link_of(resolution))?;
    }
    Ok(links)
}

/// The step with the clause of these literals, to which these resolutions lead from a clause.
fn step_of(
    alloc: Global,
    conflict: u32,
    resolutions: &[Resolution],
    literals: &[u32],
) -> Result<Step, NoMemory>
    ensures { IfOk result (λ s. s
        ≡ record { clause = clause_of (map lit_of literals.now); start = conflict + 1; chain = map link_of resolutions.now }) }
{
    let lits = lits_of(alloc, literals)?;
    let clause = Clause::from_lits(alloc, &lits)?;
    let chain = Seq::from_vec(links_of(alloc, resolutions)?);
    Ok(Step {
        clause,
        start: u64::from(conflict) + 1,
        chain,
    })
}

impl Resolvent {
    /// Begins anew, where nothing is marked.
    fn reset(&mut self)
        ensures seen { self.new.seen ≡ self.old.seen }
        ensures marked { self.new.marked.items ≡ [] }
        ensures resolutions { self.new.resolutions.items ≡ [] }
        ensures none { self.new.pending ≡ 0 }
    {
        self.marked.clear();
        self.resolutions.clear();
        self.pending = 0;
    }

    /// The literals of the clause to learn from a clause that is false, and its step.
    pub(crate) fn derive(
        &mut self,
        alloc: Global,
        propagator: &Propagator,
        conflict: u32,
    ) -> Result<(Vec<u32>, Step), NoMemory>
        requires stopped { IsStopped propagator.now.store propagator.now.trail propagator.now.watches conflict }
        requires decided { 0 < length propagator.now.trail.starts }
        requires blank { IsBlank propagator.now.trail.vars self.old.seen.items }
        ensures blank { OnOk result (IsBlank propagator.now.trail.vars self.new.seen.items) }
        ensures learnable { IfOk result (λ out. (last : ℕ) → last + 1 ≡ length propagator.now.trail.starts
            → IsLearnable propagator.now.trail last out.0.items) }
        ensures derived { IfOk result (λ out. (earlier : List (List Lit)) → IsStoreOf propagator.now.store earlier
            → IsDerived earlier out.0.items out.1) }
        ensures fresh { IfOk result (λ out. (earlier : List (List Lit)) → IsStoreOf propagator.now.store earlier
            → IsNew earlier out.1.clause) }
    {
        self.reset();
        let trail = &propagator.trail;
        let _limit = trail.len();
        let last = trail.level() - 1;
        let boundary = trail.start(last);
        let graph = ImplicationGraph {
            store: &propagator.store,
            trail,
            boundary,
        };
        let place = self.analyze(&graph, conflict)?;
        self.minimize(&graph)?;
        let first = opposite(trail.literal(place));
        let mut literals = Vec::new(alloc);
        self.collect(trail, first, &mut literals)?;
        put_last_second(&mut literals, trail);
        let step = step_of(alloc, conflict, &self.resolutions, &literals)?;
        Ok((literals, step))
    }

    /// The step with the empty clause, from a clause that is false ahead of all decisions.
    pub(crate) fn derive_empty(
        &mut self,
        alloc: Global,
        propagator: &Propagator,
        conflict: u32,
    ) -> Result<Step, NoMemory>
        requires sound { IsSound propagator.now.store propagator.now.trail propagator.now.watches }
        requires is_false { IsFalse propagator.now.store propagator.now.trail.literals conflict }
        requires level { propagator.now.trail.starts ≡ [] }
        requires blank { IsBlank propagator.now.trail.vars self.old.seen.items }
        ensures right { IfOk result (λ s. (earlier : List (List Lit)) → IsStoreOf propagator.now.store earlier → IsRight earlier s) }
        ensures empty { IfOk result (λ s. s.clause ≡ []) }
    {
        self.reset();
        let _limit = propagator.trail.len();
        let graph = ImplicationGraph {
            store: &propagator.store,
            trail: &propagator.trail,
            boundary: 0,
        };
        self.refute(&graph, conflict)?;
        let none = Vec::new(alloc);
        let step = step_of(alloc, conflict, &self.resolutions, &none)?;
        Ok(step)
    }
}
