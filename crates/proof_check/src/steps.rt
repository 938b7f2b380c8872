//! Checking a log step by step: each chain is followed by resolution and has to give just the step's clause, neither more nor fewer
//! literals, and the last clause has to be empty. What is accepted is a value of its own, `Verified`, which nothing but `check` makes:
//! so the fact that there is no model travels with it.

ghost use Rattle.std.specs.Prelude.{◌≡◌, ◌≢◌, ◌+◌, ◌≤◌, ◌<◌, MatchBool, true, false, [], length, Some, None, IfOk, OnOk, IfErr};
ghost use Rattle.std.specs.Prelude.{List};
ghost use Rattle.std.specs.Bool.{OnTrue, OnFalse};
ghost use Rattle.cnf.specs.declared.lit.Lit.{Lit};
ghost use Rattle.cnf.specs.Formulas.{clause_at};
ghost use Rattle.cnf.specs.Clauses.{HasVariables, IsClause, has_lit, without};
ghost use Rattle.cnf.specs.Proofs.{numbered, Leads, IsRight, AreRight, EndsEmpty, IsAccepted};
ghost use Rattle.proof_check.specs.Refuted.{HasNoModel};
ghost use Rattle.proof_check.specs.Joining.{earlier_of, joined, AreClean};
ghost use Rattle.proof_check.specs.Faults.{LeadsTo, Resolves, LinkFails, ChainFails, StepFails, FirstFault, EndsFull, IsFault};
ghost use Rattle.proof_check.specs.Causes.{IfCause, IfBad, IsLocated};

use crate::fault::{Bad, Cause, CheckFault, StepFault};
use crate::literals::LitSet;
use cnf::{Cnf, Link, Lit, Log, Step};
use rh_base::NoMemory;
use std::alloc::Global;
use std::marker::Model;

/// The literals of a clause of a formula.
fn load_formula(cnf: &Cnf, n: u64, into: &mut Vec<Lit>) -> Result<(), NoMemory>
    requires low { 1 ≤ n }
    requires high { n ≤ length cnf.now.clauses }
    requires empty { into.old.items ≡ [] }
    ensures { OnOk result (into.new.items ≡ clause_at cnf.now n) }
{
    for k in 0..cnf.length(n) {
        into.push(cnf.lit(n, k))?;
    }
    Ok(())
}

/// The literals of the clause with a number, if it is one of the formula's or of these steps'.
#[tactic(auto, using(crate::proofs::Numbers::in_formula, crate::proofs::Numbers::in_steps, crate::proofs::Numbers::in_none))]
fn load(cnf: &Cnf, steps: &[Step], n: u64, into: &mut Vec<Lit>) -> Result<bool, NoMemory>
    ensures { IfOk result (λ found. MatchBool found (numbered (earlier_of cnf.now steps.now) n ≡ Some into.new.items)
        (numbered (earlier_of cnf.now steps.now) n ≡ None)) }
{
    into.clear();
    let count = cnf.count();
    if n == 0 {
        return Ok(false);
    }
    if n <= count {
        load_formula(cnf, n, into)?;
        return Ok(true);
    }
    let index = (n - count - 1) as usize;
    if index >= steps.len() {
        return Ok(false);
    }
    into.extend_from_slice(steps[index].clause.lits())?;
    Ok(true)
}

/// Puts literals into a set.
fn fill(set: &mut LitSet, lits: &[Lit]) -> Result<(), NoMemory>
    requires { HasVariables set.old.vars lits.now }
    ensures { OnOk result (set.new ≡ record { vars = set.old.vars; lits = joined set.old.lits lits.now }) }
{
    for lit in lits {
        set.insert(*lit)?;
    }
    Ok(())
}

/// Puts literals other than one into a set.
fn join(set: &mut LitSet, lits: &[Lit], skip: Lit) -> Result<(), NoMemory>
    requires { HasVariables set.old.vars lits.now }
    ensures { OnOk result (set.new ≡ record { vars = set.old.vars; lits = joined set.old.lits (without skip lits.now) }) }
{
    for lit in lits {
        if *lit != skip {
            set.insert(*lit)?;
        }
    }
    Ok(())
}

/// Whether these are the same literals.
fn same_lits(a: &[Lit], b: &[Lit]) -> bool
    ensures same { OnTrue result (a.now ≡ b.now) }
    ensures differs { OnFalse result (a.now ≢ b.now) }
{
    if a.len() != b.len() {
        return false;
    }
    for i in 0..a.len() {
        if a[i] != b[i] {
            return false;
        }
    }
    true
}

/// Whether a literal stands among these.
fn stands(lits: &[Lit], lit: Lit) -> bool
    ensures { result ≡ has_lit lits.now lit }
{
    for l in lits {
        if *l == lit {
            return true;
        }
    }
    false
}

/// One resolution: the set becomes the resolvent with the named clause.
fn follow(
    set: &mut LitSet,
    cnf: &Cnf,
    steps: &[Step],
    named: &mut Vec<Lit>,
    link: Link,
    k: u64,
) -> Result<(), StepFault>
    requires clean { AreClean set.old.vars (earlier_of cnf.now steps.now) }
    ensures vars { OnOk result (set.new.vars ≡ set.old.vars) }
    ensures ok { OnOk result (Resolves (earlier_of cnf.now steps.now) set.old.lits link set.new.lits) }
    ensures fails { IfErr result (λ e. IfCause e (LinkFails (earlier_of cnf.now steps.now) set.old.lits link k)) }
{
    let found = load(cnf, steps, link.number, named)?;
    if !found {
        return Err(StepFault::Cause(Cause::NoClause(link.number)));
    }
    let opposite = link.pivot.opposite();
    if !set.has(link.pivot) {
        return Err(StepFault::Cause(Cause::NoPivot(k)));
    }
    if !stands(named, opposite) {
        return Err(StepFault::Cause(Cause::NoPivot(k)));
    }
    set.remove(link.pivot);
    join(set, named, opposite)?;
    Ok(())
}

/// Resolves along a chain: the set becomes the clause to which the chain leads.
fn follow_chain(
    set: &mut LitSet,
    cnf: &Cnf,
    steps: &[Step],
    named: &mut Vec<Lit>,
    chain: &[Link],
) -> Result<(), StepFault>
    requires clean { AreClean set.old.vars (earlier_of cnf.now steps.now) }
    ensures vars { OnOk result (set.new.vars ≡ set.old.vars) }
    ensures ok { OnOk result (Leads (earlier_of cnf.now steps.now) set.old.lits chain.now set.new.lits) }
    ensures fails { IfErr result (λ e. IfCause e (λ cause. (wanted : List Lit)
        → ChainFails (earlier_of cnf.now steps.now) wanted set.old.lits chain.now 1 cause)) }
{
    for i in 0..chain.len() {
        follow(set, cnf, steps, named, chain[i], i as u64 + 1)?;
    }
    Ok(())
}

/// Puts the clause to which a step's chain leads into the set, which is empty before.
fn resolve_step(
    set: &mut LitSet,
    cnf: &Cnf,
    steps: &[Step],
    named: &mut Vec<Lit>,
    step: &Step,
) -> Result<(), StepFault>
    requires clean { AreClean set.old.vars (earlier_of cnf.now steps.now) }
    requires empty { set.old.lits ≡ [] }
    ensures vars { OnOk result (set.new.vars ≡ set.old.vars) }
    ensures ok { OnOk result (LeadsTo (earlier_of cnf.now steps.now) step.now set.new.lits) }
    ensures fails { IfErr result (λ e. IfCause e (StepFails (earlier_of cnf.now steps.now) step.now)) }
{
    let found = load(cnf, steps, step.start, named)?;
    if !found {
        return Err(StepFault::Cause(Cause::NoClause(step.start)));
    }
    fill(set, named)?;
    match follow_chain(set, cnf, steps, named, step.chain.as_slice()) {
        Ok(()) => Ok(()),
        Err(fault) => Err(fault),
    }
}

/// Checks one step over the clauses ahead of it. The set is empty before, and after a step that is right.
fn check_step(
    alloc: Global,
    set: &mut LitSet,
    cnf: &Cnf,
    steps: &[Step],
    named: &mut Vec<Lit>,
    step: &Step,
) -> Result<(), StepFault>
    requires clean { AreClean set.old.vars (earlier_of cnf.now steps.now) }
    requires empty { set.old.lits ≡ [] }
    ensures vars { OnOk result (set.new.vars ≡ set.old.vars) }
    ensures empty { OnOk result (set.new.lits ≡ []) }
    ensures clause { OnOk result (IsClause step.now.clause) }
    ensures variables { OnOk result (HasVariables set.old.vars step.now.clause) }
    ensures ok { OnOk result (IsRight (earlier_of cnf.now steps.now) step.now) }
    ensures fails { IfErr result (λ e. IfCause e (StepFails (earlier_of cnf.now steps.now) step.now)) }
{
    match resolve_step(set, cnf, steps, named, step) {
        Ok(()) => {}
        Err(fault) => return Err(fault),
    }
    let clause = set.take(alloc)?;
    let same = same_lits(clause.lits(), step.clause.lits());
    if !same {
        return Err(StepFault::Cause(Cause::Resolvent(clause)));
    }
    Ok(())
}

/// The fault of a step with its number.
fn locate(fault: StepFault, step: u64) -> CheckFault
    ensures { IsLocated step fault result }
{
    match fault {
        StepFault::Cause(cause) => CheckFault::Bad(Bad { step, cause }),
        StepFault::Memory(m) => CheckFault::Memory(m),
    }
}

/// Checks the steps in order, up to the first that fails.
fn check_steps(alloc: Global, cnf: &Cnf, steps: &[Step]) -> Result<(), CheckFault>
    ensures ok { OnOk result (AreRight cnf.now.clauses steps.now) }
    ensures fails { IfErr result (λ e. IfBad e (λ n cause. FirstFault cnf.now.clauses steps.now n cause)) }
{
    let mut set = LitSet::new(alloc, cnf.vars());
    let mut named = Vec::new(alloc);
    for i in 0..steps.len() {
        match check_step(alloc, &mut set, cnf, &steps[..i], &mut named, &steps[i]) {
            Ok(()) => {}
            Err(fault) => return Err(locate(fault, i as u64 + 1)),
        }
    }
    Ok(())
}

/// A formula with a log that was found right, so that it has no model. `check` alone makes it.
#[derive(Debug, Drop)]
pub struct Verified {
    cnf: Cnf,
    log: Log,
}

impl Model for Verified {
    ghost use Rattle.proof_check.specs.Refuted.{Refutation};
    ghost use Rattle.cnf.specs.Proofs.{IsAccepted};

    ghost Value = { Refutation };

    ghost view = { λ v. record { formula = v.cnf; steps = v.log.steps } };

    ghost invariant = { λ v. IsAccepted v.cnf v.log.steps };
}

impl Verified {
    ghost use Rattle.proof_check.specs.Refuted.{Refutation, HasNoModel};
    ghost use Rattle.cnf.specs.Proofs.{IsAccepted};

    /// The formula, which has no model.
    pub fn cnf(&self) -> &Cnf
        ensures formula { result.now ≡ self.now.formula }
        ensures accepted { IsAccepted self.now.formula self.now.steps }
        ensures no_model { HasNoModel self.now.formula }
    {
        &self.cnf
    }

    /// The log, which is accepted.
    pub fn log(&self) -> &Log
        ensures log { result.now.steps ≡ self.now.steps }
        ensures accepted { IsAccepted self.now.formula self.now.steps }
        ensures no_model { HasNoModel self.now.formula }
    {
        &self.log
    }
}

/// Whether the last of these steps has the empty clause.
fn ends_empty(steps: &[Step]) -> bool
    requires { 0 < length steps.now }
    ensures empty { OnTrue result (EndsEmpty steps.now) }
    ensures full { OnFalse result (EndsFull steps.now) }
{
    let last = steps.len() - 1;
    let empty = steps[last].clause.lits().is_empty();
    empty
}

/// The formula with its log, if the log is accepted; else the first step that fails, and its cause.
pub fn check(alloc: Global, cnf: Cnf, log: Log) -> Result<Verified, CheckFault>
    ensures ok { IfOk result (λ v. v ≡ record { formula = cnf; steps = log.steps }) }
    ensures accepted { OnOk result (IsAccepted cnf log.steps) }
    ensures no_model { OnOk result (HasNoModel cnf) }
    ensures bad { IfErr result (λ e. IfBad e (λ n cause. IsFault cnf log.steps n cause)) }
    ensures bad_only { IfErr result (λ e. IfBad e (λ n cause. IsAccepted cnf log.steps → ⊥)) }
{
    let steps = log.steps.as_slice();
    if steps.is_empty() {
        return Err(CheckFault::Bad(Bad {
            step: 0,
            cause: Cause::NoStep,
        }));
    }
    match check_steps(alloc, &cnf, steps) {
        Ok(()) => {}
        Err(fault) => return Err(fault),
    }
    if !ends_empty(steps) {
        return Err(CheckFault::Bad(Bad {
            step: steps.len() as u64,
            cause: Cause::NotEmpty,
        }));
    }
    Ok(Verified { cnf, log })
}
