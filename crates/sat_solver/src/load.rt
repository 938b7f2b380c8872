//! Taking the formula in, as its clauses stand: there is no preprocessing. A clause of two literals at least is watched, the literal
//! of a unit clause is set ahead of all decisions, and an empty clause, or a unit clause whose literal is false, refutes the formula
//! at once. The store has the clauses in the formula's order, so their numbers are those that the log names.

ghost use Rattle.std.specs.Prelude.{◌≡◌, ℕ, ◌+◌, ◌*◌, ◌<◌, ◌≤◌, ◌^◌, true, false, [], ◌∷◌, ◌++◌, length, map, IfOk, OnOk, None, Some};
ghost use Rattle.cnf.specs.Literals.{HasVariable};
ghost use Rattle.cnf.specs.Formulas.{clause_at};
ghost use Rattle.cnf.specs.Store.{index_of};
ghost use Rattle.unit_propagation.specs.Literals.{has};
ghost use Rattle.unit_propagation.specs.Watching.{IsReady, IsSound, IsFalse, IsOnce};
ghost use Rattle.sat_solver.specs.Solving.{IsLoaded, IsBroken};

use crate::learn::{learn_unit, watch};
use cnf::{Cnf, Lit};
use rh_base::NoMemory;
use std::alloc::Global;
use unit_propagation::{Store, Trail, Watches};

/// The index of a literal.
fn index_of(lit: Lit) -> u32
    requires { HasVariable (2 ^ 31) lit }
    ensures { result ≡ index_of lit }
{
    let sign = if lit.positive { 0 } else { 1 };
    (2 * (lit.var - 1) + sign) as u32
}

/// The literals of a clause of the formula, by their indexes.
#[tactic(auto, using(crate::proofs::Indexing::lit_variable))]
fn literals_of(alloc: Global, cnf: &Cnf, n: u64) -> Result<Vec<u32>, NoMemory>
    requires low { 1 ≤ n }
    requires high { n ≤ length cnf.now.clauses }
    ensures { IfOk result (λ v. v.items ≡ map index_of (clause_at cnf.now n)) }
{
    let _vars = cnf.vars();
    let mut literals = Vec::new(alloc);
    'lits: for k in 0..cnf.length(n) {
        let lit = cnf.lit(n, k);
        literals.push(index_of(lit))?;
    }
    Ok(literals)
}

/// Takes a clause of two literals at least in.
fn load_long(
    store: &mut Store,
    _trail: &Trail,
    watches: &mut Watches,
    literals: &[u32],
) -> Result<(), NoMemory>
    requires ready { IsReady store.old _trail.now watches.old }
    requires start { _trail.now.done ≡ 0 }
    requires level { _trail.now.starts ≡ [] }
    requires few { length store.old + 1 < 2 ^ 32 }
    requires within { (x : ℕ) → has literals.now x ≡ true → x < 2 * _trail.now.vars }
    requires once { IsOnce literals.now }
    requires two { 2 ≤ length literals.now }
    ensures store { OnOk result (store.new ≡ store.old ++ literals.now ∷ []) }
    ensures ready { OnOk result (IsReady store.new _trail.now watches.new) }
{
    let clause = store.count() as u32;
    watch(watches, clause, literals[0], literals[1])?;
    store.push(literals)?;
    Ok(())
}

/// Takes a clause of one literal in; whether it is false.
fn load_unit(
    store: &mut Store,
    trail: &mut Trail,
    watches: &Watches,
    literals: &[u32],
) -> Result<bool, NoMemory>
    requires ready { IsReady store.old trail.old watches.now }
    requires level { trail.old.starts ≡ [] }
    requires few { length store.old + 1 < 2 ^ 32 }
    requires within { (x : ℕ) → has literals.now x ≡ true → x < 2 * trail.old.vars }
    requires once { IsOnce literals.now }
    requires some { 0 < length literals.now }
    requires one { length literals.now < 2 }
    ensures store { OnOk result (store.new ≡ store.old ++ literals.now ∷ []) }
    ensures starts { OnOk result (trail.new.starts ≡ trail.old.starts) }
    ensures done { OnOk result (trail.new.done ≡ trail.old.done) }
    ensures vars { OnOk result (trail.new.vars ≡ trail.old.vars) }
    ensures ready { IfOk result (λ b. b ≡ false → IsReady store.new trail.new watches.now) }
    ensures sound { IfOk result (λ b. b ≡ true → IsSound store.new trail.new watches.now) }
    ensures is_false { IfOk result (λ b. b ≡ true → IsFalse store.new trail.new.literals (length store.old)) }
{
    let literal = literals[0];
    let holds = trail.holds(literal);
    if holds {
        store.push(literals)?;
        return Ok(false);
    }
    let is_false = trail.is_false(literal);
    if is_false {
        store.push(literals)?;
        return Ok(true);
    }
    learn_unit(store, trail, watches, literals)?;
    Ok(false)
}

/// Takes a clause in; whether it is false.
fn load_clause(
    store: &mut Store,
    trail: &mut Trail,
    watches: &mut Watches,
    literals: &[u32],
) -> Result<bool, NoMemory>
    requires ready { IsReady store.old trail.old watches.old }
    requires start { trail.old.done ≡ 0 }
    requires level { trail.old.starts ≡ [] }
    requires within { (x : ℕ) → has literals.now x ≡ true → x < 2 * trail.old.vars }
    requires once { IsOnce literals.now }
    ensures store { OnOk result (store.new ≡ store.old ++ literals.now ∷ []) }
    ensures few { OnOk result (length store.old + 1 < 2 ^ 32) }
    ensures starts { OnOk result (trail.new.starts ≡ trail.old.starts) }
    ensures done { OnOk result (trail.new.done ≡ trail.old.done) }
    ensures vars { OnOk result (trail.new.vars ≡ trail.old.vars) }
    ensures ready { IfOk result (λ b. b ≡ false → IsReady store.new trail.new watches.new) }
    ensures sound { IfOk result (λ b. b ≡ true → IsSound store.new trail.new watches.new) }
    ensures is_false { IfOk result (λ b. b ≡ true → IsFalse store.new trail.new.literals (length store.old)) }
{
    if store.count() >= u32::MAX as usize {
        return Err(NoMemory);
    }
    if literals.len() == 0 {
        store.push(literals)?;
        return Ok(true);
    }
    if literals.len() < 2 {
        return load_unit(store, trail, watches, literals);
    }
    load_long(store, trail, watches, literals)?;
    Ok(false)
}

/// Takes the formula in; the clause that is false, if one is.
pub(crate) fn load(
    alloc: Global,
    cnf: &Cnf,
    store: &mut Store,
    trail: &mut Trail,
    watches: &mut Watches,
) -> Result<Option<u32>, NoMemory>
    requires { IsLoaded cnf.now 0 store.old trail.old watches.old }
    ensures none { IfOk result (λ r. r ≡ None → IsLoaded cnf.now (length cnf.now.clauses) store.new trail.new watches.new) }
    ensures some { IfOk result (λ r. (m : ℕ) → r ≡ Some m → IsBroken cnf.now store.new trail.new watches.new m) }
    ensures vars { OnOk result (trail.new.vars ≡ trail.old.vars) }
{
    'clauses: for n in 0..cnf.count() {
        let literals = literals_of(alloc, cnf, n + 1)?;
        let number = store.count() as u32;
        let is_false = load_clause(store, trail, watches, &literals)?;
        if is_false {
            return Ok(Some(number));
        }
    }
    Ok(None)
}
