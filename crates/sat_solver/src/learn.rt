//! Backjumping, or non-chronological backtracking (GRASP, Marques-Silva and Sakallah 1996). A learned clause has one literal of the
//! last level, and is unit at the highest level of its others (it is asserting). The search goes back there, adds the clause and asserts
//! that literal. With a clause of one literal it goes back ahead of all decisions, and so it does when it restarts.

ghost use Rattle.std.specs.Prelude.{◌≡◌, ℕ, ◌+◌, ◌*◌, ◌<◌, ◌≤◌, true, false, [], ◌∷◌, ◌++◌, length, take, OnOk, slice_index};
ghost use Rattle.unit_propagation.specs.Literals.{opposite, has};
ghost use Rattle.sat_solver.specs.Meaning.{IsLearnable};
ghost use Rattle.sat_solver.specs.Learned.{watching};
ghost use Rattle.unit_propagation.specs.Watching.{IsReady, IsStopped, with_literal};
ghost use Rattle.sat_solver.specs.Learned.{IsAddable};

use crate::arrange::level_of;
use rh_base::NoMemory;
use unit_propagation::{Store, Trail, Watcher, Watches};

/// Watches the first two literals of the next clause.
pub(crate) fn watch(
    watches: &mut Watches,
    clause: u32,
    first: u32,
    second: u32,
) -> Result<(), NoMemory>
    requires first { first < length watches.old }
    requires second { second < length watches.old }
    ensures { OnOk result (watches.new ≡ watching watches.old clause first second) }
{
    watches.push(
        first,
        Watcher {
            clause,
            blocker: second,
        },
    )?;
    watches.push(
        second,
        Watcher {
            clause,
            blocker: first,
        },
    )?;
    Ok(())
}

/// Adds a clause of two literals at least, and sets its first literal.
pub(crate) fn learn_long(
    store: &mut Store,
    trail: &mut Trail,
    watches: &mut Watches,
    literals: &[u32],
) -> Result<(), NoMemory>
    requires ready { IsReady store.old trail.old watches.old }
    requires addable { IsAddable store.old trail.old literals.now }
    requires two { 2 ≤ length literals.now }
    ensures store { OnOk result (store.new ≡ store.old ++ literals.now ∷ []) }
    ensures trail { OnOk result (trail.new ≡ with_literal trail.old (slice_index literals.now 0) (length store.old)) }
    ensures ready { OnOk result (IsReady store.new trail.new watches.new) }
{
    let clause = store.count() as u32;
    watch(watches, clause, literals[0], literals[1])?;
    store.push(literals)?;
    trail.assign(literals[0], clause)?;
    Ok(())
}

/// Adds a clause of one literal, and sets it.
pub(crate) fn learn_unit(
    store: &mut Store,
    trail: &mut Trail,
    watches: &Watches,
    literals: &[u32],
) -> Result<(), NoMemory>
    requires ready { IsReady store.old trail.old watches.now }
    requires addable { IsAddable store.old trail.old literals.now }
    requires one { length literals.now < 2 }
    ensures store { OnOk result (store.new ≡ store.old ++ literals.now ∷ []) }
    ensures trail { OnOk result (trail.new ≡ with_literal trail.old (slice_index literals.now 0) (length store.old)) }
    ensures ready { OnOk result (IsReady store.new trail.new watches.now) }
{
    let clause = store.count() as u32;
    store.push(literals)?;
    trail.assign(literals[0], clause)?;
    Ok(())
}

/// The level to go back to with the literals of a learned clause.
fn level_for(trail: &Trail, literals: &[u32]) -> usize
    requires decided { 0 < length trail.now.starts }
    requires below { (x : ℕ) → has literals.now x ≡ true → x < 2 * trail.now.vars }
    requires learnable { (last : ℕ) → last + 1 ≡ length trail.now.starts → IsLearnable trail.now last literals.now }
    ensures within { result < length trail.now.starts }
    ensures short { length literals.now < 2 → result ≡ 0 }
    ensures there { 2 ≤ length literals.now
        → has (take (slice_index trail.now.starts result) trail.now.literals) (opposite (slice_index literals.now 1)) ≡ true }
    ensures before { 2 ≤ length literals.now → (j : ℕ) → j < result
        → has (take (slice_index trail.now.starts j) trail.now.literals) (opposite (slice_index literals.now 1)) ≡ false }
{
    if literals.len() < 2 {
        return 0;
    }
    let _long = trail.len();
    level_of(trail, literals[1])
}

/// Goes back, adds the learned clause of these literals, and asserts the first of them.
pub(crate) fn assert_learned(
    store: &mut Store,
    trail: &mut Trail,
    watches: &mut Watches,
    literals: &[u32],
    _conflict: u32,
) -> Result<(), NoMemory>
    requires stopped { IsStopped store.old trail.old watches.old _conflict }
    requires decided { 0 < length trail.old.starts }
    requires learnable { (last : ℕ) → last + 1 ≡ length trail.old.starts → IsLearnable trail.old last literals.now }
    ensures store { OnOk result (store.new ≡ store.old ++ literals.now ∷ []) }
    ensures vars { OnOk result (trail.new.vars ≡ trail.old.vars) }
    ensures ready { OnOk result (IsReady store.new trail.new watches.new) }
{
    if store.count() >= u32::MAX as usize {
        return Err(NoMemory);
    }
    let _levels = trail.level();
    let level = level_for(trail, literals);
    trail.back(level);
    if literals.len() < 2 {
        return learn_unit(store, trail, watches, literals);
    }
    learn_long(store, trail, watches, literals)
}

/// Goes back ahead of all decisions, where that is due.
pub(crate) fn restart(_store: &Store, trail: &mut Trail, _watches: &Watches, due: bool)
    requires { IsReady _store.now trail.old _watches.now }
    ensures ready { IsReady _store.now trail.new _watches.now }
    ensures vars { trail.new.vars ≡ trail.old.vars }
{
    if !due {
        return;
    }
    let levels = trail.level();
    if levels == 0 {
        return;
    }
    trail.back(0);
}
