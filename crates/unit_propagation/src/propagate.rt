//! Unit propagation (Boolean constraint propagation) over two watched literals (Chaff, Moskewicz and others 2001), as in MiniSat. A
//! clause watches its first two literals, and is visited only once one of them is false. Then another of its literals that isn't
//! false is watched instead; or there is none, and the other watched literal is set, or is false too and the clause is a conflict.
//! Going back needs no work on watches. A new watch is exchanged with the old one, and the other literals keep their order: with that
//! pigeons took a third less.

ghost use Rattle.std.specs.Prelude.{◌≡◌, ℕ, ◌+◌, ◌*◌, ◌<◌, ◌≤◌, ◌^◌, true, false, List, [], ◌∷◌, ◌++◌, length, take, drop, None, Some, IfOk, OnOk, slice_index, slice_index_or, slice_set};
ghost use Rattle.unit_propagation.specs.Literals.{opposite, has};
ghost use Rattle.unit_propagation.specs.Stored.{exchanged};
ghost use Rattle.unit_propagation.specs.declared.watches.Watcher.{Watcher};
ghost use Rattle.unit_propagation.specs.Watching.{clause, IsEntry, IsSound, IsReady, Scanning, AtRest, Extends, Continues};
ghost use Rattle.unit_propagation.specs.Visits.{Forces, IsAfter, Ends};

use crate::literal::opposite;
use crate::store::Store;
use crate::trail::Trail;
use crate::watches::{Watcher, Watches};
use rh_base::NoMemory;

/// What becomes of a watcher.
#[derive(Clone, Copy)]
pub(crate) enum Visited {
    /// The clause watches another literal.
    Gone,
    /// It stays, with this literal to look at first.
    Kept(u32),
    /// All literals of the clause are false.
    False,
}

/// What unit propagation works on: the clause database, the trail and the watch lists.
#[derive(Drop)]
pub struct Propagator {
    pub store: Store,
    pub trail: Trail,
    pub watches: Watches,
}

/// The first place from 2 on of a literal that isn't false.
#[inline]
fn free_place(trail: &Trail, lits: &[u32]) -> Option<usize>
    requires { (x : ℕ) → has lits.now x ≡ true → x < 2 * trail.now.vars }
    ensures some { (k : ℕ) → result ≡ Some k → (2 ≤ k) × (k < length lits.now)
        × (has trail.now.literals (opposite (slice_index lits.now k)) ≡ false) }
    ensures none { result ≡ None → (k : ℕ) → 2 ≤ k → k < length lits.now
        → has trail.now.literals (opposite (slice_index lits.now k)) ≡ true }
{
    for k in 2..lits.len() {
        let is_false = trail.is_false(lits[k]);
        if !is_false {
            return Some(k);
        }
    }
    None
}

/// The clause has no other literal left that can hold.
#[inline]
fn force(trail: &mut Trail, clause: u32, literal: u32) -> Result<Visited, NoMemory>
    requires below { literal < 2 * trail.old.vars }
    requires few { clause + 1 < 2 ^ 32 }
    requires free { has trail.old.literals literal ≡ false }
    ensures { IfOk result (λ out. Forces trail.old trail.new literal clause out) }
{
    let is_false = trail.is_false(literal);
    if is_false {
        return Ok(Visited::False);
    }
    trail.assign(literal, clause)?;
    Ok(Visited::Kept(literal))
}

/// The watchers of a literal that became false: those ahead of `kept` stay, those from `next` on are to be visited. The
/// clause of which all literals are false, if one was found.
#[derive(Drop)]
struct Scan {
    list: Vec<Watcher>,
    next: usize,
    kept: usize,
    conflict: Option<u32>,
}

/// Keeps the next watcher, with this blocker, and goes on.
#[inline]
fn keep(scan: &mut Scan, clause: u32, blocker: u32)
    requires order { scan.old.kept ≤ scan.old.next }
    requires within { scan.old.next < length scan.old.list.items }
    ensures front { take scan.new.kept scan.new.list.items ≡ take scan.old.kept scan.old.list.items
        ++ record { clause = clause; blocker = blocker } ∷ [] }
    ensures rest { drop scan.new.next scan.new.list.items ≡ drop (scan.old.next + 1) scan.old.list.items }
    ensures kept { scan.new.kept ≡ scan.old.kept + 1 }
    ensures next { scan.new.next ≡ scan.old.next + 1 }
    ensures long { length scan.new.list.items ≡ length scan.old.list.items }
    ensures conflict { scan.new.conflict ≡ scan.old.conflict }
{
    scan.list[scan.kept] = Watcher { clause, blocker };
    scan.kept += 1;
    scan.next += 1;
}

/// The next watcher.
#[inline]
fn next_watcher(scan: &Scan) -> Watcher
    requires { scan.now.next < length scan.now.list.items }
    ensures { drop scan.now.next scan.now.list.items ≡ result ∷ drop (scan.now.next + 1) scan.now.list.items }
{
    scan.list[scan.next]
}

/// Whether a watcher is left.
#[inline]
fn remains(scan: &Scan) -> bool
    ensures more { result ≡ true → scan.now.next < length scan.now.list.items }
    ensures none { result ≡ false → length scan.now.list.items ≤ scan.now.next }
{
    scan.next < scan.list.len()
}

/// Gives the watchers that stay back to their literal.
#[inline]
fn finish(watches: &mut Watches, scan: Scan, falsified: u32) -> Option<u32>
    requires { falsified < length watches.old }
    ensures watches { watches.new ≡ slice_set watches.old falsified (take scan.kept scan.list.items) }
    ensures conflict { result ≡ scan.conflict }
{
    let Scan {
        mut list,
        next: _,
        kept,
        conflict,
    } = scan;
    list.truncate(kept);
    watches.put(falsified, list);
    conflict
}

impl Propagator {
    /// The clause watches its literal at place k from now on, in place of the one at a side.
    #[inline]
    fn shift(
        &mut self,
        watcher: Watcher,
        side: usize,
        k: usize,
        literal: u32,
    ) -> Result<(), NoMemory>
        requires there { watcher.clause < length self.old.store }
        requires near { side < length (clause self.old.store watcher.clause) }
        requires far { k < length (clause self.old.store watcher.clause) }
        requires below { literal < length self.old.watches }
        ensures store { OnOk result (self.new.store
            ≡ slice_set self.old.store watcher.clause (exchanged (clause self.old.store watcher.clause) side k)) }
        ensures trail { OnOk result (self.new.trail ≡ self.old.trail) }
        ensures watches { OnOk result (self.new.watches
            ≡ slice_set self.old.watches literal (slice_index_or self.old.watches literal [] ++ watcher ∷ [])) }
    {
        self.watches.push(literal, watcher)?;
        self.store.exchange(watcher.clause, side, k);
        Ok(())
    }

    /// Visits a clause of which the watched literal at a side became false.
    #[inline]
    #[tactic(auto, using(crate::proofs::Extending::continues_same))]
    fn visit_at(
        &mut self,
        watcher: Watcher,
        falsified: u32,
        side: usize,
    ) -> Result<Visited, NoMemory>
        requires sound { IsSound self.old.store self.old.trail self.old.watches }
        requires entry { IsEntry self.old.store watcher }
        requires near { side < 2 }
        requires here { slice_index (clause self.old.store watcher.clause) side ≡ falsified }
        ensures goes { OnOk result (Continues self.old.store self.old.trail self.new.store self.new.trail) }
        ensures visits { IfOk result (λ out. (front rest : List Watcher)
            → Scanning self.old.store self.old.trail self.old.watches front (watcher ∷ rest) falsified None
            → IsAfter self.new.store self.new.trail self.new.watches front rest falsified watcher out) }
    {
        let lits = self.store.clause(watcher.clause);
        let other = lits[1 - side];
        let holds = self.trail.holds(other);
        if holds {
            return Ok(Visited::Kept(other));
        }
        match free_place(&self.trail, lits) {
            None => Ok(force(&mut self.trail, watcher.clause, other)?),
            Some(k) => {
                let literal = lits[k];
                let moved = Watcher {
                    clause: watcher.clause,
                    blocker: other,
                };
                self.shift(moved, side, k, literal)?;
                Ok(Visited::Gone)
            }
        }
    }

    /// Visits a clause of which a watched literal became false.
    #[inline]
    #[tactic(auto, using(crate::proofs::Extending::continues_same))]
    fn visit(&mut self, watcher: Watcher, falsified: u32) -> Result<Visited, NoMemory>
        requires sound { IsSound self.old.store self.old.trail self.old.watches }
        requires entry { IsEntry self.old.store watcher }
        ensures goes { OnOk result (Continues self.old.store self.old.trail self.new.store self.new.trail) }
        ensures visits { IfOk result (λ out. (front rest : List Watcher)
            → Scanning self.old.store self.old.trail self.old.watches front (watcher ∷ rest) falsified None
            → IsAfter self.new.store self.new.trail self.new.watches front rest falsified watcher out) }
    {
        let lits = self.store.clause(watcher.clause);
        let first = lits[0];
        let second = lits[1];
        if first == falsified {
            return self.visit_at(watcher, falsified, 0);
        }
        if second == falsified {
            return self.visit_at(watcher, falsified, 1);
        }
        Ok(Visited::Gone)
    }

    /// Visits the next watcher, where no clause was found to be false.
    #[inline]
    #[tactic(auto, using(crate::proofs::Extending::continues_same))]
    fn step_on(&mut self, scan: &mut Scan, watcher: Watcher, falsified: u32) -> Result<(), NoMemory>
        requires order { scan.old.kept ≤ scan.old.next }
        requires within { scan.old.next < length scan.old.list.items }
        requires none { scan.old.conflict ≡ None }
        requires scanning { Scanning self.old.store self.old.trail self.old.watches (take scan.old.kept scan.old.list.items)
            (watcher ∷ drop (scan.old.next + 1) scan.old.list.items) falsified None }
        ensures goes { OnOk result (Continues self.old.store self.old.trail self.new.store self.new.trail) }
        ensures scanning { OnOk result
            (Scanning self.new.store self.new.trail self.new.watches (take scan.new.kept scan.new.list.items)
            (drop scan.new.next scan.new.list.items) falsified scan.new.conflict) }
        ensures order { OnOk result (scan.new.kept ≤ scan.new.next) }
        ensures next { OnOk result (scan.new.next ≡ scan.old.next + 1) }
        ensures long { OnOk result (length scan.new.list.items ≡ length scan.old.list.items) }
    {
        let holds = self.trail.holds(watcher.blocker);
        if holds {
            keep(scan, watcher.clause, watcher.blocker);
            return Ok(());
        }
        match self.visit(watcher, falsified)? {
            Visited::Gone => {
                scan.next += 1;
                Ok(())
            }
            Visited::Kept(blocker) => {
                keep(scan, watcher.clause, blocker);
                Ok(())
            }
            Visited::False => {
                keep(scan, watcher.clause, watcher.blocker);
                scan.conflict = Some(watcher.clause);
                Ok(())
            }
        }
    }

    /// Visits the next watcher; after a clause that is false it stays.
    #[inline]
    #[tactic(auto, using(crate::proofs::Extending::continues_same))]
    fn step(&mut self, scan: &mut Scan, falsified: u32) -> Result<(), NoMemory>
        requires order { scan.old.kept ≤ scan.old.next }
        requires within { scan.old.next < length scan.old.list.items }
        requires scanning { Scanning self.old.store self.old.trail self.old.watches (take scan.old.kept scan.old.list.items)
            (drop scan.old.next scan.old.list.items) falsified scan.old.conflict }
        ensures goes { OnOk result (Continues self.old.store self.old.trail self.new.store self.new.trail) }
        ensures scanning { OnOk result
            (Scanning self.new.store self.new.trail self.new.watches (take scan.new.kept scan.new.list.items)
            (drop scan.new.next scan.new.list.items) falsified scan.new.conflict) }
        ensures order { OnOk result (scan.new.kept ≤ scan.new.next) }
        ensures next { OnOk result (scan.new.next ≡ scan.old.next + 1) }
        ensures long { OnOk result (length scan.new.list.items ≡ length scan.old.list.items) }
    {
        let watcher = next_watcher(scan);
        match scan.conflict {
            Some(_found) => {
                keep(scan, watcher.clause, watcher.blocker);
                Ok(())
            }
            None => self.step_on(scan, watcher, falsified),
        }
    }

    /// Visits all clauses that watch a literal which became false.
    fn propagate_literal(&mut self, falsified: u32) -> Result<Option<u32>, NoMemory>
        requires below { falsified < length self.old.watches }
        requires scanning { Scanning self.old.store self.old.trail (slice_set self.old.watches falsified []) []
            (slice_index_or self.old.watches falsified []) falsified None }
        ensures goes { OnOk result (Continues self.old.store self.old.trail self.new.store self.new.trail) }
        ensures ends { IfOk result (λ conflict. Ends self.new.store self.new.trail self.new.watches conflict) }
    {
        let mut scan = Scan {
            list: self.watches.take(falsified),
            next: 0,
            kept: 0,
            conflict: None,
        };
        'scan: while remains(&scan) {
            self.step(&mut scan, falsified)?;
        }
        Ok(finish(&mut self.watches, scan, falsified))
    }

    /// Sets what follows, until nothing more does or all literals of some clause are false.
    pub fn propagate(&mut self) -> Result<Option<u32>, NoMemory>
        requires { IsReady self.old.store self.old.trail self.old.watches }
        ensures goes { OnOk result (Extends self.old.store self.old.trail self.new.store self.new.trail) }
        ensures ends { IfOk result (λ conflict. Ends self.new.store self.new.trail self.new.watches conflict) }
        ensures rest { IfOk result (λ conflict. conflict ≡ None → AtRest self.new.store self.new.trail.literals) }
        ensures end { IfOk result (λ conflict. conflict ≡ None → self.new.trail.done ≡ length self.new.trail.literals) }
    {
        'literals: while let Some(literal) = self.trail.next() {
            match self.propagate_literal(opposite(literal))? {
                Some(found) => return Ok(Some(found)),
                None => {}
            }
        }
        Ok(None)
    }
}
