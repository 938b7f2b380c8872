//! Conflict analysis (GRASP, Marques-Silva and Sakallah 1996), by marks and a count as in MiniSat: the false clause is resolved with
//! reasons, backwards along the trail, until one literal of the last level is left, the first unique implication point (first UIP:
//! Zhang and others 2001). A conflict ahead of all decisions is resolved in the same way down to the empty clause, since the log has
//! to derive it. The resolvent has the false literals whose variables are marked.

ghost use Rattle.std.specs.Prelude.{◌≡◌, ◌⊎◌, ℕ, ◌+◌, ◌*◌, ◌/◌, ◌<◌, ◌≤◌, ◌^◌, ◌==◌, ◌&&◌, ◌||◌, not, true, false, [], ◌∷◌, ◌++◌, length, take, None, IfOk, OnOk, slice_index, slice_set};
ghost use Rattle.unit_propagation.specs.Literals.{opposite, has};
ghost use Rattle.unit_propagation.specs.Trails.{IsApart, reason_at};
ghost use Rattle.unit_propagation.specs.Watching.{clause, IsFalse, IsOnce};
ghost use Rattle.sat_solver.specs.Resolving.{is_seen, in_clause, Covers};
ghost use Rattle.sat_solver.specs.Analyzing.{IsImplicationGraph, IsAllGiven, IsCounted, IsClear, IsConflict, IsCovered, IsReached, Resolves, HasUip, IsAnalyzed};

use crate::graph::ImplicationGraph;
use crate::plan::Plan;
use rh_base::NoMemory;
use std::alloc::Global;
use unit_propagation::{Trail, opposite};

/// One resolution: the number of the antecedent, and the pivot, which is the literal of the resolvent that is taken out.
#[derive(Clone, Copy)]
pub(crate) struct Resolution {
    pub number: u32,
    pub pivot: u32,
}

/// The resolvent: its literals are false, and their variables are marked. How many became false at the last level; the
/// literals that were ever marked; and the resolutions. So many of the marked ones took part in the conflict; and those that
/// may go afterwards.
#[derive(Drop)]
pub(crate) struct Resolvent {
    pub seen: Vec<bool>,
    pub marked: Vec<u32>,
    pub pending: usize,
    pub resolutions: Vec<Resolution>,
    pub met: usize,
    pub plan: Plan,
}

/// Whether the variable of a literal is marked.
#[inline]
pub(crate) fn is_marked(seen: &[bool], literal: u32) -> bool
    requires { literal / 2 < length seen.now }
    ensures { result ≡ is_seen seen.now literal }
{
    seen[(literal / 2) as usize]
}

/// The literal at a place.
#[inline]
fn literal_at(literals: &[u32], i: usize) -> u32
    requires { i < length literals.now }
    ensures { result ≡ slice_index literals.now i }
{
    literals[i]
}

impl Resolvent {
    /// Nothing is marked.
    pub(crate) fn new(alloc: Global, vars: usize) -> Result<Resolvent, NoMemory>
        ensures long { IfOk result (λ r. length r.seen.items ≡ vars) }
        ensures none { IfOk result (λ r. (x : ℕ) → is_seen r.seen.items x ≡ false) }
    {
        Ok(Resolvent {
            seen: vec![in alloc; false; vars]?,
            marked: Vec::new(alloc),
            pending: 0,
            resolutions: Vec::new(alloc),
            met: 0,
            plan: Plan::new(alloc, vars)?,
        })
    }

    /// The literals that took part in the conflict.
    pub(crate) fn met(&self) -> &[u32] {
        if self.met < self.marked.len() {
            return &self.marked[..self.met];
        }
        &self.marked
    }

    /// Marks the variable of a literal that is false ahead of a limit, from which on nothing is marked.
    #[inline]
    fn mark(
        &mut self,
        graph: &ImplicationGraph<'_>,
        limit: usize,
        literal: u32,
    ) -> Result<(), NoMemory>
        requires graph { IsImplicationGraph graph.now }
        requires fits { limit ≤ length graph.now.trail.now.literals }
        requires below { literal < 2 * graph.now.trail.now.vars }
        requires is_false { has (take limit graph.now.trail.now.literals) (opposite literal) ≡ true }
        requires counted { IsCounted graph.now limit self.old }
        ensures counted { OnOk result (IsCounted graph.now limit self.new) }
        ensures grows { OnOk result (self.old.pending ≤ self.new.pending) }
        ensures seen { OnOk result ((x : ℕ) → has graph.now.trail.now.literals (opposite x) ≡ true
            → is_seen self.new.seen.items x ≡ (is_seen self.old.seen.items x || (x == literal))) }
        ensures resolutions { OnOk result (self.new.resolutions ≡ self.old.resolutions) }
        ensures covered { OnOk result (IsCovered graph.now self.old → IsCovered graph.now self.new) }
    {
        let seen = is_marked(&self.seen, literal);
        if seen {
            return Ok(());
        }
        self.marked.push(literal)?;
        self.seen[(literal / 2) as usize] = true;
        let place = graph.trail.place(literal);
        if place < graph.boundary {
            return Ok(());
        }
        self.pending += 1;
        Ok(())
    }

    /// Joins the literals of a clause, but for one; they are false ahead of a limit, from which on nothing is marked.
    pub(crate) fn join(
        &mut self,
        graph: &ImplicationGraph<'_>,
        limit: usize,
        lits: &[u32],
        skip: u32,
    ) -> Result<(), NoMemory>
        requires graph { IsImplicationGraph graph.now }
        requires fits { limit ≤ length graph.now.trail.now.literals }
        requires below { (x : ℕ) → has lits.now x ≡ true → x < 2 * graph.now.trail.now.vars }
        requires are_false { (x : ℕ) → has lits.now x ≡ true
            → (x ≡ skip) ⊎ (has (take limit graph.now.trail.now.literals) (opposite x) ≡ true) }
        requires counted { IsCounted graph.now limit self.old }
        ensures counted { OnOk result (IsCounted graph.now limit self.new) }
        ensures seen { OnOk result ((x : ℕ) → has graph.now.trail.now.literals (opposite x) ≡ true
            → is_seen self.new.seen.items x ≡ (is_seen self.old.seen.items x || (has lits.now x && not (x == skip)))) }
        ensures grows { OnOk result (self.old.pending ≤ self.new.pending) }
        ensures resolutions { OnOk result (self.new.resolutions ≡ self.old.resolutions) }
        ensures covered { OnOk result (IsCovered graph.now self.old → IsCovered graph.now self.new) }
    {
        for literal in lits {
            if *literal == skip {
                continue;
            }
            self.mark(graph, limit, *literal)?;
        }
        Ok(())
    }

    /// Takes the opposite of a literal out of the resolvent: names the clause that gave the literal.
    #[inline]
    pub(crate) fn cut(&mut self, literal: u32, clause: u32) -> Result<(), NoMemory>
        requires within { literal / 2 < length self.old.seen.items }
        requires few { clause + 1 < 2 ^ 32 }
        ensures seen { OnOk result (self.new.seen.items ≡ slice_set self.old.seen.items (literal / 2) false) }
        ensures pending { OnOk result (self.new.pending ≡ self.old.pending) }
        ensures marked { OnOk result (self.new.marked ≡ self.old.marked) }
        ensures resolutions { OnOk result (self.new.resolutions.items
            ≡ self.old.resolutions.items ++ record { number = clause + 1; pivot = opposite literal } ∷ []) }
    {
        self.resolutions.push(Resolution {
            number: clause + 1,
            pivot: opposite(literal),
        })?;
        self.seen[(literal / 2) as usize] = false;
        Ok(())
    }

    /// The same for a literal of the last level.
    #[inline]
    fn take_out(&mut self, literal: u32, clause: u32) -> Result<(), NoMemory>
        requires within { literal / 2 < length self.old.seen.items }
        requires few { clause + 1 < 2 ^ 32 }
        requires some { 0 < self.old.pending }
        ensures seen { OnOk result (self.new.seen.items ≡ slice_set self.old.seen.items (literal / 2) false) }
        ensures pending { OnOk result (self.new.pending + 1 ≡ self.old.pending) }
        ensures marked { OnOk result (self.new.marked ≡ self.old.marked) }
        ensures resolutions { OnOk result (self.new.resolutions.items
            ≡ self.old.resolutions.items ++ record { number = clause + 1; pivot = opposite literal } ∷ []) }
    {
        self.cut(literal, clause)?;
        self.pending -= 1;
        Ok(())
    }

    /// Resolves the opposite of the literal at a place away: it is the last of the resolvent on the trail, and a clause gave
    /// that literal.
    #[inline]
    fn resolve_at(&mut self, graph: &ImplicationGraph<'_>, place: usize) -> Result<(), NoMemory>
        requires graph { IsImplicationGraph graph.now }
        requires late { graph.now.boundary ≤ place }
        requires within { place < length graph.now.trail.now.literals }
        requires counted { IsCounted graph.now (place + 1) self.old }
        requires seen { is_seen self.old.seen.items (slice_index graph.now.trail.now.literals place) ≡ true }
        requires given { reason_at graph.now.trail.now place ≡ None → ⊥ }
        ensures counted { OnOk result (IsCounted graph.now place self.new) }
        ensures one_less { OnOk result (self.old.pending ≤ self.new.pending + 1) }
        ensures resolves { OnOk result (Resolves graph.now self.old self.new) }
    {
        let literal = graph.trail.literal(place);
        let Some(reason) = graph.trail.reason(place) else {
            unreachable!()
        };
        self.take_out(literal, reason)?;
        self.join(graph, place, graph.store.clause(reason), literal)?;
        Ok(())
    }

    /// Goes past a place of the trail; whether it has the last literal that is left of the last level.
    #[tactic(auto, using(crate::proofs::Analyzing::resolves_same))]
    fn pass(&mut self, graph: &ImplicationGraph<'_>, place: usize) -> Result<bool, NoMemory>
        requires graph { IsImplicationGraph graph.now }
        requires late { graph.now.boundary ≤ place }
        requires within { place < length graph.now.trail.now.literals }
        requires some { 0 < self.old.pending }
        requires counted { IsCounted graph.now (place + 1) self.old }
        ensures found { IfOk result (λ b. b ≡ true → (self.new ≡ self.old) × (self.old.pending ≡ 1)
            × (is_seen self.old.seen.items (slice_index graph.now.trail.now.literals place) ≡ true)) }
        ensures some { IfOk result (λ b. b ≡ false → 0 < self.new.pending) }
        ensures counted { IfOk result (λ b. b ≡ false → IsCounted graph.now place self.new) }
        ensures resolves { OnOk result (Resolves graph.now self.old self.new) }
    {
        let literal = graph.trail.literal(place);
        let seen = is_marked(&self.seen, literal);
        if !seen {
            return Ok(false);
        }
        if self.pending == 1 {
            return Ok(true);
        }
        self.resolve_at(graph, place)?;
        Ok(false)
    }

    /// Goes back along the trail until one literal of the last level is left; where it stands.
    fn descend(&mut self, graph: &ImplicationGraph<'_>) -> Result<usize, NoMemory>
        requires graph { IsImplicationGraph graph.now }
        requires fits { graph.now.boundary ≤ length graph.now.trail.now.literals }
        requires some { 0 < self.old.pending }
        requires counted { IsCounted graph.now (length graph.now.trail.now.literals) self.old }
        ensures left { IfOk result (λ p. HasUip graph.now p self.new) }
        ensures long { OnOk result (length self.new.seen.items ≡ graph.now.trail.now.vars) }
        ensures resolves { OnOk result (Resolves graph.now self.old self.new) }
    {
        let mut place = graph.trail.len();
        'walk: while place > graph.boundary {
            place -= 1;
            let found = self.pass(graph, place)?;
            if found {
                return Ok(place);
            }
        }
        unreachable!()
    }

    /// Begins with a clause that is false.
    fn begin(&mut self, graph: &ImplicationGraph<'_>, conflict: u32) -> Result<(), NoMemory>
        requires graph { IsImplicationGraph graph.now }
        requires clear { IsClear graph.now self.old }
        requires conflict { IsConflict graph.now conflict }
        ensures some { OnOk result (0 < self.new.pending) }
        ensures counted { OnOk result (IsCounted graph.now (length graph.now.trail.now.literals) self.new) }
        ensures covered { OnOk result (IsCovered graph.now self.new) }
        ensures leads { OnOk result (IsReached graph.now (has (clause graph.now.store.now conflict)) self.new) }
    {
        let lits = graph.store.clause(conflict);
        let limit = graph.trail.len();
        let skip = graph.trail.literal(graph.boundary);
        self.join(graph, limit, lits, skip)?;
        Ok(())
    }

    /// Resolves a clause that is false to one that has one literal of the last level; where the opposite of that literal stands.
    pub(crate) fn analyze(
        &mut self,
        graph: &ImplicationGraph<'_>,
        conflict: u32,
    ) -> Result<usize, NoMemory>
        requires graph { IsImplicationGraph graph.now }
        requires clear { IsClear graph.now self.old }
        requires conflict { IsConflict graph.now conflict }
        ensures { IfOk result (IsAnalyzed graph.now conflict self.new) }
    {
        self.begin(graph, conflict)?;
        let place = self.descend(graph)?;
        Ok(place)
    }

    /// Goes past a place of the trail; whichever literal stands there is taken out.
    #[inline]
    #[tactic(auto, using(crate::proofs::Analyzing::resolves_same))]
    fn pass_all(&mut self, graph: &ImplicationGraph<'_>, place: usize) -> Result<(), NoMemory>
        requires graph { IsImplicationGraph graph.now }
        requires ground { graph.now.boundary ≡ 0 }
        requires all { IsAllGiven graph.now.trail.now }
        requires within { place < length graph.now.trail.now.literals }
        requires counted { IsCounted graph.now (place + 1) self.old }
        ensures counted { OnOk result (IsCounted graph.now place self.new) }
        ensures resolves { OnOk result (Resolves graph.now self.old self.new) }
    {
        let literal = graph.trail.literal(place);
        let seen = is_marked(&self.seen, literal);
        if !seen {
            return Ok(());
        }
        self.resolve_at(graph, place)
    }

    /// Goes back along the trail until no literal is left.
    #[tactic(auto, using(crate::proofs::Analyzing::resolves_same))]
    fn descend_all(&mut self, graph: &ImplicationGraph<'_>) -> Result<(), NoMemory>
        requires graph { IsImplicationGraph graph.now }
        requires ground { graph.now.boundary ≡ 0 }
        requires all { IsAllGiven graph.now.trail.now }
        requires counted { IsCounted graph.now (length graph.now.trail.now.literals) self.old }
        ensures counted { OnOk result (IsCounted graph.now 0 self.new) }
        ensures resolves { OnOk result (Resolves graph.now self.old self.new) }
    {
        let mut place = graph.trail.len();
        'walk: while place > 0 {
            place -= 1;
            self.pass_all(graph, place)?;
        }
        Ok(())
    }

    /// Begins with a clause that is false, of which no literal is to be left.
    fn begin_all(&mut self, graph: &ImplicationGraph<'_>, conflict: u32) -> Result<(), NoMemory>
        requires graph { IsImplicationGraph graph.now }
        requires clear { IsClear graph.now self.old }
        requires is_false { IsFalse graph.now.store.now graph.now.trail.now.literals conflict }
        ensures counted { OnOk result (IsCounted graph.now (length graph.now.trail.now.literals) self.new) }
        ensures leads { OnOk result (IsReached graph.now (has (clause graph.now.store.now conflict)) self.new) }
    {
        let lits = graph.store.clause(conflict);
        if lits.len() == 0 {
            return Ok(());
        }
        let limit = graph.trail.len();
        let skip = opposite(literal_at(lits, 0));
        self.join(graph, limit, lits, skip)?;
        Ok(())
    }

    /// Resolves a clause that is false ahead of all decisions to the empty clause.
    pub(crate) fn refute(
        &mut self,
        graph: &ImplicationGraph<'_>,
        conflict: u32,
    ) -> Result<(), NoMemory>
        requires graph { IsImplicationGraph graph.now }
        requires ground { graph.now.boundary ≡ 0 }
        requires all { IsAllGiven graph.now.trail.now }
        requires clear { IsClear graph.now self.old }
        requires is_false { IsFalse graph.now.store.now graph.now.trail.now.literals conflict }
        ensures counted { OnOk result (IsCounted graph.now 0 self.new) }
        ensures leads { OnOk result (IsReached graph.now (has (clause graph.now.store.now conflict)) self.new) }
    {
        self.begin_all(graph, conflict)?;
        self.descend_all(graph)?;
        Ok(())
    }

    /// Moves a literal out of the resolvent, if it is there.
    #[inline]
    fn give(&mut self, literal: u32, into: &mut Vec<u32>) -> Result<(), NoMemory>
        requires { literal / 2 < length self.old.seen.items }
        ensures moved { OnOk result (is_seen self.old.seen.items literal ≡ true
            → (into.new.items ≡ into.old.items ++ literal ∷ [])
            × (self.new.seen.items ≡ slice_set self.old.seen.items (literal / 2) false)) }
        ensures not_there { OnOk result (is_seen self.old.seen.items literal ≡ false → (into.new.items ≡ into.old.items)
            × (self.new.seen.items ≡ self.old.seen.items)) }
        ensures marked { OnOk result (self.new.marked ≡ self.old.marked) }
        ensures resolutions { OnOk result (self.new.resolutions ≡ self.old.resolutions) }
    {
        let seen = is_marked(&self.seen, literal);
        if !seen {
            return Ok(());
        }
        into.push(literal)?;
        self.seen[(literal / 2) as usize] = false;
        Ok(())
    }

    /// The literals of the resolvent, of which one comes first. It is empty then.
    pub(crate) fn collect(
        &mut self,
        trail: &Trail,
        first: u32,
        into: &mut Vec<u32>,
    ) -> Result<(), NoMemory>
        requires apart { IsApart trail.now.literals }
        requires below { (x : ℕ) → has trail.now.literals (opposite x) ≡ true → x / 2 < length self.old.seen.items }
        requires covers { Covers trail.now.literals self.old.seen.items self.old.marked.items }
        requires first { in_clause trail.now.literals self.old.seen.items first ≡ true }
        requires empty { into.old.items ≡ [] }
        ensures literals { OnOk result ((x : ℕ) → has into.new.items x ≡ in_clause trail.now.literals self.old.seen.items x) }
        ensures once { OnOk result (IsOnce into.new.items) }
        ensures some { OnOk result (0 < length into.new.items) }
        ensures head { OnOk result (slice_index into.new.items 0 ≡ first) }
        ensures clear { OnOk result ((x : ℕ) → is_seen self.new.seen.items x ≡ false) }
        ensures long { OnOk result (length self.new.seen.items ≡ length self.old.seen.items) }
        ensures resolutions { OnOk result (self.new.resolutions ≡ self.old.resolutions) }
    {
        self.give(first, into)?;
        'gather: for i in 0..self.marked.len() {
            let literal = literal_at(&self.marked, i);
            self.give(literal, into)?;
        }
        Ok(())
    }
}
