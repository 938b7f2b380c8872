//! The trail: the assignment as a stack of literals, with the decision levels and the reasons (antecedents) of an implication graph
//! (GRASP, Marques-Silva and Sakallah 1996), kept as MiniSat keeps them. A level begins with a decision, and `starts` has the place
//! of each; `done` is how far the trail is propagated. Levels are counted from 0, that of the first decision; what stands ahead of
//! it, at the field's level 0, holds in every model. A reason is kept packed, as the number of its clause, from 1 as in the log, or 0
//! for a decision; who asks for one gets the clause or none.

ghost use Rattle.std.specs.Prelude.{◌≡◌, ℕ, ◌+◌, ◌*◌, ◌/◌, ◌<◌, ◌≤◌, ◌^◌, true, false, [], ◌∷◌, ◌++◌, length, drop, not, ◌&&◌, IfOk, OnOk, OnErr, None, Some, slice_index, slice_index_or};
ghost use Rattle.unit_propagation.specs.Literals.{opposite, has};
ghost use Rattle.unit_propagation.specs.Trails.{IsApart};
ghost use Rattle.unit_propagation.specs.Watching.{back_to};
ghost use Rattle.unit_propagation.specs.Trails.{Rising, reason_at, reason_of};

use crate::literal::opposite;
use rh_base::NoMemory;
use std::alloc::Global;
use std::marker::Model;

/// The literals that hold, in the order in which they were set, and for each the number of the clause that gave it, or 0.
#[derive(Drop)]
pub struct Trail {
    holds: Vec<bool>,
    places: Vec<u32>,
    literals: Vec<u32>,
    reasons: Vec<u32>,
    starts: Vec<u32>,
    done: usize,
    /// Literals that going back has dropped. Only the order of decisions depends on them.
    dropped: Vec<u32>,
}

impl Model for Trail {
    ghost use Rattle.unit_propagation.specs.Trails.{Way, way, IsKept};

    ghost Value = { Way };

    ghost view = { λ t. way t.places.items t.literals.items t.reasons.items t.starts.items t.done };

    ghost invariant = { λ t. IsKept t.holds.items t.places.items t.literals.items t.reasons.items t.starts.items t.done };
}

/// The place of a variable.
#[inline]
fn place_of(places: &[u32], var: usize) -> u32
    requires { var < length places.now }
    ensures { result ≡ slice_index places.now var }
{
    places[var]
}

/// The literals from a place on.
fn behind(literals: &[u32], start: usize) -> &[u32]
    requires { start ≤ length literals.now }
    ensures { result.now ≡ drop start literals.now }
{
    &literals[start..]
}

/// Appends these literals, as long as there is memory.
fn keep(dropped: &mut Vec<u32>, literals: &[u32]) {
    match dropped.extend_from_slice(literals) {
        Ok(()) | Err(_) => {}
    }
}

/// Takes the marks of these literals away.
fn unmark(holds: &mut Vec<bool>, literals: &[u32])
    requires { (p : ℕ) → p < length literals.now → slice_index literals.now p < length holds.old.items }
    ensures long { length holds.new.items ≡ length holds.old.items }
    ensures marks { (w : ℕ) → slice_index_or holds.new.items w false
        ≡ (slice_index_or holds.old.items w false && not (has literals.now w)) }
{
    for literal in literals {
        holds[*literal as usize] = false;
    }
}

/// Appends to both, or leaves both as they are.
#[inline]
fn push_both(
    literals: &mut Vec<u32>,
    reasons: &mut Vec<u32>,
    literal: u32,
    reason: u32,
) -> Result<usize, NoMemory>
    ensures place { IfOk result (λ p. p ≡ length literals.old.items) }
    ensures few { IfOk result (λ p. p + 1 < 2 ^ 32) }
    ensures literals { OnOk result (literals.new.items ≡ literals.old.items ++ literal ∷ []) }
    ensures reasons { OnOk result (reasons.new.items ≡ reasons.old.items ++ reason ∷ []) }
    ensures literals_err { OnErr result (literals.new.items ≡ literals.old.items) }
    ensures reasons_err { OnErr result (reasons.new.items ≡ reasons.old.items) }
{
    let before = literals.len();
    if before >= u32::MAX as usize {
        return Err(NoMemory);
    }
    literals.push(literal)?;
    if reasons.push(reason).is_err() {
        literals.truncate(before);
        return Err(NoMemory);
    }
    Ok(before)
}

impl Trail {
    ghost use Rattle.unit_propagation.specs.Trails.{Way};

    /// Nothing is set, of at most 2^31 variables.
    #[tactic(auto, using(crate::proofs::Marks::kept_none))]
    pub fn new(alloc: Global, vars: usize) -> Result<Trail, NoMemory>
        requires { vars ≤ 2 ^ 31 }
        ensures { IfOk result (λ t. t ≡ record { vars = vars; literals = []; reasons = []; starts = []; done = 0 }) }
    {
        Ok(Trail {
            holds: vec![in alloc; false; 2 * vars]?,
            places: vec![in alloc; 0; vars]?,
            literals: Vec::new(alloc),
            reasons: Vec::new(alloc),
            starts: Vec::new(alloc),
            done: 0,
            dropped: Vec::new(alloc),
        })
    }

    /// Whether a literal holds.
    #[inline(always)]
    pub fn holds(&self, literal: u32) -> bool
        requires { literal < 2 * self.now.vars }
        ensures { result ≡ has self.now.literals literal }
    {
        self.holds[literal as usize]
    }

    /// Whether the opposite of a literal holds.
    #[inline(always)]
    #[tactic(auto, using(crate::proofs::Marks::opposite_below))]
    pub fn is_false(&self, literal: u32) -> bool
        requires { literal < 2 * self.now.vars }
        ensures { result ≡ has self.now.literals (opposite literal) }
    {
        self.holds(opposite(literal))
    }

    /// One more literal, with the number of its reason, or 0.
    #[inline]
    fn set(&mut self, literal: u32, number: u32) -> Result<(), NoMemory>
        requires below { literal < 2 * self.old.vars }
        requires free { has self.old.literals literal ≡ false }
        requires open { has self.old.literals (opposite literal) ≡ false }
        ensures ok { OnOk result
            (self.new ≡ record {
              vars = self.old.vars;
              literals = self.old.literals ++ literal ∷ [];
              reasons = self.old.reasons ++ reason_of number ∷ [];
              starts = self.old.starts;
              done = self.old.done;
            }) }
    {
        let place = push_both(&mut self.literals, &mut self.reasons, literal, number)?;
        self.holds[literal as usize] = true;
        self.places[(literal / 2) as usize] = place as u32;
        Ok(())
    }

    /// One more literal, which a clause gave.
    #[inline]
    pub fn assign(&mut self, literal: u32, clause: u32) -> Result<(), NoMemory>
        requires below { literal < 2 * self.old.vars }
        requires few { clause + 1 < 2 ^ 32 }
        requires free { has self.old.literals literal ≡ false }
        requires open { has self.old.literals (opposite literal) ≡ false }
        ensures ok { OnOk result
            (self.new ≡ record {
              vars = self.old.vars;
              literals = self.old.literals ++ literal ∷ [];
              reasons = self.old.reasons ++ Some clause ∷ [];
              starts = self.old.starts;
              done = self.old.done;
            }) }
    {
        self.set(literal, clause + 1)
    }

    /// The next literal that is to be propagated.
    #[inline]
    pub(crate) fn next(&mut self) -> Option<u32>
        ensures none { result ≡ None → (self.new ≡ self.old) × (self.old.done ≡ length self.old.literals) }
        ensures few { length self.old.literals < 2 ^ 32 }
        ensures some { (w : ℕ) → result ≡ Some w → (self.old.done < length self.old.literals)
            × (w ≡ slice_index self.old.literals self.old.done)
            × (self.new ≡ record {
              vars = self.old.vars;
              literals = self.old.literals;
              reasons = self.old.reasons;
              starts = self.old.starts;
              done = self.old.done + 1;
            }) }
    {
        if self.done == self.literals.len() {
            return None;
        }
        let literal = self.literals[self.done];
        self.done += 1;
        Some(literal)
    }

    /// The number of literals that hold.
    #[inline]
    #[tactic(auto, using(crate::proofs::Marks::apart))]
    pub fn len(&self) -> usize
        ensures count { result ≡ length self.now.literals }
        ensures few { length self.now.literals < 2 ^ 32 }
        ensures apart { IsApart self.now.literals }
    {
        self.literals.len()
    }

    /// The literals that going back has dropped.
    pub fn dropped(&self) -> &[u32] {
        &self.dropped
    }

    /// Forgets the literals that going back has dropped.
    pub fn forget_dropped(&mut self)
        ensures { self.new ≡ self.old }
    {
        self.dropped.clear();
    }

    /// The number of levels.
    #[inline]
    pub fn level(&self) -> usize
        ensures count { result ≡ length self.now.starts }
        ensures rising { Rising self.now.starts (length self.now.literals) }
    {
        self.starts.len()
    }

    /// Where a level begins, of levels that are counted from 0.
    #[inline]
    pub fn start(&self, level: usize) -> usize
        requires { level < length self.now.starts }
        ensures start { result ≡ slice_index self.now.starts level }
    {
        place_of(&self.starts, level) as usize
    }

    /// The literal at a place.
    #[inline]
    pub fn literal(&self, place: usize) -> u32
        requires { place < length self.now.literals }
        ensures { result ≡ slice_index self.now.literals place }
    {
        self.literals[place]
    }

    /// The clause that gave the literal at a place; none gave a decision.
    #[inline]
    pub fn reason(&self, place: usize) -> Option<u32>
        requires { place < length self.now.literals }
        ensures some { (n : ℕ) → result ≡ Some n → reason_at self.now place ≡ Some n }
        ensures few { (n : ℕ) → result ≡ Some n → n + 1 < 2 ^ 32 }
        ensures none { result ≡ None → reason_at self.now place ≡ None }
    {
        let number = self.reasons[place];
        if number == 0 {
            return None;
        }
        Some(number - 1)
    }

    /// Where the opposite of a literal stands.
    #[inline]
    #[tactic(auto, using(crate::proofs::Marks::place_is))]
    pub fn place(&self, literal: u32) -> usize
        requires below { literal < 2 * self.now.vars }
        requires is_false { has self.now.literals (opposite literal) ≡ true }
        ensures within { result < length self.now.literals }
        ensures there { slice_index self.now.literals result ≡ opposite literal }
    {
        place_of(&self.places, (literal / 2) as usize) as usize
    }

    /// Where the opposite of a literal may stand, if it does so ahead of a place.
    #[inline]
    pub fn place_ahead(&self, literal: u32, end: usize) -> Option<usize>
        ensures { (p : ℕ) → result ≡ Some p → (p < length self.now.literals) × (p < end) }
    {
        let var = (literal / 2) as usize;
        if var >= self.places.len() {
            return None;
        }
        let place = self.places[var] as usize;
        if place >= end || place >= self.literals.len() {
            return None;
        }
        Some(place)
    }

    /// The clause that gave the opposite of a literal, where that stands ahead of a place. Only the size of learned clauses depends
    /// on it.
    #[inline]
    pub fn given(&self, literal: u32, end: usize) -> Option<u32> {
        match self.place_ahead(literal, end) {
            Some(place) => self.reason(place),
            None => None,
        }
    }

    /// Goes back to where a level began, of levels that are counted from 0.
    #[tactic(auto, using(crate::proofs::Marks::reasons_back))]
    pub fn back(&mut self, level: usize)
        requires { level < length self.old.starts }
        ensures { self.new ≡ back_to self.old level }
    {
        let start = place_of(&self.starts, level) as usize;
        unmark(&mut self.holds, behind(&self.literals, start));
        keep(&mut self.dropped, behind(&self.literals, start));
        self.literals.truncate(start);
        self.reasons.truncate(start);
        self.starts.truncate(level);
        self.done = start;
    }

    /// A new level, which begins with this literal.
    pub fn decide(&mut self, literal: u32) -> Result<(), NoMemory>
        requires below { literal < 2 * self.old.vars }
        requires free { has self.old.literals literal ≡ false }
        requires unset { has self.old.literals (opposite literal) ≡ false }
        ensures ok { OnOk result
            (self.new ≡ record {
              vars = self.old.vars;
              literals = self.old.literals ++ literal ∷ [];
              reasons = self.old.reasons ++ None ∷ [];
              starts = self.old.starts ++ length self.old.literals ∷ [];
              done = self.old.done;
            }) }
    {
        let place = self.len();
        let _levels = self.level();
        self.set(literal, 0)?;
        self.open_level(place)
    }

    /// A new level, which begins at the last place.
    fn open_level(&mut self, place: usize) -> Result<(), NoMemory>
        requires place { place + 1 ≡ length self.old.literals }
        requires few { place < 2 ^ 32 }
        requires last { (k : ℕ) → k < length self.old.starts → slice_index self.old.starts k < place }
        ensures ok { OnOk result
            (self.new ≡ record {
              vars = self.old.vars;
              literals = self.old.literals;
              reasons = self.old.reasons;
              starts = self.old.starts ++ place ∷ [];
              done = self.old.done;
            }) }
    {
        self.starts.push(place as u32)?;
        Ok(())
    }
}
