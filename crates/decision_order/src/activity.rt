//! Decisions: first the variable that was in most of the latest conflicts (VSIDS: Chaff, Moskewicz and others 2001), with the sign it
//! had last (phase saving: Pipatsrisawat and Darwiche 2007), at first the negative one. As in MiniSat activities don't decay: what a
//! conflict adds grows instead, and all are divided once that is too great; and the variables are a binary heap, the most active on
//! top. The factors were measured (bench/README.md): to grow by a sixty-fourth took a third less than by a sixteenth on random
//! formulas and on pigeons; to raise only what took part in the conflict, not what is met when the clause is minimized, took a tenth
//! less.
//!
//! Literals may be given that are decided first, in their order: of the question whether two of many programs differ, those of one
//! pair after the other. They are no assumptions: one that is refuted gives way. Activity then ages four times as fast, since with
//! each of them the search turns to other variables.

ghost use Rattle.std.specs.Prelude.{◌≡◌, ℕ, ◌+◌, ◌<◌, ◌≤◌, ◌^◌, true, length, Some};

use cnf::Lit;
use rh_base::NoMemory;
use std::alloc::Global;

/// What a conflict adds to the activity of a variable at first.
const FIRST_BUMP: u64 = 1 << 10;

/// With each conflict what one adds grows by one part in so many.
const AGING: u64 = 64;

/// The same where literals are to be tried first: with each of them the search turns to other variables.
const FAST_AGING: u64 = 16;

/// How many times as much the variables near a literal that is to be tried are raised.
const FOCUS: u64 = 32;

/// Past this bump all activities are divided.
const GREATEST_BUMP: u64 = 1 << 50;

/// What they are divided by.
const RESCALE: u64 = 1 << 40;

/// The index of a literal, if it is one of so many variables.
fn index_within(lit: Lit, vars: usize) -> Option<u32>
    requires { vars ≤ 2 ^ 31 }
{
    if lit.var == 0 || lit.var > vars as u64 {
        return None;
    }
    let sign = if lit.positive { 0 } else { 1 };
    Some((2 * (lit.var - 1) + sign) as u32)
}

/// The variables as a heap, the most active on top, the place of each in it, where it has one, and the value that each had last. Only
/// where the search looks first depends on it: each access is tested, and what it gives is tested again.
#[derive(Drop)]
pub struct Activity {
    values: Vec<u64>,
    phases: Vec<bool>,
    heap: Vec<u32>,
    places: Vec<Option<u32>>,
    bump: u64,
    firsts: Vec<u32>,
    passed: usize,
    led: bool,
}

impl Activity {
    /// All variables are unassigned, and were never in a conflict; these literals are to be tried ahead of all others, in their order.
    pub fn new(alloc: Global, vars: usize, firsts: &[Lit]) -> Result<Activity, NoMemory>
        requires { vars ≤ 2 ^ 31 }
    {
        let mut activity = Activity {
            values: vec![in alloc; 0; vars]?,
            phases: vec![in alloc; false; vars]?,
            heap: Vec::new(alloc),
            places: vec![in alloc; None; vars]?,
            bump: FIRST_BUMP,
            firsts: Vec::new(alloc),
            passed: 0,
            led: firsts.len() > 0,
        };
        'firsts: for i in 0..firsts.len() {
            let Some(literal) = index_within(firsts[firsts.len() - 1 - i], vars) else {
                continue;
            };
            activity.firsts.push(literal)?;
        }
        'fill: for var in 0..vars {
            activity.insert(var as u32)?;
        }
        Ok(activity)
    }

    /// The literals that are to be tried ahead of all others, the last one first.
    pub(crate) fn firsts(&self) -> &[u32]
        ensures { result.now ≡ self.now.firsts.items }
    {
        &self.firsts
    }

    /// Of those that are to be tried the first that wasn't found set since `look_again`.
    pub(crate) fn next_first(&self) -> Option<u32>
        ensures { (w : ℕ) → result ≡ Some w → self.now.passed < length self.now.firsts.items }
    {
        let long = self.firsts.len();
        if self.passed < long {
            return Some(self.firsts[long - 1 - self.passed]);
        }
        None
    }

    /// That one is set.
    pub(crate) fn pass_first(&mut self)
        requires { self.old.passed < length self.old.firsts.items }
        ensures passed { self.new.passed ≡ self.old.passed + 1 }
        ensures firsts { self.new.firsts ≡ self.old.firsts }
    {
        self.passed += 1;
    }

    /// Literals were set free, so that each may be one to be tried.
    pub fn look_again(&mut self) {
        self.passed = 0;
    }

    /// The last of them needn't be tried any more. Where another one is to be tried now, the search looks first at what is near it:
    /// at the variables between it and the one before, which are those of its gates.
    pub(crate) fn drop_first(&mut self)
        ensures { 0 < length self.old.firsts.items → length self.new.firsts.items < length self.old.firsts.items }
    {
        let Some(literal) = self.firsts.pop() else {
            return;
        };
        self.passed = 0;
        let long = self.firsts.len();
        if long == 0 {
            return;
        }
        let next = self.firsts[long - 1];
        self.focus(literal / 2, next / 2);
    }

    /// Raises the variables behind the first of these up to the second.
    fn focus(&mut self, behind: u32, up_to: u32)
        ensures { self.new.firsts ≡ self.old.firsts }
    {
        'focus: for var in behind..up_to {
            self.raise_by(var, FOCUS);
        }
    }

    /// Raises a variable by so many times what a conflict adds.
    fn raise_by(&mut self, var: u32, times: u64)
        ensures { self.new.firsts ≡ self.old.firsts }
    {
        let i = var as usize;
        if i >= self.values.len() {
            return;
        }
        self.values[i] = self.values[i].saturating_add(self.bump.saturating_mul(times));
        let Some(place) = self.place(var) else {
            return;
        };
        self.rise(place as usize, var);
    }

    /// The activity of a variable.
    fn value(&self, var: u32) -> u64 {
        let i = var as usize;
        if i < self.values.len() {
            return self.values[i];
        }
        0
    }

    /// The value that a variable had last, at first false.
    pub(crate) fn phase(&self, var: u32) -> bool {
        let i = var as usize;
        if i < self.phases.len() {
            return self.phases[i];
        }
        false
    }

    /// The variable at a place of the heap.
    fn at(&self, place: usize) -> u32 {
        if place < self.heap.len() {
            return self.heap[place];
        }
        0
    }

    /// The place of a variable, where it stands in the heap.
    fn place(&self, var: u32) -> Option<u32> {
        let i = var as usize;
        if i < self.places.len() {
            return self.places[i];
        }
        None
    }

    /// Writes down where a variable stands, if it does.
    fn set_place(&mut self, var: u32, place: Option<u32>)
        ensures heap { self.new.heap ≡ self.old.heap }
        ensures firsts { self.new.firsts ≡ self.old.firsts }
    {
        let i = var as usize;
        if i >= self.places.len() {
            return;
        }
        self.places[i] = place;
    }

    fn put(&mut self, place: usize, var: u32)
        ensures long { length self.new.heap.items ≡ length self.old.heap.items }
        ensures firsts { self.new.firsts ≡ self.old.firsts }
    {
        if place >= self.heap.len() || place >= u32::MAX as usize {
            return;
        }
        self.heap[place] = var;
        self.set_place(var, Some(place as u32));
    }

    /// Whether what stands above a place is less active.
    fn is_above(&self, place: usize, mine: u64) -> bool
        ensures { result ≡ true → 0 < place }
    {
        if place == 0 {
            return false;
        }
        self.value(self.at((place - 1) / 2)) < mine
    }

    /// Moves a variable up to where it belongs.
    fn rise(&mut self, from: usize, var: u32)
        ensures long { length self.new.heap.items ≡ length self.old.heap.items }
        ensures firsts { self.new.firsts ≡ self.old.firsts }
    {
        let mut place = from;
        let mine = self.value(var);
        'rise: while self.is_above(place, mine) {
            let above = self.at((place - 1) / 2);
            self.put(place, above);
            place = (place - 1) / 2;
        }
        self.put(place, var);
    }

    /// The more active child of a place, if it is more active than this.
    fn child(&self, place: usize, mine: u64) -> Option<usize>
        requires { place < length self.now.heap.items }
        ensures { (k : ℕ) → result ≡ Some k → (place < k) × (k < length self.now.heap.items) }
    {
        let long = self.heap.len();
        if place >= u32::MAX as usize {
            return None;
        }
        let left = 2 * place + 1;
        if left >= long {
            return None;
        }
        let first = self.value(self.at(left));
        let second = self.value(self.at(left + 1));
        if left + 1 < long && second > first {
            if second > mine {
                return Some(left + 1);
            }
            return None;
        }
        if first > mine {
            return Some(left);
        }
        None
    }

    /// Moves a variable down to where it belongs.
    fn sink(&mut self, var: u32)
        requires { 0 < length self.old.heap.items }
        ensures { length self.new.heap.items ≡ length self.old.heap.items }
    {
        let mut place = 0;
        let mine = self.value(var);
        'sink: while let Some(child) = self.child(place, mine) {
            let below = self.at(child);
            self.put(place, below);
            place = child;
        }
        self.put(place, var);
    }

    /// The most active variable, which is taken out.
    pub(crate) fn pop(&mut self) -> Option<u32>
        ensures { (v : ℕ) → result ≡ Some v → length self.new.heap.items < length self.old.heap.items }
    {
        let Some(last) = self.heap.pop() else {
            return None;
        };
        if self.heap.len() == 0 {
            self.set_place(last, None);
            return Some(last);
        }
        let top = self.at(0);
        self.set_place(top, None);
        self.sink(last);
        Some(top)
    }

    /// A variable may be chosen again.
    fn insert(&mut self, var: u32) -> Result<(), NoMemory> {
        if self.place(var).is_some() {
            return Ok(());
        }
        let last = self.heap.len();
        self.heap.push(var)?;
        self.rise(last, var);
        Ok(())
    }

    /// Literals that aren't set any more.
    pub fn release(&mut self, literals: &[u32]) -> Result<(), NoMemory> {
        'release: for literal in literals {
            let literal = *literal;
            let var = (literal / 2) as usize;
            if var >= self.phases.len() {
                continue;
            }
            self.phases[var] = literal % 2 == 0;
            self.insert(literal / 2)?;
        }
        Ok(())
    }

    /// The variables of these literals took part in a conflict.
    pub fn raise(&mut self, literals: &[u32]) {
        'raise: for literal in literals {
            self.raise_by(*literal / 2, 1);
        }
        self.age();
    }

    /// What is raised later counts for more.
    fn age(&mut self) {
        let more = if self.led {
            self.bump / FAST_AGING
        } else {
            self.bump / AGING
        };
        self.bump = self.bump.saturating_add(more);
        if self.bump < GREATEST_BUMP {
            return;
        }
        self.bump = FIRST_BUMP;
        'age: for var in 0..self.values.len() {
            self.values[var] = self.values[var] / RESCALE;
        }
    }
}
