//! Decisions: the literal to set next is one that is to be tried ahead of the others, else the most active variable with the sign
//! that it had last (`activity`), else the first that is unassigned. Each is tested here, so no clause speaks of activity.

ghost use Rattle.std.specs.Prelude.{◌≡◌, ℕ, ◌*◌, ◌<◌, ◌≤◌, ◌^◌, true, false, None, Some};
ghost use Rattle.unit_propagation.specs.Literals.{opposite, has};
ghost use Rattle.unit_propagation.specs.Trails.{IsFull};

use crate::activity::Activity;
use unit_propagation::Trail;

/// A literal that is unassigned, of the most active variable that the heap has.
fn active_literal(trail: &Trail, vars: usize, activity: &mut Activity) -> Option<u32>
    requires vars { vars ≡ trail.now.vars }
    requires small { vars ≤ 2 ^ 31 }
    ensures { (w : ℕ) → result ≡ Some w → (w < 2 * trail.now.vars) × (has trail.now.literals w ≡ false)
        × (has trail.now.literals (opposite w) ≡ false) }
{
    'active: while let Some(var) = activity.pop() {
        let i = var as usize;
        if i >= vars {
            continue;
        }
        let sign = if activity.phase(var) { 0 } else { 1 };
        let literal = (2 * i + sign) as u32;
        let is_free = is_unset(trail, vars, literal);
        if is_free {
            return Some(literal);
        }
    }
    None
}

/// A literal that is unassigned.
fn free_literal(trail: &Trail, vars: usize) -> Option<u32>
    requires vars { vars ≡ trail.now.vars }
    requires small { vars ≤ 2 ^ 31 }
    ensures some { (w : ℕ) → result ≡ Some w → (w < 2 * trail.now.vars) × (has trail.now.literals w ≡ false)
        × (has trail.now.literals (opposite w) ≡ false) }
    ensures none { result ≡ None → IsFull trail.now }
{
    'vars: for var in 0..vars {
        let literal = (2 * var) as u32;
        let holds = trail.holds(literal);
        if holds {
            continue;
        }
        let is_false = trail.is_false(literal);
        if is_false {
            continue;
        }
        return Some(literal);
    }
    None
}

/// Literals to be tried ahead of the others that are false ahead of all decisions give way.
fn drop_refuted(trail: &Trail, vars: usize, activity: &mut Activity)
    requires vars { vars ≡ trail.now.vars }
    requires small { vars ≤ 2 ^ 31 }
{
    if trail.level() > 0 {
        return;
    }
    'refuted: while let Some(literal) = activity.firsts().last() {
        let literal = *literal;
        let is_false = (literal as usize) < 2 * vars && trail.is_false(literal);
        if !is_false {
            return;
        }
        activity.drop_first();
    }
}

/// Whether this is a literal of one of so many variables, and unassigned.
fn is_unset(trail: &Trail, vars: usize, literal: u32) -> bool
    requires vars { vars ≡ trail.now.vars }
    requires small { vars ≤ 2 ^ 31 }
    ensures { result ≡ true → (literal < 2 * trail.now.vars) × (has trail.now.literals literal ≡ false)
        × (has trail.now.literals (opposite literal) ≡ false) }
{
    if literal as usize >= 2 * vars {
        return false;
    }
    let holds = trail.holds(literal);
    if holds {
        return false;
    }
    let is_false = trail.is_false(literal);
    !is_false
}

/// The literal that is to be tried ahead of the others: of those that are unassigned the first.
fn first_literal(trail: &Trail, vars: usize, activity: &mut Activity) -> Option<u32>
    requires vars { vars ≡ trail.now.vars }
    requires small { vars ≤ 2 ^ 31 }
    ensures { (w : ℕ) → result ≡ Some w → (w < 2 * trail.now.vars) × (has trail.now.literals w ≡ false)
        × (has trail.now.literals (opposite w) ≡ false) }
{
    drop_refuted(trail, vars, activity);
    'first: while let Some(literal) = activity.next_first() {
        let is_free = is_unset(trail, vars, literal);
        if is_free {
            return Some(literal);
        }
        activity.pass_first();
    }
    None
}

/// A literal that is unassigned: the one to be tried first, the heap's, or where it has none the first that there is.
pub fn next_literal(trail: &Trail, vars: usize, activity: &mut Activity) -> Option<u32>
    requires vars { vars ≡ trail.now.vars }
    requires small { vars ≤ 2 ^ 31 }
    ensures some { (w : ℕ) → result ≡ Some w → (w < 2 * trail.now.vars) × (has trail.now.literals w ≡ false)
        × (has trail.now.literals (opposite w) ≡ false) }
    ensures none { result ≡ None → IsFull trail.now }
{
    if let Some(literal) = first_literal(trail, vars, activity) {
        return Some(literal);
    }
    match active_literal(trail, vars, activity) {
        Some(literal) => Some(literal),
        None => free_literal(trail, vars),
    }
}
