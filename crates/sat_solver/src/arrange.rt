//! The second watch of a learned clause: of its literals but the first the one that became false last, as in MiniSat. The search jumps
//! back to its level (the assertion level), and when it goes back further this literal is unassigned no later than the others are, as
//! a watched one has to be.

ghost use Rattle.std.specs.Prelude.{◌≡◌, ℕ, ◌-◌, ◌*◌, ◌<◌, ◌≤◌, true, false, length, take, slice_index};
ghost use Rattle.unit_propagation.specs.Literals.{opposite, has};
ghost use Rattle.unit_propagation.specs.Stored.{exchanged};
ghost use Rattle.unit_propagation.specs.Trails.{IsApart};
ghost use Rattle.sat_solver.specs.Arranging.{IsBehind, IsArranged};

use unit_propagation::Trail;

/// The literal at a place.
#[inline]
fn literal_at(literals: &Vec<u32>, i: usize) -> u32
    requires { i < length literals.now.items }
    ensures { result ≡ slice_index literals.now.items i }
{
    literals[i]
}

/// Exchanges two literals.
#[inline]
fn exchange(literals: &mut Vec<u32>, j: usize, k: usize)
    requires first { j < length literals.old.items }
    requires second { k < length literals.old.items }
    ensures { literals.new.items ≡ exchanged literals.old.items j k }
{
    let literal = literals[j];
    literals[j] = literals[k];
    literals[k] = literal;
}

/// Whether a literal became false behind another.
#[inline]
fn is_later(trail: &Trail, literal: u32, other: u32) -> bool
    requires apart { IsApart trail.now.literals }
    requires below { literal < 2 * trail.now.vars }
    requires other_below { other < 2 * trail.now.vars }
    requires is_false { has trail.now.literals (opposite literal) ≡ true }
    requires other_false { has trail.now.literals (opposite other) ≡ true }
    ensures yes { result ≡ true → IsBehind trail.now.literals literal other }
    ensures not { result ≡ false → IsBehind trail.now.literals other literal }
{
    let place = trail.place(literal);
    let first = trail.place(other);
    place > first
}

/// The place of the literal that became false last, of those from place 1 on.
fn last_place(literals: &Vec<u32>, trail: &Trail) -> usize
    requires apart { IsApart trail.now.literals }
    requires two { 2 ≤ length literals.now.items }
    requires below { (x : ℕ) → has literals.now.items x ≡ true → x < 2 * trail.now.vars }
    requires are_false { (x : ℕ) → has literals.now.items x ≡ true → has trail.now.literals (opposite x) ≡ true }
    ensures low { 1 ≤ result }
    ensures within { result < length literals.now.items }
    ensures behind { (i : ℕ) → 1 ≤ i → i < length literals.now.items
        → IsBehind trail.now.literals (slice_index literals.now.items result) (slice_index literals.now.items i) }
{
    let mut last = 1;
    'rest: for k in 2..literals.len() {
        let literal = literal_at(literals, k);
        let so_far = literal_at(literals, last);
        let later = is_later(trail, literal, so_far);
        if !later {
            continue;
        }
        last = k;
    }
    last
}

/// Puts the literal that became false last to place 1, of those from there on.
#[tactic(auto, using(crate::proofs::Arranges::arranged_short))]
pub(crate) fn put_last_second(literals: &mut Vec<u32>, trail: &Trail)
    requires apart { IsApart trail.now.literals }
    requires some { 0 < length literals.old.items }
    requires below { (x : ℕ) → has literals.old.items x ≡ true → x < 2 * trail.now.vars }
    requires are_false { (x : ℕ) → has literals.old.items x ≡ true → has trail.now.literals (opposite x) ≡ true }
    ensures { IsArranged trail.now.literals literals.old.items literals.new.items (length literals.old.items) }
{
    if literals.len() < 2 {
        return;
    }
    let last = last_place(literals, trail);
    exchange(literals, 1, last);
}

/// Whether the level ahead of one begins behind a place.
#[inline]
#[tactic(auto, using(crate::proofs::Arranges::no_later))]
fn is_ahead(trail: &Trail, level: usize, place: usize) -> bool
    requires { level ≤ length trail.now.starts }
    ensures some { result ≡ true → 0 < level }
    ensures behind { result ≡ true → place < slice_index trail.now.starts (level - 1) }
    ensures none { result ≡ false → (j : ℕ) → j < level → slice_index trail.now.starts j ≤ place }
{
    if level == 0 {
        return false;
    }
    let _levels = trail.level();
    trail.start(level - 1) > place
}

/// The lowest level at whose end a literal is false.
pub(crate) fn level_of(trail: &Trail, literal: u32) -> usize
    requires apart { IsApart trail.now.literals }
    requires below { literal < 2 * trail.now.vars }
    requires is_false { has trail.now.literals (opposite literal) ≡ true }
    ensures within { result ≤ length trail.now.starts }
    ensures before { (j : ℕ) → j < result → has (take (slice_index trail.now.starts j) trail.now.literals) (opposite literal) ≡ false }
    ensures there { result < length trail.now.starts
        → has (take (slice_index trail.now.starts result) trail.now.literals) (opposite literal) ≡ true }
{
    let place = trail.place(literal);
    let mut level = trail.level();
    'levels: while is_ahead(trail, level, place) {
        level -= 1;
    }
    level
}
