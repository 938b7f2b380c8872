//! Questions asked of the file trees in which given folders stand. The definitions are in `specs/`; each function here does
//! nothing, and its contract is a law that callers may use.
#![tactic(auto)]

ghost use Rattle.std.specs.Prelude.{◌≡◌, ◌↔◌, ◌⊎◌, ℕ, ◌<◌, ◌+◌, Bool, IsTrue, List, [], ◌∷◌, length, None};
ghost use Rattle.std.specs.List.{AllByRecursion};
ghost use Rattle.fs_semantics.specs.FileTree.{Path, IsSegment, Tree};
ghost use Rattle.fs_semantics.specs.Programs.{Program};
ghost use Rattle.fs_semantics.specs.Changes.{IsProper};
ghost use Rattle.fs_semantics.specs.Orders.{Told, IsLinearExtension, IsExchange, outcome, IsDeterministic, IsIdempotent, Succeeds, IsCounterexample, IsSecondRunCounterexample};
ghost use Rattle.given_hosts.specs.Given.{Stand, IsDeterministicFrom, IsIdempotentFrom, SucceedsFrom, IsCounterexampleFrom, IsSecondRunCounterexampleFrom, EndsWithFrom, AreEqualFrom};
ghost use Rattle.given_hosts.specs.Guard.{guarded, guard_before, GoesFirst, after_first, KeepsGiven};

/// Where no folder is given, each of these says what is said of every file tree.
pub fn none_given()
    ensures deterministic { (es : List Program) (before : ℕ → ℕ → Bool) → IsDeterministicFrom [] es (Told before)
        ↔ IsDeterministic es (Told before) }
    ensures idempotent { (es : List Program) (before : ℕ → ℕ → Bool) → IsIdempotentFrom [] es (Told before)
        ↔ IsIdempotent es (Told before) }
    ensures succeeds { (es : List Program) (before : ℕ → ℕ → Bool) → SucceedsFrom [] es (Told before) ↔ Succeeds es (Told before) }
    ensures counterexample { (es : List Program) (before : ℕ → ℕ → Bool) (t : Tree) (o p : List ℕ)
        → IsCounterexampleFrom [] es (Told before) t o p ↔ IsCounterexample es (Told before) t o p }
    ensures second_run { (es : List Program) (before : ℕ → ℕ → Bool) (t : Tree) (o : List ℕ)
        → IsSecondRunCounterexampleFrom [] es (Told before) t o ↔ IsSecondRunCounterexample es (Told before) t o }
{}

/// The guard ends in the tree that it is run on where the given folders stand, and in Error where one doesn't. It goes first in each
/// allowed order, and behind it stands an allowed order of the others; so an order ends as without it where they stand.
pub fn guards()
    ensures orders { (n : ℕ) (before after : ℕ → ℕ → Bool) → GoesFirst n before after → (o : List ℕ)
        → IsLinearExtension (n + 1) (Told after) o ↔ ((p : List ℕ) × (o ≡ n ∷ p) × IsLinearExtension n (Told before) p) }
    ensures stand { (given : List Path) (es : List Program) (o : List ℕ) (t : Tree) → AllByRecursion (λ k. k < length es) o
        → Stand given t → outcome (guarded given es) (length es ∷ o) t ≡ outcome es o t }
    ensures missing { (given : List Path) (es : List Program) (o : List ℕ) (t : Tree)
        → (Stand given t → ⊥) → outcome (guarded given es) (length es ∷ o) t ≡ None }
    ensures proper { (given : List Path) (es : List Program) → AllByRecursion (AllByRecursion IsSegment) given → AllByRecursion IsProper es
        → AllByRecursion IsProper (guarded given es) }
    ensures goes { (n : ℕ) (before : ℕ → ℕ → Bool) → GoesFirst n before (guard_before n before) }
{}

/// What is asked from the trees in which given folders stand is what is asked from every tree of the graph with the guard in
/// front. Of second runs only the one way: the second begins in what the first left, from which the guard may end in Error.
pub fn guarded_graphs()
    ensures deterministic { (given : List Path) (es : List Program) (before after : ℕ → ℕ → Bool) → GoesFirst (length es) before after
        → IsDeterministic (guarded given es) (Told after) ↔ IsDeterministicFrom given es (Told before) }
    ensures idempotent { (given : List Path) (es : List Program) (before after : ℕ → ℕ → Bool) → GoesFirst (length es) before after
        → IsIdempotent (guarded given es) (Told after) → IsIdempotentFrom given es (Told before) }
    ensures succeeds { (given : List Path) (es : List Program) (before after : ℕ → ℕ → Bool) → GoesFirst (length es) before after
        → Succeeds (guarded given es) (Told after) ↔ SucceedsFrom given es (Told before) }
    ensures counterexample { (given : List Path) (es : List Program) (before after : ℕ → ℕ → Bool) → GoesFirst (length es) before after
        → (t : Tree) (o p : List ℕ) → IsCounterexample (guarded given es) (Told after) t (length es ∷ o) (length es ∷ p)
        ↔ IsCounterexampleFrom given es (Told before) t o p }
    ensures exchange { (n : ℕ) (before after : ℕ → ℕ → Bool) → GoesFirst n before after → (o p : List ℕ)
        → IsLinearExtension n (Told before) o → IsExchange (Told after) (n ∷ o) (n ∷ p) ↔ IsExchange (Told before) o p }
    ensures ends { (given : List Path) (es : List Program) (before after : ℕ → ℕ → Bool) → GoesFirst (length es) before after
        → (passes : Tree → Bool) → EndsWithFrom [] (guarded given es) (Told after) passes ↔ EndsWithFrom given es (Told before) passes }
    ensures equal { (given : List Path) (es fs : List Program) (before after other guarded_other : ℕ → ℕ → Bool)
        → GoesFirst (length es) before after → GoesFirst (length fs) other guarded_other
        → AreEqualFrom [] (guarded given es) (Told after) (guarded given fs) (Told guarded_other)
        ↔ AreEqualFrom given es (Told before) fs (Told other) }
{}

/// Second runs of a graph that is deterministic from the trees in which given folders stand. A second run in an order of its own
/// changes something exactly where one in the order of the first does. Where no program removes a given folder, one order stands for
/// all; else it does so exactly where all orders end alike behind a first run.
pub fn second_runs()
    ensures exact { (given : List Path) (es : List Program) (before : ℕ → ℕ → Bool) → IsDeterministicFrom given es (Told before)
        → IsIdempotentFrom given es (Told before)
        ↔ ((t : Tree) (o : List ℕ) → IsSecondRunCounterexampleFrom given es (Told before) t o → ⊥) }
    ensures kept { (given : List Path) (es : List Program) (before : ℕ → ℕ → Bool) → IsDeterministicFrom given es (Told before)
        → AllByRecursion IsProper es → AllByRecursion (KeepsGiven given) es → (first : List ℕ)
        → IsLinearExtension (length es) (Told before) first
        → ((t : Tree) → IsSecondRunCounterexampleFrom given es (Told before) t first → ⊥) → IsIdempotentFrom given es (Told before) }
    ensures after_first { (given : List Path) (es : List Program) (before : ℕ → ℕ → Bool) → IsDeterministicFrom given es (Told before)
        → (first : List ℕ) → IsLinearExtension (length es) (Told before) first → (after : ℕ → ℕ → Bool) → GoesFirst (length es) before after
        → IsIdempotentFrom given es (Told before) ↔ (IsDeterministic (after_first given es first) (Told after)
        × ((t : Tree) → IsSecondRunCounterexampleFrom given es (Told before) t first → ⊥)) }
    ensures shown { (given : List Path) (es : List Program) (before : ℕ → ℕ → Bool) → IsDeterministicFrom given es (Told before)
        → (first : List ℕ) → IsLinearExtension (length es) (Told before) first → (after : ℕ → ℕ → Bool) → GoesFirst (length es) before after
        → (t : Tree) (o p : List ℕ) → IsCounterexample (after_first given es first) (Told after) t (length es ∷ o) (length es ∷ p)
        → IsSecondRunCounterexampleFrom given es (Told before) t o ⊎ IsSecondRunCounterexampleFrom given es (Told before) t p }
{}
