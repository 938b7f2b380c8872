//! Laws on orders of programs.

ghost use Rattle.std.specs.Prelude.{◌≡◌, ◌↔◌, ◌<◌, ◌++◌, ℕ, Bool, List, length, Some, None};
ghost use Rattle.std.specs.List.{AllByRecursion};
ghost use Rattle.fs_semantics.specs.FileTree.{Tree, IsTree};
ghost use Rattle.fs_semantics.specs.Programs.{Program, and_then};
ghost use Rattle.fs_semantics.specs.Changes.{IsProper, AllCommute, Settles};
ghost use Rattle.fs_semantics.specs.Orders.{Told, times, up_from, IsLinearExtension, IsExchange, outcome, IsDeterministic, IsIdempotent, Succeeds, IsCounterexample, IsSecondRunCounterexample, NeighboursAgree, FreeCommute};
ghost use Rattle.fs_semantics.specs.PlainFiles.{Unordered};

/// The programs in one list of numbers and then in another are those in the joined list. Where any two of some proper
/// programs commute, lists that have each number equally often end alike; where each settles too, a second run of numbers
/// that the first one had changes nothing.
pub fn commuting_programs()
    ensures joined { (es : List Program) (o p : List ℕ) (t : Tree) → outcome es (o ++ p) t ≡ and_then (outcome es o t) (outcome es p) }
    ensures alike { (es : List Program) → AllByRecursion IsProper es → AllCommute es → (o p : List ℕ) → ((k : ℕ) → times k o ≡ times k p)
        → (t : Tree) → IsTree t → outcome es o t ≡ outcome es p t }
    ensures second { (es : List Program) → AllByRecursion IsProper es → AllCommute es → AllByRecursion Settles es → (o p : List ℕ)
        → ((k : ℕ) → 0 < times k p → 0 < times k o) → (t u : Tree) → IsTree t → outcome es o t ≡ Some u → outcome es p u ≡ Some u }
{}

/// Two allowed orders have each number equally often, whatever comes before what. With no order between the programs the
/// list of their numbers is allowed.
pub fn linear_extensions()
    ensures alike { (n : ℕ) (before : ℕ → ℕ → Bool) (o p : List ℕ) → IsLinearExtension n (Told before) o
        → IsLinearExtension n (Told before) p
        → (k : ℕ) → times k o ≡ times k p }
    ensures unordered { (n : ℕ) → IsLinearExtension n Unordered (up_from 0 n) }
{}

/// Where allowed orders that differ by one exchange of free neighbours end alike, all do; so too where the programs are
/// proper and free ones commute. Where two allowed orders end differently, two that differ by one exchange do.
pub fn neighbours()
    ensures enough { (es : List Program) (before : ℕ → ℕ → Bool) → NeighboursAgree es (Told before) → IsDeterministic es (Told before) }
    ensures free { (es : List Program) (before : ℕ → ℕ → Bool) → AllByRecursion IsProper es
        → FreeCommute es (Told before) → IsDeterministic es (Told before) }
    ensures exchange { (es : List Program) (before : ℕ → ℕ → Bool) (t : Tree) (o p : List ℕ) → IsCounterexample es (Told before) t o p
        → (q : List ℕ) × (r : List ℕ) × IsExchange (Told before) q r × IsCounterexample es (Told before) t q r }
{}

/// Programs are deterministic exactly where there is no counterexample. Proper ones that are deterministic are idempotent
/// exactly where no second run in the order of the first changes anything. Programs don't succeed exactly where every
/// allowed order ends in Error, from every tree.
pub fn counterexamples()
    ensures deterministic { (es : List Program) (before : ℕ → ℕ → Bool)
        → IsDeterministic es (Told before) ↔ ((t : Tree) (o p : List ℕ) → IsCounterexample es (Told before) t o p → ⊥) }
    ensures idempotent { (es : List Program) (before : ℕ → ℕ → Bool) → AllByRecursion IsProper es → IsDeterministic es (Told before)
        → IsIdempotent es (Told before) ↔ ((t : Tree) (o : List ℕ) → IsSecondRunCounterexample es (Told before) t o → ⊥) }
    ensures fails { (es : List Program) (before : ℕ → ℕ → Bool)
        → (Succeeds es (Told before) → ⊥)
        ↔ ((t : Tree) → IsTree t → (o : List ℕ) → IsLinearExtension (length es) (Told before) o
        → outcome es o t ≡ None) }
{}
