//! Finitely many paths and contents are enough to tell how programs end. The definitions are in `specs/`; each function
//! here does nothing, and its contract is a law that callers may use.
#![tactic(auto)]

ghost use Rattle.std.specs.Prelude.{◌≡◌, ℕ, Bool, IsTrue, List, None, slice_index_or};
ghost use Rattle.fs_semantics.specs.FileTree.{Tree, IsTree};
ghost use Rattle.fs_semantics.specs.Programs.{Program, Id, run};
ghost use Rattle.fs_semantics.specs.Orders.{outcome, IsDeterministic, IsIdempotent, Succeeds, IsCounterexample, IsSecondRunCounterexample};
ghost use Rattle.finite_domain.specs.Domains.{Domain, IsDomain};
ghost use Rattle.finite_domain.specs.Shadows.{IsOver, IsShadow, EndAsShadows, StandsFor};
ghost use Rattle.finite_domain.specs.Layouts.{Layout, domain_of, IsLayout};
ghost use Rattle.finite_domain.specs.Questions.{IsDeterministicOver, IsIdempotentOver, FailsOver};

/// Every tree has a shadow over the domain. From a tree and its shadow each program ends in Error both times, or in a tree
/// and a shadow of it by the same map; paths that aren't named stay as they were. So orders tell the same from both.
pub fn shadows()
    ensures exist { (es : List Program) (d : Domain) → IsDomain es d → (t : Tree) → IsTree t
        → (m : List ℕ → List ℕ) × (s : Tree) × IsTree s × IsShadow es d m t s }
    ensures run { (es : List Program) (d : Domain) → IsDomain es d → (m : List ℕ → List ℕ) (t s : Tree) → IsShadow es d m t s
        → (i : ℕ) → EndAsShadows es d m t s (run (slice_index_or es i Id) t) (run (slice_index_or es i Id) s) }
    ensures tell { (es : List Program) (d : Domain) → IsDomain es d → (m : List ℕ → List ℕ) (t s : Tree) → IsShadow es d m t s
        → StandsFor es s t }
{}

/// What holds from all trees over the domain holds from all trees.
pub fn trees_over_the_domain()
    ensures deterministic { (es : List Program) (d : Domain) → IsDomain es d → (before : ℕ → ℕ → Bool)
        → IsDeterministicOver d es (λ a b. IsTrue (before a b)) → IsDeterministic es (λ a b. IsTrue (before a b)) }
    ensures idempotent { (es : List Program) (d : Domain) → IsDomain es d → (before : ℕ → ℕ → Bool)
        → IsIdempotentOver d es (λ a b. IsTrue (before a b)) → IsIdempotent es (λ a b. IsTrue (before a b)) }
    ensures fails { (es : List Program) (d : Domain) → IsDomain es d → (o : List ℕ) → FailsOver d es o
        → (t : Tree) → IsTree t → outcome es o t ≡ None }
{}

/// Where a counterexample starts from some tree, one starts from a tree over the domain; so too for a second run and for
/// an order that ends in a tree.
pub fn witnesses_over_the_domain()
    ensures orders { (es : List Program) (d : Domain) → IsDomain es d → (before : ℕ → ℕ → Bool) (t : Tree) (o p : List ℕ)
        → IsCounterexample es (λ a b. IsTrue (before a b)) t o p
        → (s : Tree) × IsOver d s × IsCounterexample es (λ a b. IsTrue (before a b)) s o p }
    ensures second { (es : List Program) (d : Domain) → IsDomain es d → (before : ℕ → ℕ → Bool) (t : Tree) (o : List ℕ)
        → IsSecondRunCounterexample es (λ a b. IsTrue (before a b)) t o
        → (s : Tree) × IsOver d s × IsSecondRunCounterexample es (λ a b. IsTrue (before a b)) s o }
    ensures success { (es : List Program) (d : Domain) → IsDomain es d → (before : ℕ → ℕ → Bool)
        → Succeeds es (λ a b. IsTrue (before a b)) → (over : Succeeds es (λ a b. IsTrue (before a b))) × IsOver d over.tree }
{}

/// Every list of programs has a domain, and a layout of it is one.
pub fn domains()
    ensures exist { (es : List Program) → (d : Domain) × IsDomain es d }
    ensures laid_out { (es : List Program) (l : Layout) → IsLayout es l → IsDomain es (domain_of l) }
{}
