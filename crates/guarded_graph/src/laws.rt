//! What pruning makes of the guard.

ghost use Rattle.std.specs.Prelude.{ℕ, Bool, List, length};
ghost use Rattle.fs_semantics.specs.FileTree.{Path};
ghost use Rattle.fs_semantics.specs.Programs.{Program};
ghost use Rattle.fs_semantics.specs.Orders.{Told};
ghost use Rattle.commute_prune.specs.Keeping.{Keeps};
ghost use Rattle.given_hosts.specs.Guard.{guarded, GoesFirst};

/// What pruning keeps of the graph with the guard in front is what it keeps of the graph.
pub fn guard_is_pruned()
    ensures { (given : List Path) (es : List Program) (before after : ℕ → ℕ → Bool) → GoesFirst (length es) before after
        → (kept : List ℕ) → Keeps (guarded given es) (Told after) kept → Keeps es (Told before) kept }
{}
