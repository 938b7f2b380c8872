//! Laws on wanted entries.

ghost use Rattle.std.specs.Prelude.{◌≡◌, ◌↔◌, ◌⊎◌, ◌++◌, ◌∷◌, [], ℕ, Bool, List};
ghost use Rattle.fs_semantics.specs.FileTree.{Tree};
ghost use Rattle.fs_semantics.specs.Programs.{Program};
ghost use Rattle.fs_semantics.specs.Orders.{Told};
ghost use Rattle.finite_domain.specs.Domains.{Domain, IsDomain};
ghost use Rattle.finite_domain.specs.Shadows.{IsOver};
ghost use Rattle.wanted_entry.specs.declared.wanted.Wanted.{Wanted};
ghost use Rattle.wanted_entry.specs.Entries.{HasWanted, probe_of, Ensures, EndsWithout};

use finite_domain::shadows;

/// A tree has the entry or it hasn't. A graph ensures it exactly where no run ends in a tree without it. Where one does, one from
/// a tree over the domain of the programs and the probe does, in the same order.
pub fn wanted_entries()
    ensures decided { (u : Tree) (w : Wanted) → HasWanted u w ⊎ (HasWanted u w → ⊥) }
    ensures exactly { (es : List Program) (before : ℕ → ℕ → Bool) (w : Wanted)
        → Ensures es (Told before) w ↔ ((t : Tree) (o : List ℕ) → EndsWithout es (Told before) w t o → ⊥) }
    ensures over { (es : List Program) (w : Wanted) (d : Domain) → IsDomain (es ++ probe_of w ∷ []) d
        → (before : ℕ → ℕ → Bool) (t : Tree) (o : List ℕ)
        → EndsWithout es (Told before) w t o → (s : Tree) × IsOver d s × EndsWithout es (Told before) w s o }
{
    shadows();
}
