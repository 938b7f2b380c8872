//! What can be decided by trying finitely many cases. There is no definition here; the function does nothing, and its
//! contract is a law that callers may use.
#![tactic(auto)]

ghost use Rattle.std.specs.Prelude.{◌⊎◌, ℕ, Bool, List};
ghost use Rattle.fs_semantics.specs.Programs.{Program};
ghost use Rattle.fs_semantics.specs.Orders.{Told, IsDeterministic};

use finite_domain::{domains, trees_over_the_domain};

/// Whether programs are deterministic can be decided: finitely many orders and, over a domain, finitely many trees are to
/// be tried.
pub fn determinism_is_decided()
    ensures decided { (es : List Program) (before : ℕ → ℕ → Bool)
        → IsDeterministic es (Told before) ⊎ (IsDeterministic es (Told before) → ⊥) }
{
    domains();
    trees_over_the_domain();
}
