//! Laws on linear extensions and exchanges of neighbours, as functions that do nothing.
ghost use Rattle.std.specs.Prelude.{◌≡◌, ℕ, List, Bool};
ghost use Rattle.fs_semantics.specs.Orders.{Told, IsLinearExtension, IsExchange};
ghost use Rattle.orders.specs.Paths.{Path};
ghost use Rattle.orders.specs.Exchanges.{Joined};

/// Any two linear extensions are joined by exchanges of neighbouring free nodes, whatever comes before what.
pub fn exchanges_join()
    ensures joined { (n : ℕ) (before : ℕ → ℕ → Bool) (from to : List ℕ)
        → IsLinearExtension n (Told before) from → IsLinearExtension n (Told before) to
        → Joined n (Told before) from to }
    ensures along_paths { (n : ℕ) (edges : List (ℕ × ℕ)) (from to : List ℕ)
        → IsLinearExtension n (Path edges) from → IsLinearExtension n (Path edges) to
        → Joined n (Path edges) from to }
{}

/// Where linear extensions that differ by one exchange agree on something, all linear extensions agree on it.
pub fn exchanges_agree<T>()
    ensures { (n : ℕ) (before : ℕ → ℕ → Bool) (tells : List ℕ → T)
        → ((order next : List ℕ)
        → IsLinearExtension n (Told before) order → IsLinearExtension n (Told before) next
        → IsExchange (Told before) order next → tells order ≡ tells next)
        → (from to : List ℕ)
        → IsLinearExtension n (Told before) from → IsLinearExtension n (Told before) to
        → tells from ≡ tells to }
{}
