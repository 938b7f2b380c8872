//! Laws on arrows, as functions that do nothing.

ghost use Rattle.std.specs.Prelude.{◌≡◌, ◌↔◌, ℕ, List, []};
ghost use Rattle.std.specs.List.{All, Contains};
ghost use Rattle.fs_semantics.specs.Programs.{Program};
ghost use Rattle.fs_semantics.specs.Orders.{IsLinearExtension, IsDeterministic};
ghost use Rattle.orders.specs.Relation.{Relation, Comes, IsStrictOrder};
ghost use Rattle.repair.specs.Arrows.{ComesWith, IsBetweenFree, Follows};

/// A run is allowed with arrows exactly where it is allowed without them and follows each. So more arrows allow fewer runs, and a
/// deterministic graph stays so with more of them.
pub fn arrows()
    ensures followed { (order : Relation) (arrows : List (ℕ × ℕ)) (run : List ℕ) → IsStrictOrder order → All (IsBetweenFree order) arrows
        → IsLinearExtension order.count (ComesWith order arrows) run
        ↔ (IsLinearExtension order.count (Comes order) run × All (Follows run) arrows) }
    ensures none { (order : Relation) (a b : ℕ) → IsStrictOrder order → ComesWith order [] a b ↔ Comes order a b }
    ensures more { (es : List Program) (order : Relation) (arrows more : List (ℕ × ℕ)) → All (Contains more) arrows
        → IsDeterministic es (ComesWith order arrows) → IsDeterministic es (ComesWith order more) }
{}
