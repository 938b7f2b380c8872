//! Orders place by place: when each node may come next, and the exchange of two neighbours. The definitions are in
//! `specs/`; each function here does nothing, and its contract is a law that callers may use.
#![tactic(auto)]

ghost use Rattle.std.specs.Prelude.{◌≡◌, ◌↔◌, ℕ, ◌+◌, ◌<◌, Bool, true, List, length, slice_index_or};
ghost use Rattle.fs_semantics.specs.Orders.{Told, IsLinearExtension, IsFree};
ghost use Rattle.order_places.specs.Places.{around, exchanged, is_in_order, IsStrict, AreNeighbours};

/// A list of as many numbers as there are nodes is an allowed order exactly where each may come next, and allowed orders are
/// such lists.
pub fn allowed_orders()
    ensures exact { (n : ℕ) (before : ℕ → ℕ → Bool) (order : List ℕ) → IsStrict n before → length order ≡ n
        → (is_in_order before n order ≡ true) ↔ IsLinearExtension n (Told before) order }
    ensures long { (n : ℕ) (before : ℕ → ℕ → Bool) (order : List ℕ) → IsLinearExtension n (Told before) order → length order ≡ n }
{}

/// Two allowed orders differ by one exchange of free neighbours exactly where the one is the other with the nodes at a place
/// and the next exchanged.
pub fn exchanges()
    ensures found { (n : ℕ) (before : ℕ → ℕ → Bool) (order : List ℕ) (j : ℕ) → j + 1 < length order
        → IsLinearExtension n (Told before) order → IsLinearExtension n (Told before) (exchanged j order)
        → AreNeighbours n before order (exchanged j order) }
    ensures placed { (n : ℕ) (before : ℕ → ℕ → Bool) (order other : List ℕ) → AreNeighbours n before order other
        → (j : ℕ) × (j + 1 < length order) × (exchanged j order ≡ other) }
{}

/// An order is the two nodes at a place and the next, with what stands ahead and behind; so is the exchanged one, with the two
/// the other way. Where both are allowed, the two are nodes of which neither comes before the other.
pub fn places()
    ensures whole { (order : List ℕ) (j : ℕ) → j + 1 < length order
        → around j order (slice_index_or order j 0) (slice_index_or order (j + 1) 0) ≡ order }
    ensures exchanged { (order : List ℕ) (j : ℕ) → j + 1 < length order
        → around j order (slice_index_or order (j + 1) 0) (slice_index_or order j 0) ≡ exchanged j order }
    ensures free { (n : ℕ) (before : ℕ → ℕ → Bool) (order : List ℕ) (j : ℕ) → j + 1 < length order
        → IsLinearExtension n (Told before) order → IsLinearExtension n (Told before) (exchanged j order)
        → IsFree (Told before) (slice_index_or order j 0) (slice_index_or order (j + 1) 0) }
    ensures below { (n : ℕ) (before : ℕ → ℕ → Bool) (order : List ℕ) (j : ℕ) → j + 1 < length order
        → IsLinearExtension n (Told before) order → IsLinearExtension n (Told before) (exchanged j order)
        → (slice_index_or order j 0 < n) × (slice_index_or order (j + 1) 0 < n) }
{}
