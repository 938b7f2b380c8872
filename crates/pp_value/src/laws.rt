//! Laws of the operations, as functions that do nothing.

ghost use Rattle.std.specs.Prelude.{◌≡◌, ◌↔◌, ℕ, false, List, [], Ok, IsTrue};
ghost use Rattle.std.specs.List.{AllByRecursion};
ghost use Rattle.std.specs.Option.{option_or};
ghost use Rattle.pp_value.specs.declared.value.Value.{Value};
ghost use Rattle.pp_value.specs.declared.value.Value.TheVariants as v;
ghost use Rattle.pp_value.specs.Keys.{with_pairs};
ghost use Rattle.pp_value.specs.Proper.{IsProper};
ghost use Rattle.pp_value.specs.Table.{equal_table, add_table, index_table};
ghost use Rattle.pp_value.specs.Values.{Pair, HasDistinctKeys, value_at, exceeds_limits};
ghost use Rattle.pp_value.specs.Texts.{is_part, StandsIn};
ghost use Rattle.pp_value.specs.Shown.{show_table};

/// `==` answers the same both ways round, for values whose maps have distinct keys.
pub fn equality_is_symmetric()
    ensures { (a b : Value) → IsProper a → IsProper b → equal_table a b ≡ equal_table b a }
{}

/// A text is shown as it is.
pub fn text_shows_itself()
    ensures { (text : List ℕ) → show_table (v.Str text) ≡ Ok text }
{}

/// In the sum of two maps a key has its value from the right one, or else from the left one.
pub fn right_values_win()
    ensures { (left right : List Pair) → HasDistinctKeys right → (key : List ℕ)
        → value_at key (with_pairs left right) ≡ option_or (value_at key right) (value_at key left) }
{}

/// The sum of values whose maps have distinct keys is such a value.
pub fn sums_are_proper()
    ensures { (a b x : Value) → IsProper a → IsProper b → add_table a b ≡ Ok x → IsProper x }
{}

/// A member of a value whose maps have distinct keys is such a value.
pub fn members_are_proper()
    ensures { (a key x : Value) → IsProper a → index_table a key ≡ Ok x → IsProper x }
{}

/// A member of a value that doesn't exceed the limits doesn't either.
pub fn members_stay_within()
    ensures { (a key x : Value) → exceeds_limits a ≡ false → index_table a key ≡ Ok x → exceeds_limits x ≡ false }
{}

/// A list of values whose maps have distinct keys is such a value, and so is a map of them with distinct keys.
pub fn wholes_are_proper()
    ensures lists { (items : List Value) → AllByRecursion IsProper items → IsProper (v.List items) }
    ensures maps { (pairs : List Pair) → HasDistinctKeys pairs → AllByRecursion (λ p. IsProper p.1) pairs → IsProper (v.Map pairs) }
{}

/// Pairs with distinct keys keep them with others behind, and their values stay such whose maps have distinct keys.
pub fn pairs_stay_proper()
    ensures distinct { (pairs more : List Pair) → HasDistinctKeys pairs → HasDistinctKeys (with_pairs pairs more) }
    ensures proper { (pairs more : List Pair) → AllByRecursion (λ p. IsProper p.1) pairs
        → AllByRecursion (λ p. IsProper p.1) more → AllByRecursion (λ p. IsProper p.1) (with_pairs pairs more) }
{}

/// Pairs with distinct keys, put one after the other, are themselves.
pub fn distinct_pairs_are_kept()
    ensures { (pairs : List Pair) → HasDistinctKeys pairs → with_pairs [] pairs ≡ pairs }
{}

/// A text is a part of another exactly where it stands between two others in it.
pub fn parts_stand_within()
    ensures { (part text : List ℕ) → IsTrue (is_part part text) ↔ StandsIn part text }
{}
