//! Laws of class data, as functions that do nothing.

ghost use Rattle.std.specs.Prelude.{◌≡◌, ◌↔◌, ℕ, true, false, List, ◌∷◌, ◌++◌, Some, None, Err};
ghost use Rattle.pp_value.specs.declared.fault.Misfit.{Misfit};
ghost use Rattle.pp_value.specs.declared.value.Value.{Value};
ghost use Rattle.pp_value.specs.Table.{equal_table};
ghost use Rattle.pp_value.specs.Values.{Pair, value_at};
ghost use Rattle.pp_data.specs.declared.data.Level.{Level};
ghost use Rattle.pp_data.specs.Form.{AreData};
ghost use Rattle.pp_data.specs.Lookup.{applies, lookup, Applies, NoneGives, IsFirst, IsProperLevel};
ghost use Rattle.pp_value.specs.Proper.{IsProper};
ghost use Rattle.std.specs.List.{AllByRecursion};

/// A text has one data at most.
pub fn text_has_one_data()
    ensures { (bytes : List ℕ) (a b : List Level) → AreData bytes a → AreData bytes b → a ≡ b }
{}

/// A level applies exactly where each fact that it asks for is there, with a value whose `==` to the level's gives true.
pub fn facts_decide_what_applies()
    ensures { (facts : List Pair) (level : Level) → (applies facts level ≡ true) ↔ Applies facts level }
{}

/// A level that asks for a fact which is missing, or whose `==` to the level's value has no result, doesn't apply.
pub fn unmet_facts_keep_a_level_out()
    ensures missing { (facts : List Pair) (level : Level) (before behind : List Pair) (wanted : Pair)
        → level.when ≡ before ++ wanted ∷ behind → value_at wanted.0 facts ≡ None → applies facts level ≡ false }
    ensures no_result { (facts : List Pair) (level : Level) (before behind : List Pair) (wanted : Pair) (x : Value)
        (m : Misfit) → level.when ≡ before ++ wanted ∷ behind → value_at wanted.0 facts ≡ Some x
        → equal_table x wanted.1 ≡ Err m → applies facts level ≡ false }
{}

/// A key has exactly the value that the first level gives it which gives it any, and none where no level does.
pub fn first_level_counts()
    ensures some { (levels : List Level) (facts : List Pair) (key : List ℕ) (x : Value)
        → (lookup levels facts key ≡ Some x) ↔ IsFirst levels facts key x }
    ensures none { (levels : List Level) (facts : List Pair) (key : List ℕ) → (lookup levels facts key ≡ None)
        ↔ NoneGives facts key levels }
{}

/// What a level says that doesn't apply doesn't matter.
pub fn others_are_silent()
    ensures { (before behind : List Level) (level : Level) (facts : List Pair) (key : List ℕ)
        → applies facts level ≡ false
        → lookup (before ++ level ∷ behind) facts key ≡ lookup (before ++ behind) facts key }
{}

/// What is found in levels whose maps have distinct keys is such a value.
pub fn found_values_are_proper()
    ensures { (levels : List Level) (facts : List Pair) (key : List ℕ) (x : Value) → AllByRecursion IsProperLevel levels
        → lookup levels facts key ≡ Some x → IsProper x }
{}
