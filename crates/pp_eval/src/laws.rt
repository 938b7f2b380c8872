//! Laws of the scopes and of what is evaluated in them, as functions that do nothing.

ghost use Rattle.std.specs.Prelude.{◌≡◌, ◌≢◌, ◌<◌, ℕ, List, [], ◌∷◌, ◌++◌, false, slice_get, codes, Option, None, Some, Ok, IsSome};
ghost use Rattle.pp_syntax.specs.declared.tree.Expr.{Expr};
ghost use Rattle.pp_value.specs.declared.value.Value.{Value};
ghost use Rattle.pp_eval.specs.declared.scope.Scope.{Scope};
ghost use Rattle.pp_eval.specs.Scoping.{Scoped, in_class, class_scope, class_of, entered, left, find_in, top_of, with_binding, bindings_now, current_scope, IsInner};
ghost use Rattle.pp_eval.specs.Evaluation.{value_of};
ghost use Rattle.pp_eval.specs.Inheriting.{ParentsStandBefore};
ghost use Rattle.pp_eval.specs.Extending.{Extends};
ghost use Rattle.pp_value.specs.Values.{Pair, value_at, exceeds_limits};
ghost use Rattle.pp_value.specs.Proper.{IsProper};

use pp_value::{
    members_are_proper, members_stay_within, pairs_stay_proper, sums_are_proper, wholes_are_proper,
};

/// A look-up doesn't depend on the bindings of other names.
pub fn other_names_stay()
    ensures { (bindings : List Pair) (name other : List ℕ) (x : Value) → name ≢ other
        → value_at other (bindings ++ (name, x) ∷ []) ≡ value_at other bindings }
{}

/// A name that had no binding is found with the value that it is bound to.
pub fn bound_names_are_found()
    ensures { (bindings : List Pair) (name : List ℕ) (x : Value) → value_at name bindings ≡ None
        → value_at name (bindings ++ (name, x) ∷ []) ≡ Some x }
{}

/// The top has the whole map of the facts.
pub fn facts_are_found()
    ensures { (facts : Value) → value_at (codes "facts") (top_of facts) ≡ Some facts }
{}

/// Where parents stand before the classes that inherit them, a class that is entered keeps this.
pub fn parents_stand_before()
    ensures { (s : Scoped) (name : List ℕ) (parent : Option (List ℕ)) → ParentsStandBefore s.0
        → ParentsStandBefore (entered s (class_scope s.0 name parent)).0 }
{}

/// Where parents stand before the classes that inherit them, looking through these ends: no larger bound finds more.
pub fn inheriting_ends()
    ensures { (n m : ℕ) (scopes : List Scope) (name : List ℕ) (place : ℕ) → ParentsStandBefore scopes → place < n
        → place < m → in_class n scopes name (slice_get scopes place) ≡ in_class m scopes name
        (slice_get scopes place) }
{}

/// Binding a name only adds.
pub fn bindings_extend()
    ensures { (s : Scoped) (name : List ℕ) (x : Value) → Extends s (with_binding name x s) }
{}

/// What only adds between entering a scope and leaving it only adds with both.
pub fn bodies_extend()
    ensures { (s t : Scoped) (scope : Scope) → Extends (entered s scope) t → Extends s (left t) }
{}

/// What only adds may be followed by what only adds; nothing at all only adds.
pub fn extensions_join()
    ensures none { (s : Scoped) → Extends s s }
    ensures both { (s t u : Scoped) → Extends s t → Extends t u → Extends s u }
{}

/// A name that is bound in the current scope keeps its value.
pub fn bound_names_stay()
    ensures { (s t : Scoped) (name : List ℕ) (x : Value) → Extends s t → value_at name (bindings_now s) ≡ Some x
        → value_at name (bindings_now t) ≡ Some x }
{}

/// The current scope stays the scope of a class or of a defined resource.
pub fn current_scopes_stay()
    ensures { (s t : Scoped) → Extends s t → IsInner (current_scope s) → IsInner (current_scope t) }
{}

/// A class that has a scope keeps it.
pub fn classes_stay()
    ensures { (s t : Scoped) (name : List ℕ) → Extends s t → IsSome (class_of s.0 name) → IsSome (class_of t.0 name) }
{}

/// Scopes that agree on what is looked up give an expression one value or one refusal.
pub fn equal_look_ups_give_one_evaluation()
    ensures { (s t : Scoped) → ((name : List ℕ) → find_in s name ≡ find_in t name) → (e : Expr) → value_of s e ≡ value_of t e }
{}

/// Where no value that is bound exceeds the limits, no value of an expression does.
pub fn values_stay_within()
    ensures { (s : Scoped) → ((name : List ℕ) (x : Value) → find_in s name ≡ Some x → exceeds_limits x ≡ false)
        → (e : Expr) (x : Value) → value_of s e ≡ Ok x → exceeds_limits x ≡ false }
{
    members_stay_within();
}

/// Where the maps of all values that are bound have distinct keys, so have those of every value of an expression.
pub fn values_stay_proper()
    ensures { (s : Scoped) → ((name : List ℕ) (x : Value) → find_in s name ≡ Some x → IsProper x)
        → (e : Expr) (x : Value) → value_of s e ≡ Ok x → IsProper x }
{
    sums_are_proper();
    members_are_proper();
    wholes_are_proper();
    pairs_stay_proper();
}
