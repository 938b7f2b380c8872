//! Laws on tables and cells.

ghost use Rattle.std.specs.Prelude.{◌≡◌, ◌≢◌, List, ℕ, Option, None, Some, slice_get};
ghost use Rattle.fs_semantics.specs.FileTree.{Path, Entry};
ghost use Rattle.fs_semantics.specs.Programs.{Outcome};
ghost use Rattle.fs_interpreter.specs.States.{Cell, State};
ghost use Rattle.fs_interpreter.specs.Standing.{Tells, StandsFor};
ghost use Rattle.fs_interpreter.specs.Places.{Listed, HasPath, HasContent, Keeps, place_in, content_place, with_path, with_content};

/// A table with a path or a content more has it, and has what it had.
pub fn additions()
    ensures path { (table : Listed) (p : Path) → HasPath (with_path table p) p }
    ensures paths { (table : Listed) (p : Path) → Keeps table (with_path table p) }
    ensures content { (table : Listed) (c : List ℕ) → HasContent (with_content table c) c }
    ensures contents { (table : Listed) (c : List ℕ) → Keeps table (with_content table c) }
{}

/// A path, or a content, is found where it stands, and nowhere exactly where it isn't there.
pub fn searches()
    ensures path { (paths : List Path) (p : Path) (i : ℕ) → place_in paths p ≡ Some i → slice_get paths i ≡ Some p }
    ensures no_path { (paths : List Path) (p : Path) → place_in paths p ≡ None → (i : ℕ) → slice_get paths i ≢ Some p }
    ensures content { (contents : List (List ℕ)) (c : List ℕ) (i : ℕ) → content_place contents c ≡ Some i → slice_get contents i ≡ Some c }
    ensures no_content { (contents : List (List ℕ)) (c : List ℕ) → content_place contents c ≡ None → (i : ℕ)
        → slice_get contents i ≢ Some c }
{}

/// What a cell tells is one entry or none, and what cells tell stands for one outcome at most.
pub fn states()
    ensures entry { (contents : List (List ℕ)) (c : Cell) (x y : Option Entry) → Tells contents c x → Tells contents c y → x ≡ y }
    ensures outcome { (table : Listed) (s : State) (o u : Outcome) → StandsFor table s o → StandsFor table s u → o ≡ u }
{}
