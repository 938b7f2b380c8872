//! Laws of assumed behaviors and of lost edits, as functions that do nothing.

ghost use Rattle.std.specs.Prelude.{◌≡◌, ◌⊎◌, [], ℕ, List, Some};
ghost use Rattle.std.specs.List.{AllByRecursion};
ghost use Rattle.fs_semantics.specs.FileTree.{Path, IsSegment, Tree};
ghost use Rattle.fs_semantics.specs.Entries.{IsFileAt};
ghost use Rattle.fs_semantics.specs.Programs.{Program, Creat, Link, Rm, Cp, run};
ghost use Rattle.fs_semantics.specs.Changes.{Changes};
ghost use Rattle.pp_value.specs.Shown.{shown_ref};
ghost use Rattle.catalog_semantics.specs.declared.catalog.Resource.{Resource};
ghost use Rattle.assumed_models.specs.Behaviors.{edit_mark};
ghost use Rattle.assumed_models.specs.LostEdits.{Writes, IsOneOf, LosesOne, with_lost_edits};

use fs_lang::{path_texts, segments_of_names};
use fs_semantics::{constructs, paths};
use model_laws::{sequences_join, words_leave};

/// Where nothing is edited that a program writes, it stays as it is; what else it changes is the mark of an edit of a path that it
/// writes.
pub fn edits_are_lost()
    ensures nothing { (marks : Path → List Path) (e : Program) → ((p : Path) → Writes e p → marks p ≡ []) → with_lost_edits marks e ≡ e }
    ensures only { (marks : Path → List Path) (e : Program) (q : Path) → Changes (with_lost_edits marks e) q
        → Changes e q ⊎ LosesOne marks e q }
{}

/// Behind what makes, links, removes or copies a file no mark of an edit of it stands.
pub fn no_edit_outlives_its_file()
    ensures made { (marks : Path → List Path) (p : Path) (content : List ℕ) (t u : Tree)
        → run (with_lost_edits marks (Creat p content)) t ≡ Some u → (m : Path) → IsOneOf m (marks p)
        → IsFileAt u m → ⊥ }
    ensures linked { (marks : Path → List Path) (p : Path) (target : List ℕ) (t u : Tree)
        → run (with_lost_edits marks (Link p target)) t ≡ Some u → (m : Path) → IsOneOf m (marks p) → IsFileAt u m → ⊥ }
    ensures removed { (marks : Path → List Path) (p : Path) (t u : Tree) → run (with_lost_edits marks (Rm p)) t ≡ Some u
        → (m : Path) → IsOneOf m (marks p) → IsFileAt u m → ⊥ }
    ensures copied { (marks : Path → List Path) (from p : Path) (t u : Tree)
        → run (with_lost_edits marks (Cp from p)) t ≡ Some u → (m : Path) → IsOneOf m (marks p) → IsFileAt u m → ⊥ }
{
    words_leave();
    sequences_join();
    constructs();
    paths();
}

/// Edits with one mark are of one file, and by resources of one reference.
pub fn marks_tell_edits()
    ensures { (r s : Resource) (p q : Path) → AllByRecursion IsSegment p → AllByRecursion IsSegment q
        → edit_mark r p ≡ edit_mark s q → (p ≡ q) × (shown_ref r.id ≡ shown_ref s.id) }
{
    path_texts();
    segments_of_names();
}
