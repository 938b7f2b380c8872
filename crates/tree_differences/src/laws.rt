//! A law on lists of differences, as a function that does nothing.

ghost use Rattle.std.specs.Prelude.{◌≡◌, ◌↔◌, List, []};
ghost use Rattle.fs_semantics.specs.FileTree.{Tree};
ghost use Rattle.tree_differences.specs.Differences.{Difference, AreDifferences};

/// Two trees have one list of differences, and it is empty exactly where they are the same.
pub fn difference_lists()
    ensures one { (t u : Tree) (ds es : List Difference) → AreDifferences t u ds → AreDifferences t u es → ds ≡ es }
    ensures none { (t u : Tree) (ds : List Difference) → AreDifferences t u ds → (ds ≡ []) ↔ (t ≡ u) }
{}
