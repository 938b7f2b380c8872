//! Laws of the texts of trees, as a function that does nothing.

ghost use Rattle.std.specs.Prelude.{◌≡◌, ℕ, List};
ghost use Rattle.fs_semantics.specs.FileTree.{Tree, IsTree};
ghost use Rattle.tree_text.specs.TreeText.{AreMembers, KeysRise, IsTreeText, members_of, tree_text};

use fs_lang::path_texts;
use fs_semantics::{file_trees, paths};

/// Trees that are written alike are the same, and a text is that of one tree at most. What is written has a member for each
/// entry and no other, with the keys in the order of their bytes.
pub fn tree_texts()
    ensures same { (t u : Tree) → IsTree t → IsTree u → tree_text t ≡ tree_text u → t ≡ u }
    ensures one { (bytes : List ℕ) (t u : Tree) → IsTreeText bytes t → IsTreeText bytes u → t ≡ u }
    ensures members { (t : Tree) → IsTree t → AreMembers (members_of t) t }
    ensures order { (t : Tree) → KeysRise (members_of t) }
{
    path_texts();
    paths();
    file_trees();
}
