//! Laws of the texts of paths and of names, as functions that do nothing.

ghost use Rattle.std.specs.Prelude.{◌≡◌, ◌≢◌, ◌≤◌, ◌++◌, ℕ, List, [], length};
ghost use Rattle.std.specs.List.{AllByRecursion};
ghost use Rattle.rh_base.specs.declared.limits.TheConstants.{PATH_BYTES, PATH_SEGMENTS};
ghost use Rattle.fs_semantics.specs.FileTree.{Path, IsSegment, parent};
ghost use Rattle.fs_lang.specs.PathText.{IsPathText, path_text};
ghost use Rattle.fs_lang.specs.Names.{segment_of};

/// A text spells one path at most, and paths that are written alike are the same. A path that is within the limits is read
/// back from what is written of it. What is written of a path begins with what is written of its parent, and goes on.
#[tactic(auto, using(crate::proofs::TextLaws::one_path, crate::proofs::TextLaws::same_text, crate::proofs::TextLaws::is_text, crate::proofs::TextLaws::text_below))]
pub fn path_texts()
    ensures once { (text : List ℕ) (p q : Path) → IsPathText text p → IsPathText text q → p ≡ q }
    ensures same { (p q : Path) → AllByRecursion IsSegment p → AllByRecursion IsSegment q → path_text p ≡ path_text q → p ≡ q }
    ensures again { (p : Path) → AllByRecursion IsSegment p → length (path_text p) ≤ PATH_BYTES
        → length p ≤ PATH_SEGMENTS → IsPathText (path_text p) p }
    ensures below { (p : Path) → parent p ≢ [] → (more : List ℕ) × (more ≢ []) × (path_text p ≡ path_text (parent p) ++ more) }
{}

/// Names with one segment are the same.
#[tactic(auto, using(crate::proofs::NameTold::same_name))]
pub fn segments_of_names()
    ensures { (a b : List ℕ) → segment_of a ≡ segment_of b → a ≡ b }
{}
