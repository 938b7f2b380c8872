//! Laws of given folders and links, as functions that do nothing.

ghost use Rattle.std.specs.Prelude.{◌≡◌, ◌≢◌, ◌↔◌, ◌⊎◌, ℕ, List, [], IsTrue};
ghost use Rattle.std.specs.List.{AllByRecursion};
ghost use Rattle.fs_semantics.specs.FileTree.{Path, IsSegment, parent, is_among, Tree};
ghost use Rattle.given_links.specs.Links.{AreLinks};
ghost use Rattle.given_text.specs.declared.given.Given.{Given as Said};
ghost use Rattle.given_text.specs.Folders.{HasJust, IsAboveOne};
ghost use Rattle.given_text.specs.Form.{named, IsGivenText};

/// A text gives one thing at most. Its links are links. A given folder isn't the root, and lies at or above a folder that is named or
/// the target of a link, and each such folder is given; so what lies above a given folder is given, and each is made of segments.
pub fn given_texts()
    ensures one { (bytes : List ℕ) (g h : Said) → IsGivenText bytes g → IsGivenText bytes h → g ≡ h }
    ensures links { (bytes : List ℕ) (g : Said) → IsGivenText bytes g → AreLinks g.links }
    ensures folders { (bytes : List ℕ) (g : Said) → (is : IsGivenText bytes g) → (p : Path)
        → IsTrue (is_among p g.folders) ↔ ((p ≢ []) × IsAboveOne p (named is.gives.stated)) }
    ensures parents { (bytes : List ℕ) (g : Said) → IsGivenText bytes g → (p : Path) → IsTrue (is_among p g.folders)
        → (parent p ≡ []) ⊎ IsTrue (is_among (parent p) g.folders) }
    ensures proper { (bytes : List ℕ) (g : Said) → IsGivenText bytes g → AllByRecursion (AllByRecursion IsSegment) g.folders }
    ensures trees { (paths : List Path) (t u : Tree) → HasJust paths t → HasJust paths u → t ≡ u }
{}
