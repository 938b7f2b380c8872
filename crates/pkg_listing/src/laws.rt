//! Laws of listings and of their texts, as functions that do nothing.

ghost use Rattle.std.specs.Prelude.{◌≡◌, ◌↔◌, true, ℕ, List};
ghost use Rattle.fs_semantics.specs.FileTree.{Path};
ghost use Rattle.pkg_listing.specs.Packages.{Packages, AreApart, stand_once};
ghost use Rattle.pkg_listing.specs.Form.{IsListingText};

use fs_semantics::paths;

/// A text is that of one listing at most.
pub fn listing_texts()
    ensures { (bytes : List ℕ) (a b : Packages) → IsListingText bytes a → IsListingText bytes b → a ≡ b }
{}

/// No path stands twice exactly where each differs from those behind it.
pub fn package_paths()
    ensures { (ps : List Path) → (stand_once ps ≡ true) ↔ AreApart ps }
{
    paths();
}
