//! Laws on paths and file trees.

ghost use Rattle.std.specs.Prelude.{◌≡◌, ◌≢◌, ◌↔◌, ◌⊎◌, ◌++◌, Bool, IsTrue, List, [], ◌∷◌, Some, None};
ghost use Rattle.std.specs.List.{list_any};
ghost use Rattle.std.specs.FinMap as map;
ghost use Rattle.fs_semantics.specs.FileTree.{Segment, Path, Entry, Tree, parent, path_eq, is_among};
ghost use Rattle.fs_semantics.specs.Entries.{IsWith};
ghost use Rattle.fs_semantics.specs.Disjoint.{IsAncestor};

/// Paths are compared by their segments, and a parent is above its children, and is the parent of just these.
pub fn paths()
    ensures same { (p q : Path) → IsTrue (path_eq p q) ↔ (p ≡ q) }
    ensures among { (p q : Path) (ps : List Path) → IsTrue (is_among p (q ∷ ps)) ↔ ((p ≡ q) ⊎ IsTrue (is_among p ps)) }
    ensures above { (p : Path) → p ≢ [] → IsAncestor (parent p) p }
    ensures child { (p : Path) (s : Segment) → parent (p ++ s ∷ []) ≡ p }
    ensures last { (p : Path) → p ≢ [] → (s : Segment) × (p ≡ parent p ++ s ∷ []) }
{}

/// Trees with the same entries are the same; an entry that is put or taken away is the one that differs; and the keys are
/// the paths that have an entry.
pub fn file_trees()
    ensures same { (t u : Tree) → ((p : Path) → map.get t p ≡ map.get u p) → t ≡ u }
    ensures put { (t : Tree) (p : Path) (x : Entry) → IsWith t (map.insert t p x) p (Some x) }
    ensures taken { (t : Tree) (p : Path) → IsWith t (map.remove t p) p None }
    ensures keys { (test : Path → Bool) (t : Tree) → IsTrue (list_any test (map.keys t))
        ↔ ((p : Path) × IsTrue (map.contains_key t p) × IsTrue (test p)) }
{}
