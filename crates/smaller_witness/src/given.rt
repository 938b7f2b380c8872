//! Given folders: whether they stand in a tree.

ghost use Rattle.std.specs.Prelude.{◌↔◌, IsTrue};
ghost use Rattle.fs_semantics.specs.Entries.{IsFolderAt};
ghost use Rattle.given_hosts.specs.Given.{Stand};

use fs_lang::{Entry, Path, Tree};

/// Whether a path is the root or a folder.
fn is_folder(tree: &Tree, p: &Path) -> bool
    ensures { IsTrue result ↔ IsFolderAt tree.now p.now }
{
    if p.segments().is_empty() {
        return true;
    }
    matches!(tree.get(p), Some(Entry::Folder))
}

/// Whether each of these folders stands.
pub(crate) fn all_stand(tree: &Tree, given: &[Path]) -> bool
    ensures { IsTrue result ↔ Stand given.now tree.now }
{
    for p in given {
        let stands = is_folder(tree, p);
        if !stands {
            return false;
        }
    }
    true
}

/// Whether one of these folders is at the path or below it, so that it doesn't stand without what does there.
pub(crate) fn holds_given(p: &Path, given: &[Path]) -> bool {
    for g in given {
        if p == g || p.is_ancestor(g) {
            return true;
        }
    }
    false
}
