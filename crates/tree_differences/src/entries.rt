//! Whether what stands at two places is the same.

ghost use Rattle.std.specs.Prelude.{◌≡◌, ◌↔◌, IsTrue};
ghost use Rattle.fs_lang.specs.Meaning.{entry_of};
ghost use Rattle.tree_differences.specs.Listed.{found_of};

use fs_lang::Entry;

fn same_entry(a: &Entry, b: &Entry) -> bool
    ensures { IsTrue result ↔ (entry_of a.now ≡ entry_of b.now) }
{
    match (a, b) {
        (Entry::Folder, Entry::Folder) => true,
        (Entry::File(left), Entry::File(right)) => left.as_str() == right.as_str(),
        (Entry::Link(left), Entry::Link(right)) => left.as_str() == right.as_str(),
        _ => false,
    }
}

/// Whether nothing stands at either, or the same entry at both.
pub(crate) fn same_found(a: Option<&Entry>, b: Option<&Entry>) -> bool
    ensures { IsTrue result ↔ (found_of a.entry ≡ found_of b.entry) }
{
    match (a, b) {
        (None, None) => true,
        (Some(left), Some(right)) => same_entry(left, right),
        _ => false,
    }
}
