//! Whether two outcomes are one.

ghost use Rattle.std.specs.Prelude.{◌≡◌, ◌↔◌, Some, None, IsTrue};
ghost use Rattle.fs_semantics.specs.FileTree as tree;
ghost use Rattle.fs_lang.specs.Meaning.{entry_of};
ghost use Rattle.fs_lang.specs.Outcomes.{outcome_of};

use fs_lang::{Entry, Outcome, Path, Tree};
use fs_semantics::paths;
use rh_base::Text;

fn is_file_with(content: &Text, entry: &Entry) -> bool
    ensures { IsTrue result ↔ (tree.File content.now ≡ entry_of entry.now) }
{
    match entry {
        Entry::File(other) => content.as_str() == other.as_str(),
        Entry::Folder | Entry::Link(_) => false,
    }
}

fn is_link_to(target: &Text, entry: &Entry) -> bool
    ensures { IsTrue result ↔ (tree.Link target.now ≡ entry_of entry.now) }
{
    match entry {
        Entry::Link(other) => target.as_str() == other.as_str(),
        Entry::Folder | Entry::File(_) => false,
    }
}

fn is_folder(entry: &Entry) -> bool
    ensures { IsTrue result ↔ (tree.Folder ≡ entry_of entry.now) }
{
    match entry {
        Entry::Folder => true,
        Entry::File(_) | Entry::Link(_) => false,
    }
}

fn same_entry(a: &Entry, b: &Entry) -> bool
    ensures { IsTrue result ↔ (entry_of a.now ≡ entry_of b.now) }
{
    match a {
        Entry::Folder => is_folder(b),
        Entry::File(content) => is_file_with(content, b),
        Entry::Link(target) => is_link_to(target, b),
    }
}

fn same_path(p: &Path, q: &Path) -> bool
    ensures { IsTrue result ↔ (p.now ≡ q.now) }
{
    paths();
    p == q
}

/// Whether the paths and what stands there are the same.
fn same_node(p: &Path, a: &Entry, q: &Path, b: &Entry) -> bool
    ensures { IsTrue result ↔ ((p.now ≡ q.now) × (entry_of a.now ≡ entry_of b.now)) }
{
    if !same_path(p, q) {
        return false;
    }
    same_entry(a, b)
}

/// Whether two trees have the same entries, and so are one.
fn same_tree(a: &Tree, b: &Tree) -> bool
    ensures { IsTrue result ↔ (a.now ≡ b.now) }
{
    let mut rest = b.entries();
    for (p, entry) in a.entries() {
        let Some((q, other)) = rest.next() else {
            return false;
        };
        if !same_node(p, entry, q, other) {
            return false;
        }
    }
    match rest.next() {
        Some(_) => false,
        None => true,
    }
}

fn is_error(outcome: &Outcome) -> bool
    ensures { IsTrue result ↔ (None ≡ outcome_of outcome.now) }
{
    match outcome {
        Outcome::Error => true,
        Outcome::Ended(_) => false,
    }
}

fn ends_in(tree: &Tree, outcome: &Outcome) -> bool
    ensures { IsTrue result ↔ (Some tree.now ≡ outcome_of outcome.now) }
{
    match outcome {
        Outcome::Error => false,
        Outcome::Ended(other) => same_tree(tree, other),
    }
}

/// Whether both are Error, or both one tree.
pub fn same_outcome(a: &Outcome, b: &Outcome) -> bool
    ensures { IsTrue result ↔ (outcome_of a.now ≡ outcome_of b.now) }
{
    match a {
        Outcome::Error => is_error(b),
        Outcome::Ended(tree) => ends_in(tree, b),
    }
}
