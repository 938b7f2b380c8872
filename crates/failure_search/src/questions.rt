//! What tests ask of a tree.

ghost use Rattle.std.specs.Prelude.{◌≡◌, ◌↔◌, ◌&&◌, ◌||◌, not, IsTrue, option_map};
ghost use Rattle.std.specs.List.{list_any};
ghost use Rattle.std.specs.FinMap as map;
ghost use Rattle.fs_semantics.specs.FileTree.{parent, path_eq, is_file, is_link, is_dir, is_none, is_empty_dir, is_file_entry, is_link_entry, is_folder_entry, is_no_entry};
ghost use Rattle.fs_semantics.specs.Programs.{holds};
ghost use Rattle.fs_lang.specs.Meaning.{entry_of, test_of};

use fs_lang::{Entry, Path, Test, Tree};
use fs_semantics::paths;

fn is_file_entry(found: Option<&Entry>) -> bool
    ensures { result ≡ is_file_entry (option_map (λ e. entry_of e.now) found.entry) }
{
    match found {
        Some(Entry::File(_)) => true,
        Some(Entry::Folder) | Some(Entry::Link(_)) | None => false,
    }
}

fn is_link_entry(found: Option<&Entry>) -> bool
    ensures { result ≡ is_link_entry (option_map (λ e. entry_of e.now) found.entry) }
{
    match found {
        Some(Entry::Link(_)) => true,
        Some(Entry::Folder) | Some(Entry::File(_)) | None => false,
    }
}

fn is_folder_entry(found: Option<&Entry>) -> bool
    ensures { result ≡ is_folder_entry (option_map (λ e. entry_of e.now) found.entry) }
{
    match found {
        Some(Entry::Folder) => true,
        Some(Entry::File(_)) | Some(Entry::Link(_)) | None => false,
    }
}

fn is_no_entry(found: Option<&Entry>) -> bool
    ensures { result ≡ is_no_entry (option_map (λ e. entry_of e.now) found.entry) }
{
    match found {
        None => true,
        Some(_) => false,
    }
}

pub(crate) fn is_file(tree: &Tree, p: &Path) -> bool
    ensures { result ≡ is_file tree.now p.now }
{
    is_file_entry(tree.get(p))
}

fn is_link(tree: &Tree, p: &Path) -> bool
    ensures { result ≡ is_link tree.now p.now }
{
    is_link_entry(tree.get(p))
}

#[tactic(auto, using(crate::proofs::QuestionLaws::dir_root, crate::proofs::QuestionLaws::dir_below))]
fn is_dir(tree: &Tree, p: &Path) -> bool
    ensures { result ≡ is_dir tree.now p.now }
{
    if p.segments().is_empty() {
        return true;
    }
    is_folder_entry(tree.get(p))
}

#[tactic(auto, using(crate::proofs::QuestionLaws::none_root, crate::proofs::QuestionLaws::none_below))]
pub(crate) fn is_none(tree: &Tree, p: &Path) -> bool
    ensures { result ≡ is_none tree.now p.now }
{
    if p.segments().is_empty() {
        return false;
    }
    is_no_entry(tree.get(p))
}

/// Whether the second path lies directly below the first, of which it is the parent.
fn is_child(p: &Path, q: &Path) -> bool
    ensures { IsTrue result ↔ (parent q.now ≡ p.now) }
{
    paths();
    if q.segments().is_empty() {
        return p.segments().is_empty();
    }
    let above = p.is_ancestor(q);
    let next = q.segments().len() == p.segments().len() + 1;
    above && next
}

/// Whether an entry lies directly below the path.
fn has_child(tree: &Tree, p: &Path) -> bool
    ensures { result ≡ list_any (λ q. path_eq (parent q) p.now) (map.keys tree.now) }
{
    paths();
    for (q, _) in tree.entries() {
        if is_child(p, q) {
            return true;
        }
    }
    false
}

pub(crate) fn is_empty_dir(tree: &Tree, p: &Path) -> bool
    ensures { result ≡ is_empty_dir tree.now p.now }
{
    let folder = is_dir(tree, p);
    let full = has_child(tree, p);
    folder && !full
}

/// Whether a test holds.
#[cycle(holds)]
#[tactic(auto, using(fs_lang::specs::Meaning::test_of_not, fs_lang::specs::Meaning::test_of_and, fs_lang::specs::Meaning::test_of_or))]
pub(crate) fn holds(test: &Test, tree: &Tree) -> bool
    ensures { result ≡ holds (test_of test.now) tree.now }
{
    match test {
        Test::True => true,
        Test::False => false,
        Test::Not(a) => fails(a.get(), tree),
        Test::And(a, b) => both_hold(a.get(), b.get(), tree),
        Test::Or(a, b) => one_holds(a.get(), b.get(), tree),
        Test::IsFile(p) => is_file(tree, p),
        Test::IsLink(p) => is_link(tree, p),
        Test::IsDir(p) => is_dir(tree, p),
        Test::IsEmpty(p) => is_empty_dir(tree, p),
        Test::IsNone(p) => is_none(tree, p),
    }
}

#[cycle(holds)]
fn fails(a: &Test, tree: &Tree) -> bool
    ensures { result ≡ not (holds (test_of a.now) tree.now) }
{
    !holds(a, tree)
}

#[cycle(holds)]
fn both_hold(a: &Test, b: &Test, tree: &Tree) -> bool
    ensures { result ≡ (holds (test_of a.now) tree.now && holds (test_of b.now) tree.now) }
{
    let left = holds(a, tree);
    let right = holds(b, tree);
    left && right
}

#[cycle(holds)]
fn one_holds(a: &Test, b: &Test, tree: &Tree) -> bool
    ensures { result ≡ (holds (test_of a.now) tree.now || holds (test_of b.now) tree.now) }
{
    let left = holds(a, tree);
    let right = holds(b, tree);
    left || right
}
