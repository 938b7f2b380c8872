//! The folders of paths: the paths themselves and what lies above them.

ghost use Rattle.std.specs.Prelude.{◌≡◌, ◌≢◌, ◌++◌, [], IfOk, OnOk, map};
ghost use Rattle.std.specs.FinMap as finite;
ghost use Rattle.fs_semantics.specs.FileTree.{Folder, parent};
ghost use Rattle.fs_semantics.specs.Entries.{IsFolderAt};
ghost use Rattle.given_links.specs.declared.links.GivenLink.{GivenLink};
ghost use Rattle.given_text.specs.Folders.{HasJust};
ghost use Rattle.given_text.specs.Reading.{fronts, with_folders, with_paths, folder_tree, HasOnlyFolders};

use fs_lang::{Entry, Path, Tree};
use given_links::GivenLink;
use rh_base::{NoMemory, Seq};
use std::alloc::Global;

/// Adds a folder below another one, unless it is there.
#[tactic(auto, using(crate::proofs::FolderLaws::stays))]
fn add_folder(tree: &mut Tree, p: Path) -> Result<(), NoMemory>
    requires only { HasOnlyFolders tree.old }
    requires below { p ≢ [] }
    requires above { IsFolderAt tree.old (parent p) }
    ensures { OnOk result (tree.new ≡ finite.insert tree.old p Folder) }
{
    if tree.get(&p).is_some() {
        return Ok(());
    }
    tree.add(p, Entry::Folder)
}

/// Adds the folders of a path, unless they are there.
fn add_fronts(alloc: Global, tree: &mut Tree, p: &Path) -> Result<(), NoMemory>
    requires { HasOnlyFolders tree.old }
    ensures tree { OnOk result (tree.new ≡ with_folders tree.old (fronts p.now)) }
    ensures only { OnOk result (HasOnlyFolders tree.new) }
{
    for n in 0..p.segments().len() {
        let front = p.front(alloc, n + 1)?;
        add_folder(tree, front)?;
    }
    Ok(())
}

/// Adds the folders of these paths, unless they are there.
fn add_paths(alloc: Global, tree: &mut Tree, paths: &[Path]) -> Result<(), NoMemory>
    requires { HasOnlyFolders tree.old }
    ensures tree { OnOk result (tree.new ≡ with_paths tree.old paths.now) }
    ensures only { OnOk result (HasOnlyFolders tree.new) }
{
    for path in paths {
        add_fronts(alloc, tree, path)?;
    }
    Ok(())
}

/// Adds the folders of the targets of these links, unless they are there.
fn add_targets(alloc: Global, tree: &mut Tree, links: &[GivenLink]) -> Result<(), NoMemory>
    requires { HasOnlyFolders tree.old }
    ensures { OnOk result (tree.new ≡ with_paths tree.old (map (λ l. l.target) links.now)) }
{
    for link in links {
        add_fronts(alloc, tree, &link.target)?;
    }
    Ok(())
}

/// The file tree of the folders of these paths: of the paths, but the root, and of what lies above them.
#[tactic(auto, using(crate::proofs::FolderLaws::nothing_here))]
pub fn folder_tree(alloc: Global, paths: &[Path]) -> Result<Tree, NoMemory>
    ensures { IfOk result (HasJust paths.now) }
{
    let mut tree = Tree::empty(alloc)?;
    add_paths(alloc, &mut tree, paths)?;
    tree.is_tree();
    Ok(tree)
}

/// The file tree of the folders that are named.
#[tactic(auto, using(crate::proofs::FolderLaws::nothing_here))]
pub(crate) fn named_tree(
    alloc: Global,
    folders: &[Path],
    links: &[GivenLink],
) -> Result<Tree, NoMemory>
    ensures { IfOk result (HasJust (folders.now ++ map (λ l. l.target) links.now)) }
{
    let mut tree = Tree::empty(alloc)?;
    add_paths(alloc, &mut tree, folders)?;
    add_targets(alloc, &mut tree, links)?;
    tree.is_tree();
    Ok(tree)
}

/// The paths that stand in a tree, in order.
pub(crate) fn paths_in(alloc: Global, tree: &Tree) -> Result<Seq<Path>, NoMemory>
    ensures { IfOk result (λ paths. paths ≡ finite.keys tree.now) }
{
    let mut paths = Seq::new(alloc);
    for (path, _) in tree.entries() {
        paths.push(path.copy(alloc)?)?;
    }
    Ok(paths)
}
