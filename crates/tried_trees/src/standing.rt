//! Trees to try.

ghost use Rattle.std.specs.Prelude.{◌↔◌, IsTrue};
ghost use Rattle.fs_semantics.specs.Entries.{IsFreeAt, IsFolderAt};
ghost use Rattle.fs_semantics.specs.FileTree.{parent};

use crate::used::{Used, add, used_by};
use fs_lang::{Entry, Path, Program, Tree};
use path_domain::named;
use rh_base::{NoMemory, Seq, Text};
use std::alloc::Global;
use std::collections::BTreeSet;

/// Which paths of some programs stand in a tree, beside the folders without which one of them ends in Error at once.
#[derive(Clone, Copy, Debug, PartialEq, Eq)]
enum Standing {
    /// What they use and none of them makes.
    Given,
    /// That, and each folder above a path of theirs.
    Folders,
    /// That, and all that they change.
    All,
    /// The folders, and what they remove and don't make: a host on which nothing was done yet.
    Before,
    /// All, each file with a content of its own.
    Apart,
}

/// The paths of programs: all, each after those above it; those above another one; folders without which a program ends in Error at
/// once, or right above what is made and made by none, and those above them; folders that a program makes; files and links that one
/// makes; what one removes; and files that are asked for where no program changes one that is asked for beside them.
#[derive(Drop)]
struct Paths {
    named: BTreeSet<Path>,
    above: BTreeSet<Path>,
    needed: BTreeSet<Path>,
    folders: BTreeSet<Path>,
    made: BTreeSet<Path>,
    removed: BTreeSet<Path>,
    given: BTreeSet<Path>,
}

fn is_any_in(paths: &[Path], set: &BTreeSet<Path>) -> bool {
    for p in paths {
        if set.contains(p) {
            return true;
        }
    }
    false
}

/// Adds these files, where none of them is made or removed.
fn add_given(
    alloc: Global,
    asked: &[Path],
    made: &BTreeSet<Path>,
    removed: &BTreeSet<Path>,
    given: &mut BTreeSet<Path>,
) -> Result<(), NoMemory> {
    if is_any_in(asked, made) || is_any_in(asked, removed) {
        return Ok(());
    }
    for p in asked {
        add(alloc, given, p)?;
    }
    Ok(())
}

fn given_of(
    alloc: Global,
    asked: &[Seq<Path>],
    made: &BTreeSet<Path>,
    removed: &BTreeSet<Path>,
) -> Result<BTreeSet<Path>, NoMemory> {
    let mut given = BTreeSet::new(alloc);
    for files in asked {
        add_given(alloc, files.as_slice(), made, removed, &mut given)?;
    }
    Ok(given)
}

fn parents_of(alloc: Global, named: &BTreeSet<Path>) -> Result<BTreeSet<Path>, NoMemory> {
    let mut above = BTreeSet::new(alloc);
    for p in named {
        above.insert(p.parent(alloc)?)?;
    }
    Ok(above)
}

/// These folders, and those above them.
fn down_to(alloc: Global, folders: BTreeSet<Path>) -> Result<BTreeSet<Path>, NoMemory> {
    let mut all = BTreeSet::new(alloc);
    for p in &folders {
        for n in 0..p.segments().len() {
            all.insert(p.front(alloc, n + 1)?)?;
        }
    }
    Ok(all)
}

/// Adds the folders right above these paths, but for those that a program makes.
fn add_unmade(
    alloc: Global,
    paths: &BTreeSet<Path>,
    folders: &BTreeSet<Path>,
    needed: &mut BTreeSet<Path>,
) -> Result<(), NoMemory> {
    for p in paths {
        let above = p.parent(alloc)?;
        if !folders.contains(&above) {
            needed.insert(above)?;
        }
    }
    Ok(())
}

fn paths_of(alloc: Global, named: BTreeSet<Path>, used: Used) -> Result<Paths, NoMemory> {
    let above = parents_of(alloc, &named)?;
    let Used {
        mut needed,
        folders,
        made,
        removed,
        asked,
    } = used;
    let given = given_of(alloc, asked.as_slice(), &made, &removed)?;
    add_unmade(alloc, &made, &folders, &mut needed)?;
    add_unmade(alloc, &folders, &folders, &mut needed)?;
    Ok(Paths {
        named,
        above,
        needed: down_to(alloc, needed)?,
        folders,
        made,
        removed,
        given,
    })
}

fn is_folder(paths: &Paths, p: &Path, which: Standing) -> bool {
    if paths.needed.contains(p) {
        return true;
    }
    let is_above = paths.above.contains(p);
    let is_made = paths.folders.contains(p);
    match which {
        Standing::Given => is_above && !is_made,
        Standing::Folders | Standing::Before => is_above,
        Standing::All | Standing::Apart => is_above || is_made,
    }
}

fn is_file(paths: &Paths, p: &Path, which: Standing) -> bool {
    let is_given = paths.given.contains(p);
    let is_made = paths.made.contains(p);
    let is_removed = paths.removed.contains(p);
    match which {
        Standing::Given | Standing::Folders => is_given,
        Standing::All | Standing::Apart => is_given || is_made || is_removed,
        Standing::Before => {
            let is_folder = paths.folders.contains(p);
            is_given || is_removed && !is_made && !is_folder
        }
    }
}

/// The content of a file: its path, where files are told apart, and else nothing.
fn content_at(alloc: Global, p: &Path, which: Standing) -> Result<Text, NoMemory> {
    match which {
        Standing::Apart => p.text(alloc),
        Standing::Given | Standing::Folders | Standing::All | Standing::Before => {
            Ok(Text::new(alloc))
        }
    }
}

/// What stands at a path.
fn entry_at(
    alloc: Global,
    paths: &Paths,
    p: &Path,
    which: Standing,
) -> Result<Option<Entry>, NoMemory> {
    if is_folder(paths, p, which) {
        return Ok(Some(Entry::Folder));
    }
    if is_file(paths, p, which) {
        return Ok(Some(Entry::File(content_at(alloc, p, which)?)));
    }
    Ok(None)
}

fn is_folder_in(tree: &Tree, p: &Path) -> bool
    ensures { IsTrue result ↔ IsFolderAt tree.now p.now }
{
    if p.segments().is_empty() {
        return true;
    }
    matches!(tree.get(p), Some(Entry::Folder))
}

fn is_free_in(tree: &Tree, p: &Path) -> bool
    ensures { IsTrue result ↔ IsFreeAt tree.now p.now }
{
    if p.segments().is_empty() {
        return false;
    }
    match tree.get(p) {
        Some(_) => false,
        None => true,
    }
}

/// Adds an entry where its place is free and lies in a folder.
fn add_entry(alloc: Global, tree: &mut Tree, p: &Path, entry: Entry) -> Result<(), NoMemory> {
    let above = p.parent(alloc)?;
    let fits = is_folder_in(tree, &above);
    let free = is_free_in(tree, p);
    if fits && free {
        return tree.add(p.copy(alloc)?, entry);
    }
    Ok(())
}

/// The tree in which these paths stand.
fn tree_of(alloc: Global, paths: &Paths, which: Standing) -> Result<Tree, NoMemory> {
    let mut tree = Tree::empty(alloc)?;
    for p in &paths.named {
        if let Some(entry) = entry_at(alloc, paths, p, which)? {
            add_entry(alloc, &mut tree, p, entry)?;
        }
    }
    Ok(tree)
}

/// Trees to try beside the empty one: those that most often tell something, and others.
#[derive(Drop)]
pub(crate) struct Trees {
    pub(crate) first: Seq<Tree>,
    pub(crate) others: Seq<Tree>,
}

fn trees_with(alloc: Global, paths: &Paths, all: &[Standing]) -> Result<Seq<Tree>, NoMemory> {
    let mut trees = Seq::new(alloc);
    for which in all {
        trees.push(tree_of(alloc, paths, *which)?)?;
    }
    Ok(trees)
}

/// The trees to try beside the empty one.
pub(crate) fn trees_of(alloc: Global, programs: &[Program]) -> Result<Trees, NoMemory> {
    let named = named(alloc, programs)?;
    let used = used_by(alloc, programs)?;
    let paths = paths_of(alloc, named, used)?;
    let usual = [Standing::Given, Standing::Folders, Standing::All];
    let first = trees_with(alloc, &paths, &usual)?;
    let others = trees_with(alloc, &paths, &[Standing::Before, Standing::Apart])?;
    Ok(Trees { first, others })
}
