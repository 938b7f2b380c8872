//! File trees as values.

ghost use Rattle.std.specs.Prelude.{◌≡◌, IfOk, OnOk};
ghost use Rattle.std.specs.BTreeMap.{insert_entry};
ghost use Rattle.fs_semantics.specs.FileTree.{IsBytes, path_cmp};
ghost use Rattle.fs_lang.specs.Trees.{TextIsBytes};

use crate::path::Path;
use crate::program::Entry;
use rh_base::{NoMemory, Text};
use std::alloc::Global;
use std::collections::BTreeMap;
use std::collections::btree_map::Iter;
use std::marker::Model;

/// A file tree, which contracts see as a finite map from paths to entries. Its type keeps that the parent of each entry is
/// the root or a folder.
#[derive(Debug, Drop)]
pub struct Tree {
    entries: BTreeMap<Path, Entry>,
}

impl Model for Tree {
    ghost use Rattle.fs_semantics.specs.FileTree.{Tree as FileTree, IsTree};

    ghost Value = { FileTree };

    ghost use Rattle.fs_lang.specs.Trees.{tree_of, coded_tree};

    ghost coded = { coded_tree };

    ghost view = { λ t. tree_of t.entries };

    ghost invariant = { λ t. IsTree (tree_of t.entries) };
}

/// Each byte of a text is below 256.
#[tactic(auto, using(crate::proofs::Bytes::utf8_bytes))]
fn text_is_bytes(text: &Text)
    ensures { IsBytes text.now }
{
    let _text = text.as_str();
}

fn entry_is_bytes(entry: &Entry)
    ensures { TextIsBytes entry.now }
{
    match entry {
        Entry::Folder => {}
        Entry::File(content) => text_is_bytes(content),
        Entry::Link(target) => text_is_bytes(target),
    }
}

fn put_copy(
    alloc: Global,
    p: &Path,
    entry: &Entry,
    entries: &mut BTreeMap<Path, Entry>,
) -> Result<(), NoMemory>
    ensures { OnOk result (entries.new.entries ≡ insert_entry path_cmp entries.old.entries p.now entry.now) }
{
    let path = p.copy(alloc)?;
    let copy = entry.copy(alloc)?;
    entries.insert(path, copy)?;
    Ok(())
}

fn copy_entries(
    alloc: Global,
    entries: &BTreeMap<Path, Entry>,
) -> Result<BTreeMap<Path, Entry>, NoMemory>
    ensures { IfOk result (λ copies. copies.entries ≡ entries.now.entries) }
{
    let mut copies = BTreeMap::new(alloc);
    for (p, entry) in entries {
        put_copy(alloc, p, entry, &mut copies)?;
    }
    Ok(copies)
}

/// How a run ends: in a tree, or in Error. Contracts see it by `outcome_of` as the outcome of the definitions.
#[derive(Debug, Drop)]
pub enum Outcome {
    Ended(Tree),
    Error,
}

impl Tree {
    ghost use Rattle.std.specs.Prelude.{◌≡◌, ◌∷◌, ◌++◌, List, IfOk, OnOk, OnErr, option_map};
    ghost use Rattle.std.specs.Map.Iter.{ShowsInOrder, deref_pair};
    ghost use Rattle.std.specs.FinMap as map;
    ghost use Rattle.fs_semantics.specs.FileTree.{Path as P, Entry as FileEntry, IsTree, parent};
    ghost use Rattle.fs_semantics.specs.Entries.{IsFreeAt, IsFolderAt};
    ghost use Rattle.fs_lang.specs.declared.program.Entry.{Entry as E};
    ghost use Rattle.fs_lang.specs.Meaning.{entry_of};
    ghost use Rattle.fs_lang.specs.Trees.{entries_of};

    /// The tree without entries.
    pub fn empty(alloc: Global) -> Result<Tree, NoMemory>
        ensures { IfOk result (λ t. t ≡ map.empty) }
    {
        Ok(Tree {
            entries: BTreeMap::new(alloc),
        })
    }

    /// What stands at a path. At the root no entry does.
    pub fn get(&self, p: &Path) -> Option<&Entry>
        ensures { option_map (λ e. entry_of e.now) result ≡ map.get self.now p.now }
    {
        self.entries.get(p)
    }

    /// Adds an entry in a free place below a folder.
    pub fn add(&mut self, p: Path, entry: Entry) -> Result<(), NoMemory>
        requires free { IsFreeAt self.old p }
        requires above { IsFolderAt self.old (parent p) }
        ensures ok { OnOk result (self.new ≡ map.insert self.old p (entry_of entry)) }
        ensures err { OnErr result (self.new ≡ self.old) }
    {
        p.segments();
        entry_is_bytes(&entry);
        self.entries.insert(p, entry)?;
        Ok(())
    }

    /// An equal tree.
    pub fn copy(&self, alloc: Global) -> Result<Tree, NoMemory>
        ensures { IfOk result (λ t. t ≡ self.now) }
    {
        Ok(Tree {
            entries: copy_entries(alloc, &self.entries)?,
        })
    }

    /// All entries, each once, in the order of paths by segments: so a folder before what lies below it.
    pub fn entries(&self) -> Iter<'_, Path, Entry>
        ensures entries { entries_of result ≡ map.entries self.now }
        ensures runs { ShowsInOrder (deref_pair {K = P} {X = E}) }
        // Each has its place in the tree of those before it.
        ensures place { (before after : List (P × FileEntry)) (p : P) (x : FileEntry) → map.entries self.now ≡ before ++ (p, x) ∷ after
            → IsFreeAt (map.from_entries before) p × IsFolderAt (map.from_entries before) (parent p) }
    {
        self.entries.iter()
    }

    /// What every tree is.
    pub fn is_tree(&self)
        ensures { IsTree self.now }
    {
        let _count = self.entries.len();
    }
}
