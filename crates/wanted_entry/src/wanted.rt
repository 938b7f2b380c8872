//! A wanted entry.

ghost use Rattle.std.specs.Prelude.{◌≡◌, ◌↔◌, IsTrue, IfOk};
ghost use Rattle.fs_semantics.specs.FileTree.{File};
ghost use Rattle.fs_lang.specs.Meaning.{program_of, entry_of};
ghost use Rattle.wanted_entry.specs.Entries.{HasWanted, probe_of};

use fs_lang::{Entry, Path, Program, Tree};
use rh_base::{NoMemory, Text};
use std::alloc::Global;

/// What is wanted: an entry at the path; with a content, a file with just this content.
#[derive(Debug, Drop)]
pub struct Wanted {
    pub path: Path,
    pub content: Option<Text>,
}

/// Whether the entry is a file with just this content.
fn is_file_with(entry: &Entry, content: &Text) -> bool
    ensures { IsTrue result ↔ (entry_of entry.now ≡ File content.now) }
{
    match entry {
        Entry::File(held) => held.as_str() == content.as_str(),
        Entry::Folder | Entry::Link(_) => false,
    }
}

impl Wanted {
    /// Whether the tree has the entry.
    pub fn is_in(&self, tree: &Tree) -> bool
        ensures { IsTrue result ↔ HasWanted tree.now self.now }
    {
        let Some(entry) = tree.get(&self.path) else {
            return false;
        };
        match &self.content {
            Some(content) => is_file_with(entry, content),
            None => true,
        }
    }

    /// The program that makes the entry in a free place, with the empty text where no content is given: it brings the path and
    /// the content into the domain.
    pub fn probe(&self, alloc: Global) -> Result<Program, NoMemory>
        ensures { IfOk result (λ e. program_of e ≡ probe_of self.now) }
    {
        let path = self.path.copy(alloc)?;
        match &self.content {
            Some(content) => Ok(Program::Creat(path, content.copy(alloc)?)),
            None => Ok(Program::Creat(path, Text::new(alloc))),
        }
    }
}
