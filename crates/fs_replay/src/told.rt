//! What one cell tells of a tree.

ghost use Rattle.std.specs.Prelude.{◌≡◌, ◌<◌, true, false, ℕ, List, Option, Some, length, slice_get, option_map, IfOk};
ghost use Rattle.std.specs.FinMap as map;
ghost use Rattle.fs_semantics.specs.FileTree.{Entry as E, HasText};
ghost use Rattle.fs_lang.specs.Meaning.{entry_of};
ghost use Rattle.fs_interpreter.specs.Meanings.{plain_meanings};
ghost use Rattle.fs_interpreter.specs.Places.{HasContent};
ghost use Rattle.fs_interpreter.specs.States.{AreCells};
ghost use Rattle.fs_interpreter.specs.Standing.{Tells};
ghost use Rattle.fs_replay.specs.Told.{cell_of, plain_state};

use fs_interpreter::{Cells, Plain, Table, searches};
use fs_lang::{Entry, Path, Tree};
use rh_base::{NoMemory, Text};
use std::alloc::Global;

/// The truth values of one place, and the number of its content or target.
#[derive(Clone, Copy)]
pub(crate) struct Told {
    pub present: bool,
    pub folder: bool,
    pub link: bool,
    pub content: u64,
}

/// The number of a content that the table has.
fn number_of(table: &Table, c: &Text) -> u64
    requires { HasContent table.now c.now }
    ensures { slice_get table.now.contents result ≡ Some c.now }
{
    searches();
    match table.number(c) {
        Some(n) => n,
        None => 0,
    }
}

fn file(content: u64) -> Told
    ensures { cell_of result ≡ record { present = true; folder = false; link = false; content = content } }
{
    Told {
        present: true,
        folder: false,
        link: false,
        content,
    }
}

fn link(content: u64) -> Told
    ensures { cell_of result ≡ record { present = true; folder = false; link = true; content = content } }
{
    Told {
        present: true,
        folder: false,
        link: true,
        content,
    }
}

/// What a cell is to tell of a path.
pub(crate) fn told_of(table: &Table, tree: &Tree, p: &Path) -> Told
    requires { (text : List ℕ) → HasText (map.get tree.now p.now) text → HasContent table.now text }
    ensures { Tells table.now.contents (cell_of result) (map.get tree.now p.now) }
{
    match tree.get(p) {
        None => Told {
            present: false,
            folder: false,
            link: false,
            content: 0,
        },
        Some(Entry::Folder) => Told {
            present: true,
            folder: true,
            link: false,
            content: 0,
        },
        Some(Entry::File(content)) => file(number_of(table, content)),
        Some(Entry::Link(target)) => link(number_of(table, target)),
    }
}

/// What a cell tells.
pub(crate) fn told_at(cells: &Cells<Plain>, i: usize) -> Told
    requires cells { AreCells plain_meanings cells.now }
    requires place { i < length cells.now.present }
    ensures { cell_of result ≡ (plain_state cells.now).cell i }
{
    Told {
        present: *cells.present.at(i),
        folder: *cells.folder.at(i),
        link: *cells.link.at(i),
        content: *cells.content.at(i),
    }
}

/// The entry that is told.
pub(crate) fn entry_told(
    alloc: Global,
    table: &Table,
    told: Told,
) -> Result<Option<Entry>, NoMemory>
    requires { (x : Option E) × Tells table.now.contents (cell_of told) x }
    ensures { IfOk result (λ e. Tells table.now.contents (cell_of told) (option_map entry_of e)) }
{
    if !told.present {
        return Ok(None);
    }
    if told.folder {
        return Ok(Some(Entry::Folder));
    }
    let text = table.content(told.content).copy(alloc)?;
    if told.link {
        Ok(Some(Entry::Link(text)))
    } else {
        Ok(Some(Entry::File(text)))
    }
}
