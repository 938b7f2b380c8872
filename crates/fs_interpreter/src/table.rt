//! Paths and contents by number, found by hash.
//!
//! A path is numbered when its parent stands there. So parents have lower places than what is below them, and a tree is read
//! back in one pass. What the map of hashes answers is compared with the path at its place: no clause and no law rests on the
//! map, and it may keep what a failed call left.

use crate::grow::push_node;
use fs_lang::Path;
use indexmap::IndexMap;
use rh_base::{NoMemory, Text};
use std::alloc::Global;
use std::marker::Model;

/// A path with the places of its parent and of its children.
#[derive(Drop)]
pub(crate) struct Node {
    pub path: Path,
    pub parent: Option<usize>,
    pub children: Vec<usize>,
}

/// Paths, each with its parent and its children, and contents, both by number. Contracts see the two lists.
#[derive(Drop)]
pub struct Table {
    nodes: Vec<Node>,
    top: Vec<usize>,
    places: IndexMap<Path, usize>,
    contents: Vec<Text>,
    numbers: IndexMap<Text, usize>,
}

impl Model for Table {
    ghost use Rattle.fs_interpreter.specs.Places.{Listed};

    ghost Value = { Listed };

    ghost use Rattle.fs_interpreter.specs.Kept.{IsKept, listed};

    ghost view = { listed };

    ghost invariant = { IsKept };
}

impl Table {
    ghost use Rattle.std.specs.Prelude.{◌≡◌, ◌≢◌, ◌↔◌, ◌<◌, [], length, slice_get, Some, IfSome, IfOk, OnOk, OnErr, IsTrue};
    ghost use Rattle.std.specs.List.{AllByRecursion};
    ghost use Rattle.fs_semantics.specs.FileTree.{Path as Segments, parent as above};
    ghost use Rattle.fs_interpreter.specs.Places.{IsTable, HasPath, place_in, children_in, content_place, with_path, with_content};

    /// A table of no paths and no contents.
    pub fn new(alloc: Global) -> Result<Table, NoMemory>
        ensures { IfOk result (λ t. t ≡ record { paths = []; contents = [] }) }
    {
        Ok(Table {
            nodes: Vec::new(alloc),
            top: Vec::new(alloc),
            places: IndexMap::new(alloc),
            contents: Vec::new(alloc),
            numbers: IndexMap::new(alloc),
        })
    }

    /// How many paths there are, the root not counted.
    pub fn path_count(&self) -> u64
        ensures { result ≡ length self.now.paths }
    {
        self.nodes.len() as u64
    }

    /// How many contents there are.
    pub fn content_count(&self) -> u64
        ensures { result ≡ length self.now.contents }
    {
        self.contents.len() as u64
    }

    /// Puts a path last where it isn't there yet, and gives its place.
    pub fn add_path(&mut self, alloc: Global, p: Path) -> Result<u64, NoMemory>
        requires root { p ≢ [] }
        requires above { HasPath self.old (above p) }
        ensures ok { OnOk result (self.new ≡ with_path self.old p) }
        ensures place { IfOk result (λ i. place_in self.new.paths p ≡ Some i) }
        ensures err { OnErr result (self.new ≡ self.old) }
    {
        if let Some(i) = self.position(&p) {
            return Ok(i as u64);
        }
        let parent = self.position(&p.parent(alloc)?);
        let key = p.copy(alloc)?;
        let i = self.nodes.len();
        self.places.insert(key, i)?;
        let node = Node {
            path: p,
            parent,
            children: Vec::new(alloc),
        };
        push_node(&mut self.nodes, &mut self.top, node)?;
        Ok(i as u64)
    }

    /// Puts a content last where it isn't there yet, and gives its number.
    pub fn add_content(&mut self, alloc: Global, c: Text) -> Result<u64, NoMemory>
        ensures ok { OnOk result (self.new ≡ with_content self.old c) }
        ensures number { IfOk result (λ n. content_place self.new.contents c ≡ Some n) }
        ensures err { OnErr result (self.new ≡ self.old) }
    {
        if let Some(n) = self.number(&c) {
            return Ok(n);
        }
        let key = c.copy(alloc)?;
        let n = self.contents.len();
        self.numbers.insert(key, n)?;
        self.contents.push(c)?;
        Ok(n as u64)
    }

    /// The place of a path; the root has none.
    pub fn place(&self, p: &Path) -> Option<u64>
        ensures { result ≡ place_in self.now.paths p.now }
    {
        match self.position(p) {
            Some(i) => Some(i as u64),
            None => None,
        }
    }

    /// The path at a place.
    pub fn path(&self, i: u64) -> &Path
        requires { i < length self.now.paths }
        ensures { slice_get self.now.paths i ≡ Some result.now }
    {
        &self.nodes[i as usize].path
    }

    /// The content of a number.
    pub fn content(&self, n: u64) -> &Text
        requires { n < length self.now.contents }
        ensures { slice_get self.now.contents n ≡ Some result.now }
    {
        &self.contents[n as usize]
    }

    /// Whether this path is at the place.
    fn is_at(&self, i: usize, p: &Path) -> bool
        ensures { IsTrue result ↔ (slice_get self.now.paths i ≡ Some p.now) }
    {
        if i < self.nodes.len() {
            self.nodes[i].path == *p
        } else {
            false
        }
    }

    /// The place of a path; the root has none.
    #[tactic(auto, using(crate::proofs::SearchLaws::place_below))]
    pub(crate) fn position(&self, p: &Path) -> Option<usize>
        ensures place { result ≡ place_in self.now.paths p.now }
        ensures below { IfSome result (λ i. i < length self.now.paths) }
    {
        let Some(found) = self.places.get(p) else {
            return None;
        };
        let i = *found;
        if self.is_at(i, p) { Some(i) } else { None }
    }

    /// The place of the parent of the path at a place; the root has none.
    pub(crate) fn parent(&self, i: usize) -> Option<usize>
        requires { i < length self.now.paths }
        ensures place { (p : Segments) → slice_get self.now.paths i ≡ Some p → result ≡ place_in self.now.paths (above p) }
        ensures below { IfSome result (λ j. j < length self.now.paths) }
    {
        self.nodes[i].parent
    }

    /// The places of the children of a path.
    pub(crate) fn children(&self, p: &Path) -> &[usize]
        ensures places { result.now ≡ children_in self.now.paths p.now }
        ensures below { AllByRecursion (λ i. i < length self.now.paths) result.now }
    {
        match self.position(p) {
            Some(i) => &self.nodes[i].children,
            None => {
                if p.segments().is_empty() {
                    &self.top
                } else {
                    &[]
                }
            }
        }
    }

    /// Each path stands once, and its parent before it.
    pub fn is_table(&self)
        ensures { IsTable self.now }
    {
        let _count = self.contents.len();
    }

    /// Whether this content has the number.
    fn has_number(&self, n: usize, c: &Text) -> bool
        ensures { IsTrue result ↔ (slice_get self.now.contents n ≡ Some c.now) }
    {
        if n < self.contents.len() {
            self.contents[n].as_str() == c.as_str()
        } else {
            false
        }
    }

    /// The number of a content, if the table has it.
    pub fn number(&self, c: &Text) -> Option<u64>
        ensures { result ≡ content_place self.now.contents c.now }
    {
        let Some(found) = self.numbers.get(c) else {
            return None;
        };
        let n = *found;
        if self.has_number(n, c) {
            Some(n as u64)
        } else {
            None
        }
    }
}
