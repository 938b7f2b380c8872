//! Paths of which none stands twice.

ghost use Rattle.std.specs.Prelude.{◌≡◌, [], map, not, IfOk, OnOk, OnErr};
ghost use Rattle.fs_semantics.specs.FileTree.{is_among};
ghost use Rattle.pkg_listing.specs.Packages.{with_path};

use fs_lang::{Path, path_texts};
use fs_semantics::paths;
use pp_value::Keyed;
use rh_base::{NoMemory, Text};
use std::alloc::Global;
use std::marker::Model;

/// Paths, each once, in the order in which they were added, found by their hashes.
#[derive(Drop)]
pub struct PathSet {
    paths: Keyed<Path>,
}

impl Model for PathSet {
    ghost use Rattle.std.specs.Prelude.{List, ℕ, map};
    ghost use Rattle.pkg_listing.specs.Packages.{AreKeyed};

    ghost Value = { List (List (List ℕ)) };

    ghost view = { λ s. map (λ e. e.1) s.paths };

    ghost invariant = { λ s. AreKeyed s.paths };
}

impl PathSet {
    /// No paths.
    pub fn new(alloc: Global) -> PathSet
        ensures { result ≡ [] }
    {
        PathSet {
            paths: Keyed::new(alloc),
        }
    }

    /// Adds a path unless it is there, and tells whether it is new.
    pub fn insert(&mut self, alloc: Global, p: &Path) -> Result<bool, NoMemory>
        ensures new { IfOk result (λ b. b ≡ not (is_among p.now self.old)) }
        ensures paths { OnOk result (self.new ≡ with_path self.old p.now) }
        ensures err { OnErr result (self.new ≡ self.old) }
    {
        path_texts();
        paths();
        p.segments();
        let text = p.text(alloc)?;
        if self.paths.find(text.as_str()).is_some() {
            return Ok(false);
        }
        let copy = p.copy(alloc)?;
        self.paths.push(text, copy)?;
        Ok(true)
    }

    /// The paths, each behind its text.
    pub fn as_slice(&self) -> &[(Text, Path)]
        ensures { map (λ e. e.1) result.now ≡ self.now }
    {
        self.paths.as_slice()
    }
}
