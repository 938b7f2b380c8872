//! Texts by the positions that they name, found by hash.

ghost use Rattle.std.specs.Prelude.{◌≡◌, [], ◌∷◌, ◌++◌, None, OnOk};
ghost use Rattle.allowed_order.specs.Names.{position_of, with_name};

use indexmap::IndexMap;
use rh_base::{NoMemory, Text};
use std::alloc::Global;
use std::marker::Model;

/// Texts, each with its position.
#[derive(Drop)]
pub struct Names {
    positions: IndexMap<Text, u32>,
}

impl Model for Names {
    ghost use Rattle.std.specs.Prelude.{List, ℕ};

    ghost Value = { List (List ℕ × ℕ) };

    ghost view = { λ n. n.positions.entries };
}

impl Names {
    /// No texts.
    pub fn new(alloc: Global) -> Names
        ensures { result ≡ [] }
    {
        Names {
            positions: IndexMap::new(alloc),
        }
    }

    /// The position of a text.
    pub fn find(&self, text: &Text) -> Option<u32>
        ensures { result ≡ position_of text.now self.now }
    {
        self.positions.get(text).copied()
    }

    /// Adds a text that has no position.
    fn add(&mut self, text: Text, position: u32) -> Result<(), NoMemory>
        requires { position_of text self.old ≡ None }
        ensures { OnOk result (self.new ≡ self.old ++ (text, position) ∷ []) }
    {
        self.positions.insert(text, position)?;
        Ok(())
    }

    /// Gives a text a position, unless it has one.
    pub fn put(&mut self, text: Text, position: u32) -> Result<(), NoMemory>
        ensures { OnOk result (self.new ≡ with_name self.old text position) }
    {
        match self.find(&text) {
            Some(_) => Ok(()),
            None => self.add(text, position),
        }
    }
}
