//! Lines on trees and outcomes.

ghost use Rattle.std.specs.Prelude.{◌≡◌, ◌++◌, OnOk};
ghost use Rattle.fs_lang.specs.Outcomes.{outcome_of};
ghost use Rattle.verdict_text.specs.Lines.{tree_line, outcome_text, outcome_line};

use fs_lang::{Outcome, Tree};
use rh_base::NoMemory;
use std::alloc::Global;
use tree_text::tree_to_json;

/// Appends bytes.
pub fn push_bytes(bytes: &[u8], into: &mut Vec<u8>) -> Result<(), NoMemory>
    ensures { OnOk result (into.new.items ≡ into.old.items ++ bytes.now) }
{
    into.extend_from_slice(bytes)?;
    Ok(())
}

/// Appends a line on a file tree.
pub fn push_tree(alloc: Global, tree: &Tree, into: &mut Vec<u8>) -> Result<(), NoMemory>
    ensures { OnOk result (into.new.items ≡ into.old.items ++ tree_line tree.now) }
{
    push_bytes(b"tree ", into)?;
    tree_to_json(alloc, tree, into)?;
    push_bytes(b"\n", into)
}

fn push_ending(alloc: Global, ended: &Outcome, into: &mut Vec<u8>) -> Result<(), NoMemory>
    ensures { OnOk result (into.new.items ≡ into.old.items ++ outcome_text (outcome_of ended.now)) }
{
    match ended {
        Outcome::Ended(tree) => tree_to_json(alloc, tree, into),
        Outcome::Error => push_bytes(b"error", into),
    }
}

/// Appends a line on an outcome.
pub fn push_outcome(alloc: Global, ended: &Outcome, into: &mut Vec<u8>) -> Result<(), NoMemory>
    ensures { OnOk result (into.new.items ≡ into.old.items ++ outcome_line (outcome_of ended.now)) }
{
    push_bytes(b"outcome ", into)?;
    push_ending(alloc, ended, into)?;
    push_bytes(b"\n", into)
}
