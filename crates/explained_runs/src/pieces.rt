//! The lines, piece by piece.

ghost use Rattle.std.specs.Prelude.{◌≡◌, ◌++◌, OnOk};
ghost use Rattle.explained_runs.specs.Lines.{exchange_line, first_line, second_line, from_line};

use fs_lang::Tree;
use rh_base::NoMemory;
use std::alloc::Global;
use tree_text::tree_to_json;
use verdict_text::push_bytes;

/// Appends the neighbours that are exchanged.
pub(crate) fn push_exchange(
    alloc: Global,
    a: &str,
    b: &str,
    into: &mut Vec<u8>,
) -> Result<(), NoMemory>
    ensures { OnOk result (into.new.items ≡ into.old.items ++ exchange_line a.now b.now) }
{
    let line = format!(in alloc; "exchanged {a} and {b}\n")?;
    push_bytes(line.as_str().as_bytes(), into)
}

/// Appends how the run ends in which this neighbour comes first.
pub(crate) fn push_first(
    alloc: Global,
    name: &str,
    how: &str,
    into: &mut Vec<u8>,
) -> Result<(), NoMemory>
    ensures { OnOk result (into.new.items ≡ into.old.items ++ first_line name.now how.now) }
{
    let line = format!(in alloc; "{name} first: {how}\n")?;
    push_bytes(line.as_str().as_bytes(), into)
}

/// Appends how the second run ends.
pub(crate) fn push_second(alloc: Global, how: &str, into: &mut Vec<u8>) -> Result<(), NoMemory>
    ensures { OnOk result (into.new.items ≡ into.old.items ++ second_line how.now) }
{
    let line = format!(in alloc; "second run: {how}\n")?;
    push_bytes(line.as_str().as_bytes(), into)
}

/// Appends how the run from this tree ends.
pub(crate) fn push_from(
    alloc: Global,
    tree: &Tree,
    how: &str,
    into: &mut Vec<u8>,
) -> Result<(), NoMemory>
    ensures { OnOk result (into.new.items ≡ into.old.items ++ from_line tree.now how.now) }
{
    push_bytes(b"from ", into)?;
    tree_to_json(alloc, tree, into)?;
    let rest = format!(in alloc; ": {how}\n")?;
    push_bytes(rest.as_str().as_bytes(), into)
}
