//! The differences of two trees.

ghost use Rattle.std.specs.Prelude.{◌≡◌, ◌≢◌, ℕ, List, map, OnOk, IfOk, IsTrue};
ghost use Rattle.std.specs.FinMap as finite;
ghost use Rattle.fs_semantics.specs.FileTree.{Path as P};
ghost use Rattle.fs_lang.specs.PathText.{path_text};
ghost use Rattle.tree_differences.specs.Differences.{AreDifferences};
ghost use Rattle.tree_differences.specs.Listed.{difference_of, AreListed, HasText};

use crate::entries::same_found;
use crate::placing::{Difference, place};
use fs_lang::{Path, Tree, path_texts};
use rh_base::NoMemory;
use std::alloc::Global;

/// Lists the path, if the trees differ there.
fn add<'a>(
    alloc: Global,
    first: &'a Tree,
    second: &'a Tree,
    p: &'a Path,
    into: &mut Vec<Difference<'a>>,
) -> Result<(), NoMemory>
    ensures listed { OnOk result (AreListed first.now second.now into.old.items → AreListed first.now second.now into.new.items) }
    ensures keeps { OnOk result ((text : List ℕ) → HasText into.old.items text → HasText into.new.items text) }
    ensures there { OnOk result (finite.get first.now p.now ≢ finite.get second.now p.now → HasText into.new.items (path_text p.now)) }
{
    let left = first.get(p);
    let right = second.get(p);
    if same_found(left, right) {
        return Ok(());
    }
    let text = p.text(alloc)?;
    let difference = Difference {
        path: p,
        text,
        first: left,
        second: right,
    };
    place(into, difference)
}

/// Lists the paths of a tree at which the two differ.
fn add_all<'a>(
    alloc: Global,
    first: &'a Tree,
    second: &'a Tree,
    from: &'a Tree,
    into: &mut Vec<Difference<'a>>,
) -> Result<(), NoMemory>
    ensures listed { OnOk result (AreListed first.now second.now into.old.items → AreListed first.now second.now into.new.items) }
    ensures keeps { OnOk result ((text : List ℕ) → HasText into.old.items text → HasText into.new.items text) }
    ensures there { OnOk result ((p : P) → IsTrue (finite.contains_key from.now p)
        → finite.get first.now p ≢ finite.get second.now p → HasText into.new.items (path_text p)) }
{
    for (p, _) in from.entries() {
        add(alloc, first, second, p, into)?;
    }
    Ok(())
}

/// The paths at which two trees differ, with what stands there in each, in the order of the bytes of their texts.
pub fn differences<'a>(
    alloc: Global,
    first: &'a Tree,
    second: &'a Tree,
) -> Result<Vec<Difference<'a>>, NoMemory>
    ensures { IfOk result (λ ds. AreDifferences first.now second.now (map difference_of ds.items)) }
{
    first.is_tree();
    second.is_tree();
    path_texts();
    let mut list = Vec::new(alloc);
    add_all(alloc, first, second, first, &mut list)?;
    add_all(alloc, first, second, second, &mut list)?;
    Ok(list)
}
