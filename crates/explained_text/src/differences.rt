//! Lines on paths at which two outcomes differ.

ghost use Rattle.std.specs.Prelude.{◌≡◌, ◌++◌, map, OnOk};
ghost use Rattle.tree_differences.specs.Listed.{difference_of};
ghost use Rattle.explained_text.specs.Lines.{difference_line, difference_lines};

use crate::found::push_found;
use rh_base::{NoMemory, Text};
use std::alloc::Global;
use tree_differences::Difference;
use tree_text::path_shown;

fn push_difference(alloc: Global, difference: &Difference, into: &mut Text) -> Result<(), NoMemory>
    ensures { OnOk result (into.new ≡ into.old ++ difference_line (difference_of difference.now)) }
{
    let shown = path_shown(alloc, difference.path)?;
    into.push("at ")?;
    into.push(shown.as_str())?;
    into.push(": ")?;
    push_found(alloc, difference.first, into)?;
    into.push(" | ")?;
    push_found(alloc, difference.second, into)?;
    into.push("\n")
}

/// Appends a line for each of the differences.
pub fn push_differences(
    alloc: Global,
    differences: &[Difference],
    into: &mut Text,
) -> Result<(), NoMemory>
    ensures { OnOk result (into.new ≡ into.old ++ difference_lines (map difference_of differences.now)) }
{
    for difference in differences {
        push_difference(alloc, difference, into)?;
    }
    Ok(())
}
