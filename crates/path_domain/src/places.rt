//! Paths in order, by number.

ghost use Rattle.std.specs.Prelude.{◌≡◌, ◌≤◌, ◌^◌, [], length, IfOk, OnOk};
ghost use Rattle.std.specs.List.Sorted.{IsStrictlySortedBy};
ghost use Rattle.fs_semantics.specs.FileTree.{path_cmp};
ghost use Rattle.path_domain.specs.Gathered.{members};
ghost use Rattle.path_domain.specs.Laid.{HaveParents, places_from};

use fs_interpreter::Table;
use fs_lang::Path;
use rh_base::{NoMemory, Seq};
use std::alloc::Global;
use std::collections::BTreeSet;

/// Puts the paths of the set into a table that has none.
pub(crate) fn lay(alloc: Global, paths: &BTreeSet<Path>, table: &mut Table) -> Result<(), NoMemory>
    requires empty { table.old.paths ≡ [] }
    requires parents { HaveParents paths.now.keys }
    ensures paths { OnOk result (table.new.paths ≡ paths.now.keys) }
    ensures contents { OnOk result (table.new.contents ≡ table.old.contents) }
    ensures few { OnOk result (length table.new.paths ≤ 2 ^ 64) }
    ensures in_order { OnOk result (IsStrictlySortedBy path_cmp table.new.paths) }
{
    for p in paths {
        table.add_path(alloc, p.copy(alloc)?)?;
    }
    Ok(())
}

/// The places of those paths of the table that are in the set.
pub(crate) fn places_of(
    alloc: Global,
    table: &Table,
    set: &BTreeSet<Path>,
) -> Result<Seq<u64>, NoMemory>
    ensures { IfOk result (λ places. places ≡ places_from 0 (members set.now) table.now.paths) }
{
    let mut places = Seq::new(alloc);
    for i in 0..table.path_count() {
        if set.contains(table.path(i)) {
            places.push(i)?;
        }
    }
    Ok(places)
}
