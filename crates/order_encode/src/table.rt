//! A domain once more.

ghost use Rattle.std.specs.Prelude.{◌≡◌, [], IfOk, OnOk};

use fs_interpreter::{Table, searches};
use path_domain::Domain;
use rh_base::{Boxed, NoMemory, Seq};
use std::alloc::Global;

fn copy_paths(alloc: Global, table: &Table, into: &mut Table) -> Result<(), NoMemory>
    requires paths { into.old.paths ≡ [] }
    requires contents { into.old.contents ≡ [] }
    ensures paths { OnOk result (into.new.paths ≡ table.now.paths) }
    ensures contents { OnOk result (into.new.contents ≡ []) }
{
    table.is_table();
    searches();
    for i in 0..table.path_count() {
        let path = table.path(i).copy(alloc)?;
        into.add_path(alloc, path)?;
    }
    Ok(())
}

fn copy_contents(alloc: Global, table: &Table, into: &mut Table) -> Result<(), NoMemory>
    requires { into.old.contents ≡ [] }
    ensures paths { OnOk result (into.new.paths ≡ into.old.paths) }
    ensures contents { OnOk result (into.new.contents ≡ table.now.contents) }
{
    table.is_table();
    searches();
    for n in 0..table.content_count() {
        let content = table.content(n).copy(alloc)?;
        into.add_content(alloc, content)?;
    }
    Ok(())
}

/// Adds the paths and the contents of a table to one that has none.
fn copy_table(alloc: Global, table: &Table, into: &mut Table) -> Result<(), NoMemory>
    requires paths { into.old.paths ≡ [] }
    requires contents { into.old.contents ≡ [] }
    ensures paths { OnOk result (into.new.paths ≡ table.now.paths) }
    ensures contents { OnOk result (into.new.contents ≡ table.now.contents) }
{
    copy_paths(alloc, table, into)?;
    copy_contents(alloc, table, into)
}

/// The table of a domain once more; a question asks nothing of the fresh children.
fn copy_domain(alloc: Global, domain: &Domain) -> Result<Domain, NoMemory>
    ensures { IfOk result (λ copy. copy.table ≡ domain.now.table) }
{
    let mut table = Table::new(alloc)?;
    copy_table(alloc, &domain.table, &mut table)?;
    Ok(Domain {
        table,
        fresh: Seq::new(alloc),
    })
}

/// The same, boxed.
pub(crate) fn boxed_domain(alloc: Global, domain: &Domain) -> Result<Boxed<Domain>, NoMemory>
    ensures { IfOk result (λ copy. copy.table ≡ domain.now.table) }
{
    let copy = copy_domain(alloc, domain)?;
    Boxed::new(alloc, copy)
}
