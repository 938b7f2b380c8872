//! What was found of the programs so far.

ghost use Rattle.std.specs.Prelude.{◌≡◌, ◌∷◌, [], IfOk, OnOk};
ghost use Rattle.finite_domain.specs.Mentions.{At, Below, Text as Content};
ghost use Rattle.path_domain.specs.Gathered.{nothing, gathered_of, gather};

use crate::sets::add;
use fs_interpreter::Table;
use fs_lang::Path;
use rh_base::{NoMemory, Text};
use std::alloc::Global;
use std::collections::BTreeSet;

/// The paths of the programs, those whose children matter, and a table that has the contents so far.
#[derive(Drop)]
pub(crate) struct Found {
    pub paths: BTreeSet<Path>,
    pub watched: BTreeSet<Path>,
    pub table: Table,
}

/// No paths yet, and the empty text.
pub(crate) fn nothing(alloc: Global) -> Result<Found, NoMemory>
    ensures { IfOk result (λ found. gathered_of found ≡ nothing) }
{
    let mut table = Table::new(alloc)?;
    table.add_content(alloc, Text::new(alloc))?;
    Ok(Found {
        paths: BTreeSet::new(alloc),
        watched: BTreeSet::new(alloc),
        table,
    })
}

/// A path.
pub(crate) fn see(alloc: Global, found: &mut Found, p: &Path) -> Result<(), NoMemory>
    ensures { OnOk result (gathered_of found.new ≡ gather (At p.now ∷ []) (gathered_of found.old)) }
{
    add(alloc, &mut found.paths, p)
}

/// A path whose children matter.
pub(crate) fn watch(alloc: Global, found: &mut Found, p: &Path) -> Result<(), NoMemory>
    ensures { OnOk result (gathered_of found.new ≡ gather (Below p.now ∷ []) (gathered_of found.old)) }
{
    add(alloc, &mut found.paths, p)?;
    add(alloc, &mut found.watched, p)
}

/// A path with the content or the target that it gets.
pub(crate) fn write(alloc: Global, found: &mut Found, p: &Path, c: &Text) -> Result<(), NoMemory>
    ensures { OnOk result (gathered_of found.new ≡ gather (At p.now ∷ Content c.now ∷ []) (gathered_of found.old)) }
{
    add(alloc, &mut found.paths, p)?;
    found.table.add_content(alloc, c.copy(alloc)?)?;
    Ok(())
}

/// Two paths.
pub(crate) fn see_both(
    alloc: Global,
    found: &mut Found,
    from: &Path,
    p: &Path,
) -> Result<(), NoMemory>
    ensures { OnOk result (gathered_of found.new ≡ gather (At from.now ∷ At p.now ∷ []) (gathered_of found.old)) }
{
    see(alloc, found, from)?;
    see(alloc, found, p)
}
