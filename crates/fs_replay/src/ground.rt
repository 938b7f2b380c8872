//! A tree made ready for many runs from it: the paths and contents that it and some programs name are numbered once.

ghost use Rattle.std.specs.Prelude.{◌≡◌, IfOk};
ghost use Rattle.fs_replay.specs.Exchanged.{IsGround};

use crate::cover::{cover_all, table_of};
use crate::standing::cells_of;
use fs_interpreter::{Cells, Plain, Table};
use fs_lang::{Program, Tree};
use rh_base::NoMemory;
use std::alloc::Global;

/// Programs and a tree from which they are run, which are lent; a table of what both name, and cells that stand for the tree.
#[derive(Drop)]
pub struct Ground<'g> {
    pub programs: &'g [Program],
    pub tree: &'g Tree,
    pub(crate) table: Table,
    pub(crate) cells: Cells<Plain>,
}

impl<'g> Ground<'g> {
    /// Makes a tree ready for runs of these programs.
    pub fn of(
        alloc: Global,
        programs: &'g [Program],
        tree: &'g Tree,
    ) -> Result<Ground<'g>, NoMemory>
        ensures programs { IfOk result (λ g. g.programs.now ≡ programs.now) }
        ensures tree { IfOk result (λ g. g.tree.now ≡ tree.now) }
        ensures ready { IfOk result IsGround }
    {
        let mut table = table_of(alloc, tree)?;
        cover_all(alloc, &mut table, programs)?;
        let cells = cells_of(alloc, &table, tree)?;
        Ok(Ground {
            programs,
            tree,
            table,
            cells,
        })
    }
}
