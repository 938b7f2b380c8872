//! Runs over truth values.

ghost use Rattle.std.specs.Prelude.{◌≡◌, length, OnOk};
ghost use Rattle.fs_semantics.specs.Programs.{Outcome, and_then, run};
ghost use Rattle.fs_lang.specs.Meaning.{program_of};
ghost use Rattle.fs_interpreter.specs.Meanings.{Valuation, plain_meanings};
ghost use Rattle.fs_interpreter.specs.Places.{Covers};
ghost use Rattle.fs_interpreter.specs.States.{AreCells, state_of};
ghost use Rattle.fs_interpreter.specs.Standing.{StandsFor};

use crate::cells::Cells;
use crate::plain::Plain;
use crate::run::run_with;
use crate::table::Table;
use fs_lang::Program;
use rh_base::NoMemory;
use std::alloc::Global;

/// Runs a program on cells of truth values.
pub fn run_plain(
    alloc: Global,
    table: &Table,
    program: &Program,
    cells: &mut Cells<Plain>,
) -> Result<(), NoMemory>
    requires cells { AreCells plain_meanings cells.old }
    requires places { length cells.old.present ≡ length table.now.paths }
    requires covers { Covers table.now (program_of program.now) }
    ensures cells { OnOk result (AreCells plain_meanings cells.new) }
    ensures places { OnOk result (length cells.new.present ≡ length table.now.paths) }
    ensures stands { OnOk result ((v : Valuation) (o : Outcome)
        → StandsFor table.now (state_of plain_meanings v cells.old) o
        → StandsFor table.now (state_of plain_meanings v cells.new) (and_then o (run (program_of program.now)))) }
{
    let mut bits = Plain;
    run_with(alloc, &mut bits, table, program, cells)
}
