//! Runs and replays.

ghost use Rattle.std.specs.Prelude.{◌≡◌, ◌↔◌, ◌<◌, length, map, IfSome, IfOk, OnOk, IsTrue};
ghost use Rattle.std.specs.List.{AllByRecursion};
ghost use Rattle.fs_semantics.specs.FileTree.{HasParents};
ghost use Rattle.fs_semantics.specs.Programs.{Outcome as Ending, and_then, run};
ghost use Rattle.fs_semantics.specs.Orders.{outcome};
ghost use Rattle.fs_lang.specs.Meaning.{program_of, programs_in};
ghost use Rattle.fs_lang.specs.Outcomes.{outcome_of};
ghost use Rattle.fs_interpreter.specs.Meanings.{plain_meanings};
ghost use Rattle.fs_interpreter.specs.Places.{CoversSteps};
ghost use Rattle.fs_interpreter.specs.States.{AreCells};
ghost use Rattle.fs_interpreter.specs.Standing.{StandsFor};
ghost use Rattle.fs_replay.specs.Told.{plain_state};

use crate::cover::{cover, table_of};
use crate::ground::Ground;
use crate::standing::{cells_of, tree_of};
use fs_interpreter::{Cells, Plain, Table, run_plain, states};
use fs_lang::{Outcome, Program, Tree};
use fs_semantics::constructs;
use rh_base::NoMemory;
use std::alloc::Global;

/// The outcome for which the cells stand.
pub(crate) fn outcome_told(
    alloc: Global,
    table: &Table,
    cells: &Cells<Plain>,
) -> Result<Outcome, NoMemory>
    requires cells { AreCells plain_meanings cells.now }
    requires places { length cells.now.present ≡ length table.now.paths }
    requires stands { (o : Ending) × StandsFor table.now (plain_state cells.now) o × IfSome o HasParents }
    ensures { IfOk result (λ o. StandsFor table.now (plain_state cells.now) (outcome_of o)) }
{
    if cells.error {
        Ok(Outcome::Error)
    } else {
        Ok(Outcome::Ended(tree_of(alloc, table, cells)?))
    }
}

/// The programs in this order, on one table and the same cells.
pub(crate) fn run_in_order(
    alloc: Global,
    table: &Table,
    programs: &[Program],
    order: &[u32],
    cells: &mut Cells<Plain>,
) -> Result<(), NoMemory>
    requires below { AllByRecursion (λ i. i < length programs.now) order.now }
    requires cells { AreCells plain_meanings cells.old }
    requires places { length cells.old.present ≡ length table.now.paths }
    requires covers { CoversSteps table.now (programs_in programs.now) }
    ensures cells { OnOk result (AreCells plain_meanings cells.new) }
    ensures places { OnOk result (length cells.new.present ≡ length table.now.paths) }
    ensures stands { OnOk result ((o : Ending) → StandsFor table.now (plain_state cells.old) o
        → StandsFor table.now (plain_state cells.new) (and_then o (outcome (map program_of programs.now) order.now))) }
{
    for i in order {
        run_plain(alloc, table, &programs[*i as usize], cells)?;
    }
    Ok(())
}

/// Runs a program on a tree.
pub fn run(alloc: Global, program: &Program, tree: &Tree) -> Result<Outcome, NoMemory>
    ensures { IfOk result (λ o. outcome_of o ≡ run (program_of program.now) tree.now) }
{
    tree.is_tree();
    constructs();
    states();
    let mut table = table_of(alloc, tree)?;
    cover(alloc, &mut table, program)?;
    let mut cells = cells_of(alloc, &table, tree)?;
    run_plain(alloc, &table, program, &mut cells)?;
    outcome_told(alloc, &table, &cells)
}

/// Whether each number of an order is below the number of programs, as `replay` needs it.
pub fn are_below(order: &[u32], n: usize) -> bool
    ensures { IsTrue result ↔ AllByRecursion (λ i. i < n) order.now }
{
    for i in order {
        if *i as usize >= n {
            return false;
        }
    }
    true
}

/// Runs programs on a tree, each number of the order one program. The table and the cells are made once for all.
pub fn replay(
    alloc: Global,
    programs: &[Program],
    order: &[u32],
    tree: &Tree,
) -> Result<Outcome, NoMemory>
    requires { AllByRecursion (λ i. i < length programs.now) order.now }
    ensures { IfOk result (λ o. outcome_of o ≡ outcome (map program_of programs.now) order.now tree.now) }
{
    tree.is_tree();
    constructs();
    states();
    let Ground {
        table,
        mut cells,
        ..
    } = Ground::of(alloc, programs, tree)?;
    run_in_order(alloc, &table, programs, order, &mut cells)?;
    outcome_told(alloc, &table, &cells)
}
