//! Runs in a known order, and whether two runs end differently.

ghost use Rattle.std.specs.Prelude.{◌≡◌, ◌≢◌, ◌↔◌, ◌<◌, true, length, IfOk, OnOk};
ghost use Rattle.bool_circuit.specs.Gates.{wire_value};
ghost use Rattle.fs_semantics.specs.Programs.{Outcome, and_then};
ghost use Rattle.fs_interpreter.specs.Meanings.{Valuation, Grows};
ghost use Rattle.fs_interpreter.specs.Standing.{StandsFor};
ghost use Rattle.fs_interpreter.specs.States.{AreCells, state_of};
ghost use Rattle.sym_run.specs.Wires.{circuit_meanings};
ghost use Rattle.order_encode.specs.Plans.{end_of};

use crate::plan::Schedule;
use bool_circuit::Wire;
use fs_interpreter::{Bits, Cells};
use order_circuit::copy_cells;
use path_domain::Domain;
use rh_base::NoMemory;
use std::alloc::Global;
use sym_run::{Sym, alike, sym_apply};

/// Runs the programs of a schedule.
fn run_steps(
    alloc: Global,
    sym: &mut Sym,
    schedule: &Schedule<'_>,
    cells: &mut Cells<Sym>,
) -> Result<(), NoMemory>
    requires cells { AreCells (circuit_meanings sym.old) cells.old }
    requires places { length cells.old.present ≡ length schedule.now.domain.table.paths }
    ensures stands { OnOk result ((v : Valuation) (o : Outcome)
        → StandsFor schedule.now.domain.table (state_of (circuit_meanings sym.old) v cells.old) o
        → StandsFor schedule.now.domain.table (state_of (circuit_meanings sym.new) v cells.new)
        (and_then o (end_of schedule.now))) }
    ensures cells { OnOk result (AreCells (circuit_meanings sym.new) cells.new) }
    ensures places { OnOk result (length cells.new.present ≡ length schedule.now.domain.table.paths) }
    ensures grows { Grows (circuit_meanings sym.old) (circuit_meanings sym.new) }
{
    let domain = schedule.domain;
    let programs = schedule.programs;
    let order = schedule.order;
    for i in order {
        sym_apply(alloc, sym, domain, &programs[*i as usize], cells)?;
    }
    Ok(())
}

/// What the programs of a schedule make of the cells.
pub(crate) fn run_known(
    alloc: Global,
    sym: &mut Sym,
    schedule: &Schedule<'_>,
    start: &Cells<Sym>,
) -> Result<Cells<Sym>, NoMemory>
    requires cells { AreCells (circuit_meanings sym.old) start.now }
    requires places { length start.now.present ≡ length schedule.now.domain.table.paths }
    ensures cells { IfOk result (AreCells (circuit_meanings sym.new)) }
    ensures places { IfOk result (λ made. length made.present ≡ length schedule.now.domain.table.paths) }
    ensures stands { IfOk result (λ made. (v : Valuation) (o : Outcome)
        → StandsFor schedule.now.domain.table (state_of (circuit_meanings sym.old) v start.now) o
        → StandsFor schedule.now.domain.table (state_of (circuit_meanings sym.new) v made)
        (and_then o (end_of schedule.now))) }
    ensures grows { Grows (circuit_meanings sym.old) (circuit_meanings sym.new) }
{
    let mut cells = copy_cells(alloc, sym, schedule.domain, start)?;
    run_steps(alloc, sym, schedule, &mut cells)?;
    Ok(cells)
}

/// Whether the one cells stand for another outcome than the others.
pub(crate) fn unlike(
    sym: &mut Sym,
    domain: &Domain,
    a: &Cells<Sym>,
    b: &Cells<Sym>,
) -> Result<Wire, NoMemory>
    requires a { AreCells (circuit_meanings sym.old) a.now }
    requires b { AreCells (circuit_meanings sym.old) b.now }
    requires a_places { length a.now.present ≡ length domain.now.table.paths }
    requires b_places { length b.now.present ≡ length domain.now.table.paths }
    ensures wire { IfOk result (λ w. w.0 < length sym.new) }
    ensures exact { IfOk result (λ w. (v : Valuation) (o u : Outcome)
        → StandsFor domain.now.table (state_of (circuit_meanings sym.old) v a.now) o
        → StandsFor domain.now.table (state_of (circuit_meanings sym.old) v b.now) u → (wire_value sym.new v w.0 ≡ true)
        ↔ (o ≢ u)) }
    ensures grows { Grows (circuit_meanings sym.old) (circuit_meanings sym.new) }
{
    let same = alike(sym, domain, a, b)?;
    sym.not(&same)
}
