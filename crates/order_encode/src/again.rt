//! What the questions about one order ask of their inputs, as one wire.

ghost use Rattle.std.specs.Prelude.{◌≡◌, ◌≢◌, ◌↔◌, ◌<◌, true, map, length, Some, IfOk};
ghost use Rattle.bool_circuit.specs.Gates.{wire_value};
ghost use Rattle.fs_semantics.specs.FileTree.{Tree};
ghost use Rattle.fs_semantics.specs.Programs.{Outcome, and_then};
ghost use Rattle.fs_lang.specs.Meaning.{program_of};
ghost use Rattle.fs_interpreter.specs.Meanings.{Valuation, Grows};
ghost use Rattle.fs_interpreter.specs.Standing.{Stands, StandsFor};
ghost use Rattle.fs_interpreter.specs.States.{AreCells, state_of};
ghost use Rattle.sym_run.specs.Wires.{circuit_meanings};
ghost use Rattle.order_encode.specs.Asking.{AreTrees};
ghost use Rattle.order_encode.specs.Goals.{ChangesTwice, Ends, TellsTree};
ghost use Rattle.order_encode.specs.Plans.{end_of};

use crate::known::{run_known, unlike};
use crate::plan::Schedule;
use bool_circuit::Wire;
use fs_interpreter::{Bits, Cells};
use rh_base::NoMemory;
use std::alloc::Global;
use sym_run::Sym;

/// Whether the order ends in a tree from the one for which the cells stand.
fn ends(
    alloc: Global,
    sym: &mut Sym,
    schedule: &Schedule<'_>,
    start: &Cells<Sym>,
) -> Result<Wire, NoMemory>
    requires cells { AreCells (circuit_meanings sym.old) start.now }
    requires places { length start.now.present ≡ length schedule.now.domain.table.paths }
    ensures wire { IfOk result (λ w. w.0 < length sym.new) }
    ensures exact { IfOk result (λ w. (v : Valuation) (t : Tree)
        → Stands schedule.now.domain.table (state_of (circuit_meanings sym.old) v start.now) t
        → (wire_value sym.new v w.0 ≡ true) ↔ Ends (map program_of schedule.now.programs) schedule.now.order t) }
    ensures grows { Grows (circuit_meanings sym.old) (circuit_meanings sym.new) }
{
    let made = run_known(alloc, sym, schedule, start)?;
    sym.not(&made.error)
}

/// Whether a run doesn't leave as it is what the cells stand for.
fn changed_by_run(
    alloc: Global,
    sym: &mut Sym,
    schedule: &Schedule<'_>,
    cells: &Cells<Sym>,
) -> Result<Wire, NoMemory>
    requires cells { AreCells (circuit_meanings sym.old) cells.now }
    requires places { length cells.now.present ≡ length schedule.now.domain.table.paths }
    ensures wire { IfOk result (λ w. w.0 < length sym.new) }
    ensures exact { IfOk result (λ w. (v : Valuation) (o : Outcome)
        → StandsFor schedule.now.domain.table (state_of (circuit_meanings sym.old) v cells.now) o
        → (wire_value sym.new v w.0 ≡ true) ↔ (o ≢ and_then o (end_of schedule.now))) }
    ensures grows { Grows (circuit_meanings sym.old) (circuit_meanings sym.new) }
{
    let left = run_known(alloc, sym, schedule, cells)?;
    unlike(sym, schedule.domain, cells, &left)
}

/// Whether the cells stand for a tree that a run doesn't leave as it is.
fn tree_changes(
    alloc: Global,
    sym: &mut Sym,
    schedule: &Schedule<'_>,
    cells: &Cells<Sym>,
) -> Result<Wire, NoMemory>
    requires cells { AreCells (circuit_meanings sym.old) cells.now }
    requires places { length cells.now.present ≡ length schedule.now.domain.table.paths }
    ensures wire { IfOk result (λ w. w.0 < length sym.new) }
    ensures exact { IfOk result (λ w. (v : Valuation) (o : Outcome)
        → StandsFor schedule.now.domain.table (state_of (circuit_meanings sym.old) v cells.now) o
        → (wire_value sym.new v w.0 ≡ true) ↔ ((u : Tree) × (o ≡ Some u) × (end_of schedule.now u ≢ Some u))) }
    ensures grows { Grows (circuit_meanings sym.old) (circuit_meanings sym.new) }
{
    let other = changed_by_run(alloc, sym, schedule, cells)?;
    let ended = sym.not(&cells.error)?;
    sym.and(&ended, &other)
}

/// Whether the order ends in a tree, from the one for which the cells stand, that a second run doesn't leave as it is.
fn changes(
    alloc: Global,
    sym: &mut Sym,
    schedule: &Schedule<'_>,
    start: &Cells<Sym>,
) -> Result<Wire, NoMemory>
    requires cells { AreCells (circuit_meanings sym.old) start.now }
    requires places { length start.now.present ≡ length schedule.now.domain.table.paths }
    ensures wire { IfOk result (λ w. w.0 < length sym.new) }
    ensures exact { IfOk result (λ w. (v : Valuation) (t : Tree)
        → Stands schedule.now.domain.table (state_of (circuit_meanings sym.old) v start.now) t
        → (wire_value sym.new v w.0 ≡ true) ↔ ChangesTwice (map program_of schedule.now.programs) schedule.now.order t) }
    ensures grows { Grows (circuit_meanings sym.old) (circuit_meanings sym.new) }
{
    let first = run_known(alloc, sym, schedule, start)?;
    tree_changes(alloc, sym, schedule, &first)
}

/// Whether the inputs tell a tree over the domain from which the order ends in a tree.
pub(crate) fn goal_of_end(
    alloc: Global,
    sym: &mut Sym,
    schedule: &Schedule<'_>,
    start: &Cells<Sym>,
    well: Wire,
) -> Result<Wire, NoMemory>
    requires trees { AreTrees sym.old schedule.now.domain start.now well }
    ensures wire { IfOk result (λ w. w.0 < length sym.new) }
    ensures exact { IfOk result (λ w. (v : Valuation) → (wire_value sym.new v w.0 ≡ true)
        ↔ TellsTree schedule.now.domain sym.old start.now (Ends (map program_of schedule.now.programs) schedule.now.order) v) }
    ensures grows { Grows (circuit_meanings sym.old) (circuit_meanings sym.new) }
{
    let end = ends(alloc, sym, schedule, start)?;
    sym.and(&well, &end)
}

/// Whether the inputs tell a tree over the domain from which the order ends in a tree that a second run doesn't leave as it is.
pub(crate) fn goal_of_change(
    alloc: Global,
    sym: &mut Sym,
    schedule: &Schedule<'_>,
    start: &Cells<Sym>,
    well: Wire,
) -> Result<Wire, NoMemory>
    requires trees { AreTrees sym.old schedule.now.domain start.now well }
    ensures wire { IfOk result (λ w. w.0 < length sym.new) }
    ensures exact { IfOk result (λ w. (v : Valuation) → (wire_value sym.new v w.0 ≡ true)
        ↔ TellsTree schedule.now.domain sym.old start.now (ChangesTwice (map program_of schedule.now.programs) schedule.now.order) v) }
    ensures grows { Grows (circuit_meanings sym.old) (circuit_meanings sym.new) }
{
    let change = changes(alloc, sym, schedule, start)?;
    sym.and(&well, &change)
}
