//! The question whether the first extension ends in a tree without a wanted entry.

ghost use Rattle.std.specs.Prelude.{◌≡◌, ◌↔◌, ◌<◌, ◌&&◌, true, not, map, length, IfOk};
ghost use Rattle.bool_circuit.specs.Gates.{wire_value};
ghost use Rattle.cnf.specs.Formulas.{IsSatisfiable};
ghost use Rattle.fs_semantics.specs.FileTree.{Tree};
ghost use Rattle.fs_lang.specs.Meaning.{program_of, programs_in};
ghost use Rattle.fs_interpreter.specs.Meanings.{Valuation, Grows, IsBit};
ghost use Rattle.fs_interpreter.specs.Places.{CoversSteps};
ghost use Rattle.fs_interpreter.specs.Standing.{Stands};
ghost use Rattle.fs_interpreter.specs.States.{AreCells, cell_at, state_of};
ghost use Rattle.sym_run.specs.Wires.{circuit_meanings};
ghost use Rattle.order_encode.specs.Asking.{AreTrees};
ghost use Rattle.order_encode.specs.Asked.{CanShow};
ghost use Rattle.order_encode.specs.Goals.{TellsTree};
ghost use Rattle.order_encode.specs.Told.{wanted_told};
ghost use Rattle.order_encode.specs.Missing.{EndsMissing, HasMissing, ShowsMissing};
ghost use Rattle.order_encode.specs.declared.witness.Witness.{Witness};

use crate::asking::tree_inputs;
use crate::asks::{Asks, Goal};
use crate::known::run_known;
use crate::plan::Schedule;
use crate::question::{Question, pose};
use crate::wanted::has_wanted;
use bool_circuit::Wire;
use fs_interpreter::{Bits, Cells, searches, states};
use fs_lang::Program;
use order_places::allowed_orders;
use orders::Order;
use path_domain::Domain;
use rh_base::NoMemory;
use std::alloc::Global;
use sym_run::Sym;
use wanted_entry::Wanted;

/// Whether the cells stand for a tree without the entry.
fn lack(
    sym: &mut Sym,
    domain: &Domain,
    cells: &Cells<Sym>,
    wanted: &Wanted,
) -> Result<Wire, NoMemory>
    requires cells { AreCells (circuit_meanings sym.old) cells.now }
    requires places { length cells.now.present ≡ length domain.now.table.paths }
    ensures gives { IfOk result
        (IsBit (circuit_meanings sym.new)
        (λ v. not (state_of (circuit_meanings sym.old) v cells.now).error
        && not (wanted_told domain.now.table wanted.now (cell_at (circuit_meanings sym.old) v cells.now)))) }
    ensures grows { Grows (circuit_meanings sym.old) (circuit_meanings sym.new) }
{
    let has = has_wanted(sym, &domain.table, cells, wanted)?;
    let missing = sym.not(&has)?;
    let ended = sym.not(&cells.error)?;
    sym.and(&ended, &missing)
}

/// Whether the order ends in a tree without the entry, from the tree for which the cells stand.
fn misses(
    alloc: Global,
    sym: &mut Sym,
    schedule: &Schedule<'_>,
    wanted: &Wanted,
    start: &Cells<Sym>,
) -> Result<Wire, NoMemory>
    requires cells { AreCells (circuit_meanings sym.old) start.now }
    requires places { length start.now.present ≡ length schedule.now.domain.table.paths }
    ensures wire { IfOk result (λ w. w.0 < length sym.new) }
    ensures exact { IfOk result (λ w. (v : Valuation) (t : Tree)
        → Stands schedule.now.domain.table (state_of (circuit_meanings sym.old) v start.now) t
        → (wire_value sym.new v w.0 ≡ true) ↔ EndsMissing (map program_of schedule.now.programs) schedule.now.order wanted.now t) }
    ensures grows { Grows (circuit_meanings sym.old) (circuit_meanings sym.new) }
{
    schedule.domain.table.is_table();
    searches();
    let made = run_known(alloc, sym, schedule, start)?;
    lack(sym, schedule.domain, &made, wanted)
}

/// Whether the inputs tell a tree over the domain from which the order ends in a tree without the entry.
fn goal_of_missing(
    alloc: Global,
    sym: &mut Sym,
    schedule: &Schedule<'_>,
    wanted: &Wanted,
    start: &Cells<Sym>,
    well: Wire,
) -> Result<Wire, NoMemory>
    requires trees { AreTrees sym.old schedule.now.domain start.now well }
    ensures wire { IfOk result (λ w. w.0 < length sym.new) }
    ensures exact { IfOk result (λ w. (v : Valuation) → (wire_value sym.new v w.0 ≡ true)
        ↔ TellsTree schedule.now.domain sym.old start.now (EndsMissing (map program_of schedule.now.programs) schedule.now.order wanted.now) v) }
    ensures grows { Grows (circuit_meanings sym.old) (circuit_meanings sym.new) }
{
    let missed = misses(alloc, sym, schedule, wanted, start)?;
    sym.and(&well, &missed)
}

/// Whether the first extension ends, from a tree over the domain, in a tree without the wanted entry.
pub fn ask_missing(
    alloc: Global,
    programs: &[Program],
    order: &Order,
    domain: &Domain,
    wanted: &Wanted,
) -> Result<Question, NoMemory>
    requires nodes { length programs.now ≡ order.now.count }
    requires covers { CoversSteps domain.now.table (programs_in programs.now) }
    ensures exact { IfOk result (λ q. IsSatisfiable q.formula ↔ HasMissing (map program_of programs.now) order.now domain.now wanted.now) }
    ensures models { IfOk result (λ q. (w : Witness) → CanShow q w
        → ShowsMissing (map program_of programs.now) order.now domain.now wanted.now w) }
{
    states();
    allowed_orders();
    let first = order.first_extension()?;
    let (mut sym, cells, well) = tree_inputs(alloc, domain)?;
    let schedule = Schedule {
        domain,
        programs,
        order: first.as_slice(),
    };
    let wire = goal_of_missing(alloc, &mut sym, &schedule, wanted, &cells, well)?;
    let goal = Goal {
        wire,
        firsts: Vec::new(alloc),
    };
    pose(alloc, sym, cells, Asks::Ends { order: first }, goal, domain)
}
