//! Runs in the order that codes tell. At each place each program is run on the same cells, and the one is chosen that the code
//! tells; so a run costs as many times what one in a known order costs as there are programs; known orders are run without
//! codes (`order_encode`).

ghost use Rattle.std.specs.Prelude.{◌≡◌, map, length, slice_index_or, IfOk};
ghost use Rattle.fs_semantics.specs.Programs.{Outcome, Id, and_then, run};
ghost use Rattle.fs_semantics.specs.Orders.{outcome};
ghost use Rattle.fs_lang.specs.Meaning.{program_of, programs_in};
ghost use Rattle.fs_interpreter.specs.Meanings.{Valuation, Grows};
ghost use Rattle.fs_interpreter.specs.Places.{Covers, CoversSteps};
ghost use Rattle.fs_interpreter.specs.Standing.{StandsFor};
ghost use Rattle.fs_interpreter.specs.States.{AreCells, state_of};
ghost use Rattle.sym_run.specs.Wires.{AreWires, circuit_meanings};
ghost use Rattle.order_circuit.specs.Codes.{AreRows, node, nodes};

use crate::picks::tells;
use bool_circuit::Wire;
use fs_interpreter::Cells;
use fs_lang::Program;
use path_domain::Domain;
use rh_base::{NoMemory, Seq};
use std::alloc::Global;
use sym_run::{Sym, choose, sym_apply};

/// The same cells once more. No gate is added but a constant.
pub fn copy_cells(
    alloc: Global,
    sym: &mut Sym,
    domain: &Domain,
    cells: &Cells<Sym>,
) -> Result<Cells<Sym>, NoMemory>
    requires cells { AreCells (circuit_meanings sym.old) cells.now }
    requires places { length cells.now.present ≡ length domain.now.table.paths }
    ensures cells { IfOk result (AreCells (circuit_meanings sym.new)) }
    ensures places { IfOk result (λ copy. length copy.present ≡ length domain.now.table.paths) }
    ensures told { IfOk result (λ copy. (v : Valuation)
        → state_of (circuit_meanings sym.new) v copy ≡ state_of (circuit_meanings sym.old) v cells.now) }
    ensures grows { Grows (circuit_meanings sym.old) (circuit_meanings sym.new) }
{
    choose(alloc, sym, domain, cells.error, cells, cells)
}

/// What the program makes of the cells, which stay.
fn run_one(
    alloc: Global,
    sym: &mut Sym,
    domain: &Domain,
    program: &Program,
    cells: &Cells<Sym>,
) -> Result<Cells<Sym>, NoMemory>
    requires cells { AreCells (circuit_meanings sym.old) cells.now }
    requires places { length cells.now.present ≡ length domain.now.table.paths }
    requires covers { Covers domain.now.table (program_of program.now) }
    ensures cells { IfOk result (AreCells (circuit_meanings sym.new)) }
    ensures places { IfOk result (λ made. length made.present ≡ length domain.now.table.paths) }
    ensures stands { IfOk result (λ made. (v : Valuation) (o : Outcome)
        → StandsFor domain.now.table (state_of (circuit_meanings sym.old) v cells.now) o
        → StandsFor domain.now.table (state_of (circuit_meanings sym.new) v made)
        (and_then o (run (program_of program.now)))) }
    ensures grows { Grows (circuit_meanings sym.old) (circuit_meanings sym.new) }
{
    let mut made = copy_cells(alloc, sym, domain, cells)?;
    sym_apply(alloc, sym, domain, program, &mut made)?;
    Ok(made)
}

/// Runs the program that the code tells.
pub fn run_place(
    alloc: Global,
    sym: &mut Sym,
    domain: &Domain,
    programs: &[Program],
    code: &Seq<Wire>,
    cells: &Cells<Sym>,
) -> Result<Cells<Sym>, NoMemory>
    requires code { AreWires sym.old code.now }
    requires cells { AreCells (circuit_meanings sym.old) cells.now }
    requires places { length cells.now.present ≡ length domain.now.table.paths }
    requires covers { CoversSteps domain.now.table (programs_in programs.now) }
    ensures cells { IfOk result (AreCells (circuit_meanings sym.new)) }
    ensures places { IfOk result (λ made. length made.present ≡ length domain.now.table.paths) }
    ensures stands { IfOk result (λ made. (v : Valuation) (o : Outcome)
        → StandsFor domain.now.table (state_of (circuit_meanings sym.old) v cells.now) o
        → StandsFor domain.now.table (state_of (circuit_meanings sym.new) v made)
        (and_then o (run (slice_index_or (map program_of programs.now) (node sym.old v code.now) Id)))) }
    ensures grows { Grows (circuit_meanings sym.old) (circuit_meanings sym.new) }
{
    let mut made = copy_cells(alloc, sym, domain, cells)?;
    for i in 0..programs.len() {
        let when = tells(sym, i as u64, code)?;
        let one = run_one(alloc, sym, domain, &programs[i], cells)?;
        made = choose(alloc, sym, domain, when, &one, &made)?;
    }
    Ok(made)
}

/// Runs the programs in the order that the codes tell.
pub(crate) fn run_in_order(
    alloc: Global,
    sym: &mut Sym,
    domain: &Domain,
    programs: &[Program],
    codes: &[Seq<Wire>],
    start: &Cells<Sym>,
) -> Result<Cells<Sym>, NoMemory>
    requires codes { AreRows sym.old codes.now }
    requires cells { AreCells (circuit_meanings sym.old) start.now }
    requires places { length start.now.present ≡ length domain.now.table.paths }
    requires covers { CoversSteps domain.now.table (programs_in programs.now) }
    ensures cells { IfOk result (AreCells (circuit_meanings sym.new)) }
    ensures places { IfOk result (λ made. length made.present ≡ length domain.now.table.paths) }
    ensures stands { IfOk result (λ made. (v : Valuation) (o : Outcome)
        → StandsFor domain.now.table (state_of (circuit_meanings sym.old) v start.now) o
        → StandsFor domain.now.table (state_of (circuit_meanings sym.new) v made)
        (and_then o (outcome (map program_of programs.now) (nodes sym.old v codes.now)))) }
    ensures grows { Grows (circuit_meanings sym.old) (circuit_meanings sym.new) }
{
    let mut cells = copy_cells(alloc, sym, domain, start)?;
    for code in codes {
        cells = run_place(alloc, sym, domain, programs, code, &cells)?;
    }
    Ok(cells)
}
