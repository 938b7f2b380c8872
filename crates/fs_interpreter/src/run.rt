//! Runs of programs on cells.

ghost use Rattle.std.specs.Prelude.{◌≡◌, ◌<◌, ℕ, length, true, IfOk, OnOk, if◌then◌else◌};
ghost use Rattle.std.specs.List.{AllByRecursion};
ghost use Rattle.fs_semantics.specs.Programs.{Outcome, and_then, run};
ghost use Rattle.fs_interpreter.specs.Meanings.{Valuation, Grows};
ghost use Rattle.fs_interpreter.specs.Places.{has, Covers};
ghost use Rattle.fs_interpreter.specs.Standing.{StandsFor};
ghost use Rattle.fs_interpreter.specs.States.{AreCells, state_of, Fits};
ghost use Rattle.fs_interpreter.specs.Changed.{Becomes};
ghost use Rattle.fs_interpreter.specs.Asides.{IsAside, IsRead};
ghost use Rattle.fs_interpreter.specs.Steps.{stepped, all_stepped, holds_in, written};
ghost use Rattle.fs_lang.specs.Meaning.{program_of, programs_in, test_of};

use crate::bits::Bits;
use crate::branch::{Aside, choose, keep, restore};
use crate::cells::Cells;
use crate::holds::holds;
use crate::table::Table;
use crate::writes::{add_entry, copy, fail, file, folder, link, remove};
use crate::written::written_by_both;
use fs_lang::{Program, Test};
use rh_base::NoMemory;
use std::alloc::Global;

#[cycle(run)]
#[tactic(auto, using(fs_lang::specs::Meaning::program_of_steps, fs_lang::specs::Meaning::program_of_if))]
fn step<B: Bits>(
    alloc: Global,
    bits: &mut B,
    table: &Table,
    program: &Program,
    cells: &mut Cells<B>,
) -> Result<(), NoMemory>
    requires { Fits (B.meanings bits.old) table.now cells.old }
    ensures changes { OnOk result
        (Becomes (B.meanings bits.old) (B.meanings bits.new) cells.old cells.new
        (λ v s. stepped table.now (program_of program.now) s)) }
    ensures grows { Grows (B.meanings bits.old) (B.meanings bits.new) }
{
    match program {
        Program::Id => Ok(()),
        Program::Err => fail(bits, cells),
        Program::Mkdir(p) => add_entry(bits, table, p, folder(), cells),
        Program::Creat(p, content) => add_entry(bits, table, p, file(table, content), cells),
        Program::Link(p, target) => add_entry(bits, table, p, link(table, target), cells),
        Program::Rm(p) => remove(bits, table, p, cells),
        Program::Cp(p, q) => copy(bits, table, p, q, cells),
        Program::Steps(es) => step_all(alloc, bits, table, es.as_slice(), cells),
        Program::If(a, e, f) => branch(alloc, bits, table, a, e.get(), f.get(), cells),
    }
}

#[cycle(run)]
fn step_all<B: Bits>(
    alloc: Global,
    bits: &mut B,
    table: &Table,
    programs: &[Program],
    cells: &mut Cells<B>,
) -> Result<(), NoMemory>
    requires { Fits (B.meanings bits.old) table.now cells.old }
    ensures changes { OnOk result
        (Becomes (B.meanings bits.old) (B.meanings bits.new) cells.old cells.new
        (λ v s. all_stepped table.now (programs_in programs.now) s)) }
    ensures grows { Grows (B.meanings bits.old) (B.meanings bits.new) }
{
    for program in programs {
        step(alloc, bits, table, program, cells)?;
    }
    Ok(())
}

/// Both branches from the same cells, and then the choice at the places where they may write.
#[cycle(run)]
fn branch<B: Bits>(
    alloc: Global,
    bits: &mut B,
    table: &Table,
    a: &Test,
    e: &Program,
    f: &Program,
    cells: &mut Cells<B>,
) -> Result<(), NoMemory>
    requires { Fits (B.meanings bits.old) table.now cells.old }
    ensures changes { OnOk result
        (Becomes (B.meanings bits.old) (B.meanings bits.new) cells.old cells.new
        (λ v s. if holds_in table.now (test_of a.now) s.cell then stepped table.now
        (program_of e.now) s else stepped table.now (program_of f.now) s)) }
    ensures grows { Grows (B.meanings bits.old) (B.meanings bits.new) }
{
    let places = written_by_both(alloc, table, e, f)?;
    let c = holds(bits, table, a, cells)?;
    let made = try_branch(alloc, bits, table, e, &places, cells)?;
    step(alloc, bits, table, f, cells)?;
    choose(bits, &c, &made, cells)
}

/// What the program makes at the places where it may write. The cells tell again what they told.
#[cycle(run)]
fn try_branch<B: Bits>(
    alloc: Global,
    bits: &mut B,
    table: &Table,
    e: &Program,
    places: &[usize],
    cells: &mut Cells<B>,
) -> Result<Aside<B>, NoMemory>
    requires cells { AreCells (B.meanings bits.old) cells.old }
    requires places { length cells.old.present ≡ length table.now.paths }
    requires all { (j : ℕ) → has j (written table.now.paths (program_of e.now)) ≡ true → has j places.now ≡ true }
    requires below { AllByRecursion (λ i. i < length table.now.paths) places.now }
    ensures own { IfOk result (IsAside (B.meanings bits.new) (length cells.old.present)) }
    ensures read { IfOk result
        (IsRead (B.meanings bits.new) places.now
        (λ v. stepped table.now (program_of e.now) (state_of (B.meanings bits.old) v cells.old))) }
    ensures same { OnOk result (Becomes (B.meanings bits.old) (B.meanings bits.new) cells.old cells.new (λ v s. s)) }
    ensures grows { Grows (B.meanings bits.old) (B.meanings bits.new) }
{
    let old = keep(alloc, bits, cells, places)?;
    step(alloc, bits, table, e, cells)?;
    let made = keep(alloc, bits, cells, places)?;
    restore(bits, cells, old);
    Ok(made)
}

/// Runs a program on cells. Under every valuation, cells that stand for a tree come to stand for what the program makes
/// of it, and cells that stand for Error go on doing so.
pub fn run_with<B: Bits>(
    alloc: Global,
    bits: &mut B,
    table: &Table,
    program: &Program,
    cells: &mut Cells<B>,
) -> Result<(), NoMemory>
    requires cells { AreCells (B.meanings bits.old) cells.old }
    requires places { length cells.old.present ≡ length table.now.paths }
    requires covers { Covers table.now (program_of program.now) }
    ensures stands { OnOk result ((v : Valuation) (o : Outcome)
        → StandsFor table.now (state_of (B.meanings bits.old) v cells.old) o
        → StandsFor table.now (state_of (B.meanings bits.new) v cells.new)
        (and_then o (run (program_of program.now)))) }
    ensures cells { OnOk result (AreCells (B.meanings bits.new) cells.new) }
    ensures places { OnOk result (length cells.new.present ≡ length table.now.paths) }
    ensures grows { Grows (B.meanings bits.old) (B.meanings bits.new) }
{
    table.is_table();
    step(alloc, bits, table, program, cells)
}
