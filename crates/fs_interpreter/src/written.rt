//! The places at which programs may write: read off the program, whichever way its choices go.

ghost use Rattle.std.specs.Prelude.{◌≡◌, ◌<◌, ◌++◌, ◌||◌, ◌==◌, ℕ, true, length, OnOk, IfOk};
ghost use Rattle.std.specs.List.{AllByRecursion};
ghost use Rattle.fs_interpreter.specs.Places.{place_in, has};
ghost use Rattle.fs_interpreter.specs.Steps.{if_any, written, all_written};
ghost use Rattle.fs_lang.specs.Meaning.{program_of, programs_in};

use crate::table::Table;
use fs_lang::{Path, Program};
use rh_base::NoMemory;
use std::alloc::Global;

fn add_place(table: &Table, p: &Path, into: &mut Vec<usize>) -> Result<(), NoMemory>
    ensures { OnOk result (into.new.items ≡ into.old.items ++ if_any (place_in table.now.paths p.now)) }
{
    if let Some(i) = table.position(p) {
        into.push(i)?;
    }
    Ok(())
}

#[cycle(written)]
#[tactic(auto, using(fs_lang::specs::Meaning::program_of_steps, fs_lang::specs::Meaning::program_of_if))]
fn add_written(table: &Table, program: &Program, into: &mut Vec<usize>) -> Result<(), NoMemory>
    ensures { OnOk result (into.new.items ≡ into.old.items ++ written table.now.paths (program_of program.now)) }
{
    match program {
        Program::Id => Ok(()),
        Program::Err => Ok(()),
        Program::Mkdir(p) => add_place(table, p, into),
        Program::Creat(p, _) => add_place(table, p, into),
        Program::Link(p, _) => add_place(table, p, into),
        Program::Rm(p) => add_place(table, p, into),
        Program::Cp(_, p) => add_place(table, p, into),
        Program::Steps(es) => add_all_written(table, es.as_slice(), into),
        Program::If(_, e, f) => {
            add_written(table, e.get(), into)?;
            add_written(table, f.get(), into)
        }
    }
}

#[cycle(written)]
fn add_all_written(
    table: &Table,
    programs: &[Program],
    into: &mut Vec<usize>,
) -> Result<(), NoMemory>
    ensures { OnOk result (into.new.items ≡ into.old.items ++ all_written table.now.paths (programs_in programs.now)) }
{
    for program in programs {
        add_written(table, program, into)?;
    }
    Ok(())
}

/// The places at which one of the two may write.
pub(crate) fn written_by_both(
    alloc: Global,
    table: &Table,
    e: &Program,
    f: &Program,
) -> Result<Vec<usize>, NoMemory>
    ensures first { IfOk result (λ places. (j : ℕ) → has j (written table.now.paths (program_of e.now)) ≡ true
        → has j places.items ≡ true) }
    ensures second { IfOk result (λ places. (j : ℕ) → has j (written table.now.paths (program_of f.now)) ≡ true
        → has j places.items ≡ true) }
    ensures below { IfOk result (λ places. AllByRecursion (λ i. i < length table.now.paths) places.items) }
{
    let mut places = Vec::new(alloc);
    add_written(table, e, &mut places)?;
    add_written(table, f, &mut places)?;
    places.sort_unstable();
    without_repeats(alloc, &places)
}

/// A number more at the end, unless it stands last already.
fn push_new(once: &mut Vec<usize>, i: usize) -> Result<(), NoMemory>
    ensures { OnOk result ((j : ℕ) → has j once.new.items ≡ (has j once.old.items || (j == i))) }
{
    if let Some(last) = once.last() {
        if *last == i {
            return Ok(());
        }
    }
    once.push(i)?;
    Ok(())
}

/// The same numbers, neighbours that are equal only once.
fn without_repeats(alloc: Global, places: &[usize]) -> Result<Vec<usize>, NoMemory>
    ensures { IfOk result (λ once. (j : ℕ) → has j once.items ≡ has j places.now) }
{
    let mut once = Vec::new(alloc);
    for i in places {
        push_new(&mut once, *i)?;
    }
    Ok(once)
}
