//! Tables that have what programs and trees name.

ghost use Rattle.std.specs.Prelude.{IfOk, OnOk, IsTrue};
ghost use Rattle.fs_semantics.specs.FileTree.{parent};
ghost use Rattle.fs_lang.specs.Meaning.{test_of, program_of, programs_in, entry_of};
ghost use Rattle.fs_interpreter.specs.Places.{HasPath, HasContent, Keeps, CoversTest, Covers, CoversSteps};
ghost use Rattle.fs_replay.specs.Told.{HasTree, HasNode};

use fs_interpreter::{Table, additions, searches};
use fs_lang::{Entry, Path, Program, Test, Tree};
use rh_base::{NoMemory, Text};
use std::alloc::Global;

/// The fronts of a path, from the root down.
fn cover_fronts(alloc: Global, table: &mut Table, p: &Path) -> Result<(), NoMemory>
    ensures there { OnOk result (HasPath table.new p.now) }
    ensures keeps { Keeps table.old table.new }
{
    additions();
    for k in 0..p.segments().len() {
        let front = p.front(alloc, k + 1)?;
        table.add_path(alloc, front)?;
    }
    Ok(())
}

/// The paths above a path. Mostly its parent is there already.
fn cover_above(alloc: Global, table: &mut Table, p: &Path) -> Result<(), NoMemory>
    ensures there { OnOk result (HasPath table.new (parent p.now)) }
    ensures keeps { Keeps table.old table.new }
{
    let above = p.parent(alloc)?;
    if has_path(table, &above) {
        return Ok(());
    }
    cover_fronts(alloc, table, &above)
}

fn has_path(table: &Table, p: &Path) -> bool
    ensures { IsTrue result → HasPath table.now p.now }
{
    searches();
    match table.place(p) {
        Some(_) => true,
        None => false,
    }
}

/// The path, and those above it. Mostly it is there already, since a program names a path several times.
pub(crate) fn cover_path(alloc: Global, table: &mut Table, p: &Path) -> Result<(), NoMemory>
    ensures there { OnOk result (HasPath table.new p.now) }
    ensures keeps { Keeps table.old table.new }
{
    additions();
    if p.segments().is_empty() || has_path(table, p) {
        return Ok(());
    }
    cover_above(alloc, table, p)?;
    table.add_path(alloc, p.copy(alloc)?)?;
    Ok(())
}

#[tactic(auto, using(crate::proofs::CoverLaws::keeps_same))]
pub(crate) fn cover_content(alloc: Global, table: &mut Table, c: &Text) -> Result<(), NoMemory>
    ensures there { OnOk result (HasContent table.new c.now) }
    ensures keeps { Keeps table.old table.new }
{
    additions();
    if has_content(table, c) {
        return Ok(());
    }
    table.add_content(alloc, c.copy(alloc)?)?;
    Ok(())
}

fn has_content(table: &Table, c: &Text) -> bool
    ensures { IsTrue result → HasContent table.now c.now }
{
    searches();
    match table.number(c) {
        Some(_) => true,
        None => false,
    }
}

#[cycle(cover_test)]
#[tactic(auto, using(fs_lang::specs::Meaning::test_of_not, fs_lang::specs::Meaning::test_of_and, fs_lang::specs::Meaning::test_of_or, crate::proofs::CoverLaws::keeps_same))]
fn cover_test(alloc: Global, table: &mut Table, test: &Test) -> Result<(), NoMemory>
    ensures covers { OnOk result (CoversTest table.new (test_of test.now)) }
    ensures keeps { Keeps table.old table.new }
{
    match test {
        Test::True => Ok(()),
        Test::False => Ok(()),
        Test::Not(a) => cover_test(alloc, table, a.get()),
        Test::And(a, b) => cover_both(alloc, table, a.get(), b.get()),
        Test::Or(a, b) => cover_both(alloc, table, a.get(), b.get()),
        Test::IsFile(p) => cover_path(alloc, table, p),
        Test::IsLink(p) => cover_path(alloc, table, p),
        Test::IsDir(p) => cover_path(alloc, table, p),
        Test::IsEmpty(p) => cover_path(alloc, table, p),
        Test::IsNone(p) => cover_path(alloc, table, p),
    }
}

#[cycle(cover_test)]
fn cover_both(alloc: Global, table: &mut Table, a: &Test, b: &Test) -> Result<(), NoMemory>
    ensures first { OnOk result (CoversTest table.new (test_of a.now)) }
    ensures second { OnOk result (CoversTest table.new (test_of b.now)) }
    ensures keeps { Keeps table.old table.new }
{
    cover_test(alloc, table, a)?;
    cover_test(alloc, table, b)
}

/// The paths and contents of a program.
#[cycle(cover)]
#[tactic(auto, using(fs_lang::specs::Meaning::program_of_steps, crate::proofs::CoverLaws::keeps_same))]
pub(crate) fn cover(alloc: Global, table: &mut Table, program: &Program) -> Result<(), NoMemory>
    ensures covers { OnOk result (Covers table.new (program_of program.now)) }
    ensures keeps { Keeps table.old table.new }
{
    match program {
        Program::Id => Ok(()),
        Program::Err => Ok(()),
        Program::Mkdir(p) => cover_path(alloc, table, p),
        Program::Creat(p, content) => cover_entry(alloc, table, p, content),
        Program::Link(p, target) => cover_entry(alloc, table, p, target),
        Program::Rm(p) => cover_path(alloc, table, p),
        Program::Cp(p, q) => cover_paths(alloc, table, p, q),
        Program::Steps(es) => cover_all(alloc, table, es.as_slice()),
        Program::If(a, e, f) => cover_branches(alloc, table, a, e.get(), f.get()),
    }
}

fn cover_entry(alloc: Global, table: &mut Table, p: &Path, text: &Text) -> Result<(), NoMemory>
    ensures path { OnOk result (HasPath table.new p.now) }
    ensures content { OnOk result (HasContent table.new text.now) }
    ensures keeps { Keeps table.old table.new }
{
    cover_path(alloc, table, p)?;
    cover_content(alloc, table, text)
}

fn cover_paths(alloc: Global, table: &mut Table, p: &Path, q: &Path) -> Result<(), NoMemory>
    ensures first { OnOk result (HasPath table.new p.now) }
    ensures second { OnOk result (HasPath table.new q.now) }
    ensures keeps { Keeps table.old table.new }
{
    cover_path(alloc, table, p)?;
    cover_path(alloc, table, q)
}

#[cycle(cover)]
fn cover_branches(
    alloc: Global,
    table: &mut Table,
    a: &Test,
    e: &Program,
    f: &Program,
) -> Result<(), NoMemory>
    ensures test { OnOk result (CoversTest table.new (test_of a.now)) }
    ensures first { OnOk result (Covers table.new (program_of e.now)) }
    ensures second { OnOk result (Covers table.new (program_of f.now)) }
    ensures keeps { Keeps table.old table.new }
{
    cover_test(alloc, table, a)?;
    cover(alloc, table, e)?;
    cover(alloc, table, f)
}

/// The paths and contents of all programs.
#[cycle(cover)]
pub(crate) fn cover_all(
    alloc: Global,
    table: &mut Table,
    programs: &[Program],
) -> Result<(), NoMemory>
    ensures covers { OnOk result (CoversSteps table.new (programs_in programs.now)) }
    ensures keeps { Keeps table.old table.new }
{
    for program in programs {
        cover(alloc, table, program)?;
    }
    Ok(())
}

fn cover_node(alloc: Global, table: &mut Table, p: &Path, entry: &Entry) -> Result<(), NoMemory>
    ensures has { OnOk result (HasNode table.new p.now (entry_of entry.now)) }
    ensures keeps { Keeps table.old table.new }
{
    match entry {
        Entry::Folder => cover_path(alloc, table, p),
        Entry::File(content) => cover_entry(alloc, table, p, content),
        Entry::Link(target) => cover_entry(alloc, table, p, target),
    }
}

/// A table that has the paths and contents of a tree.
pub(crate) fn table_of(alloc: Global, tree: &Tree) -> Result<Table, NoMemory>
    ensures { IfOk result (λ table. HasTree table tree.now) }
{
    let mut table = Table::new(alloc)?;
    for (p, entry) in tree.entries() {
        cover_node(alloc, &mut table, p, entry)?;
    }
    Ok(table)
}
