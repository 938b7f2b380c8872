//! Changes of cells, as bits.

ghost use Rattle.std.specs.Prelude.{◌≡◌, ◌<◌, length, Some, true, false, IfOk, OnOk, not, ◌&&◌, IfSome};
ghost use Rattle.std.specs.List.{AllByRecursion};
ghost use Rattle.fs_interpreter.specs.Meanings.{Grows, IsBit};
ghost use Rattle.fs_interpreter.specs.States.{AreCells, cell_at, Fits};
ghost use Rattle.fs_interpreter.specs.Steps.{dir_at, none_at, file_at as is_file, file_cell, any_present, free_at, failed, put as put_in, removed_at, copied_at};
ghost use Rattle.fs_interpreter.specs.Places.{place_in, children_in, number_in};
ghost use Rattle.fs_interpreter.specs.Changed.{IsOne, Becomes, one_told};

use crate::bits::Bits;
use crate::cells::{Cells, OneCell};
use crate::reads::{any_present, dir_at, file_at, or};
use crate::table::Table;
use fs_lang::Path;
use rh_base::{NoMemory, Text};

/// From now on the cells stand for Error.
pub(crate) fn fail<B: Bits>(bits: &mut B, cells: &mut Cells<B>) -> Result<(), NoMemory>
    requires { AreCells (B.meanings bits.old) cells.old }
    ensures changes { OnOk result (Becomes (B.meanings bits.old) (B.meanings bits.new) cells.old cells.new (λ v s. failed s)) }
    ensures grows { Grows (B.meanings bits.old) (B.meanings bits.new) }
{
    let error = bits.constant(true)?;
    cells.error = error;
    Ok(())
}

/// The bits are put at the place, and where the condition doesn't hold this is Error.
fn put<B: Bits>(
    bits: &mut B,
    cells: &mut Cells<B>,
    place: Option<usize>,
    ok: &B::Bit,
    cell: OneCell<B>,
) -> Result<(), NoMemory>
    requires cells { AreCells (B.meanings bits.old) cells.old }
    requires place { IfSome place (λ i. i < length cells.old.present) }
    requires ok { (B.meanings bits.old).owns ok.now }
    requires cell { IsOne (B.meanings bits.old) (λ v. one_told (B.meanings bits.old) v cell) cell }
    ensures changes { OnOk result
        (Becomes (B.meanings bits.old) (B.meanings bits.new) cells.old cells.new
        (λ v s. put_in place ((B.meanings bits.old).bit v ok.now) (one_told (B.meanings bits.old) v cell) s)) }
    ensures grows { Grows (B.meanings bits.old) (B.meanings bits.new) }
{
    match place {
        Some(i) => put_at(bits, cells, i, ok, cell),
        None => fail(bits, cells),
    }
}

fn put_at<B: Bits>(
    bits: &mut B,
    cells: &mut Cells<B>,
    i: usize,
    ok: &B::Bit,
    cell: OneCell<B>,
) -> Result<(), NoMemory>
    requires cells { AreCells (B.meanings bits.old) cells.old }
    requires place { i < length cells.old.present }
    requires ok { (B.meanings bits.old).owns ok.now }
    requires cell { IsOne (B.meanings bits.old) (λ v. one_told (B.meanings bits.old) v cell) cell }
    ensures changes { OnOk result
        (Becomes (B.meanings bits.old) (B.meanings bits.new) cells.old cells.new
        (λ v s. put_in (Some i) ((B.meanings bits.old).bit v ok.now) (one_told (B.meanings bits.old) v cell) s)) }
    ensures grows { Grows (B.meanings bits.old) (B.meanings bits.new) }
{
    let bad = bits.not(ok)?;
    let error = or(bits, &cells.error, &bad)?;
    cells.put(i, cell);
    cells.error = error;
    Ok(())
}

/// The bits that tell one entry, whatever the inputs.
pub(crate) fn new_cell<B: Bits>(
    bits: &mut B,
    folder: bool,
    link: bool,
    content: u64,
) -> Result<OneCell<B>, NoMemory>
    ensures gives { IfOk result
        (IsOne (B.meanings bits.new)
        (λ v. record { present = true; folder = folder; link = link; content = content })) }
    ensures grows { Grows (B.meanings bits.old) (B.meanings bits.new) }
{
    let content = bits.code(content)?;
    let present = bits.constant(true)?;
    let folder = bits.constant(folder)?;
    let link = bits.constant(link)?;
    Ok(OneCell {
        present,
        folder,
        link,
        content,
    })
}

/// The number of a content, 0 where the table hasn't got it.
fn number(table: &Table, content: &Text) -> u64
    ensures { result ≡ number_in table.now.contents content.now }
{
    match table.number(content) {
        Some(n) => n,
        None => 0,
    }
}

/// Whether nothing is at the path and its parent is a folder.
fn free_at<B: Bits>(
    bits: &mut B,
    table: &Table,
    p: &Path,
    cells: &Cells<B>,
) -> Result<B::Bit, NoMemory>
    requires { Fits (B.meanings bits.old) table.now cells.now }
    ensures gives { IfOk result (IsBit (B.meanings bits.new) (λ v. free_at table.now p.now (cell_at (B.meanings bits.old) v cells.now))) }
    ensures grows { Grows (B.meanings bits.old) (B.meanings bits.new) }
{
    match table.position(p) {
        Some(i) => free_place(bits, cells, i, table.parent(i)),
        None => bits.constant(false),
    }
}

fn free_place<B: Bits>(
    bits: &mut B,
    cells: &Cells<B>,
    i: usize,
    above: Option<usize>,
) -> Result<B::Bit, NoMemory>
    requires cells { AreCells (B.meanings bits.old) cells.now }
    requires place { i < length cells.now.present }
    requires above { IfSome above (λ j. j < length cells.now.present) }
    ensures gives { IfOk result
        (IsBit (B.meanings bits.new)
        (λ v. none_at (Some i) (cell_at (B.meanings bits.old) v cells.now) && dir_at above
        (cell_at (B.meanings bits.old) v cells.now))) }
    ensures grows { Grows (B.meanings bits.old) (B.meanings bits.new) }
{
    let dir = dir_at(bits, cells, above)?;
    let none = bits.not(cells.present.at(i))?;
    bits.and(&none, &dir)
}

/// The bits come to the path, where that is free.
pub(crate) fn make<B: Bits>(
    bits: &mut B,
    table: &Table,
    p: &Path,
    cell: OneCell<B>,
    cells: &mut Cells<B>,
) -> Result<(), NoMemory>
    requires cells { AreCells (B.meanings bits.old) cells.old }
    requires places { length cells.old.present ≡ length table.now.paths }
    requires cell { IsOne (B.meanings bits.old) (λ v. one_told (B.meanings bits.old) v cell) cell }
    ensures changes { OnOk result
        (Becomes (B.meanings bits.old) (B.meanings bits.new) cells.old cells.new
        (λ v s. put_in (place_in table.now.paths p.now) (free_at table.now p.now s.cell)
        (one_told (B.meanings bits.old) v cell) s)) }
    ensures grows { Grows (B.meanings bits.old) (B.meanings bits.new) }
{
    let free = free_at(bits, table, p, cells)?;
    let place = table.position(p);
    put(bits, cells, place, &free, cell)
}

/// Whether what is at the place may go: a file, a link or an empty folder.
fn removable<B: Bits>(
    bits: &mut B,
    cells: &Cells<B>,
    i: usize,
    children: &[usize],
) -> Result<B::Bit, NoMemory>
    requires cells { AreCells (B.meanings bits.old) cells.now }
    requires place { i < length cells.now.present }
    requires children { AllByRecursion (λ j. j < length cells.now.present) children.now }
    ensures gives { IfOk result
        (IsBit (B.meanings bits.new)
        (λ v. (cell_at (B.meanings bits.old) v cells.now i).present && not
        ((cell_at (B.meanings bits.old) v cells.now i).folder && any_present children.now
        (cell_at (B.meanings bits.old) v cells.now)))) }
    ensures grows { Grows (B.meanings bits.old) (B.meanings bits.new) }
{
    let any = any_present(bits, cells, children)?;
    let full = bits.and(cells.folder.at(i), &any)?;
    let other = bits.not(&full)?;
    bits.and(cells.present.at(i), &other)
}

/// Nothing is at the place from now on, and where the condition doesn't hold this is Error.
fn clear<B: Bits>(bits: &mut B, cells: &mut Cells<B>, i: usize, ok: &B::Bit) -> Result<(), NoMemory>
    requires cells { AreCells (B.meanings bits.old) cells.old }
    requires place { i < length cells.old.present }
    requires ok { (B.meanings bits.old).owns ok.now }
    ensures changes { OnOk result
        (Becomes (B.meanings bits.old) (B.meanings bits.new) cells.old cells.new
        (λ v s. put_in (Some i) ((B.meanings bits.old).bit v ok.now) (record (s.cell i) { present = false }) s)) }
    ensures grows { Grows (B.meanings bits.old) (B.meanings bits.new) }
{
    let absent = bits.constant(false)?;
    let bad = bits.not(ok)?;
    let error = or(bits, &cells.error, &bad)?;
    cells.present.set(i, absent);
    cells.error = error;
    Ok(())
}

fn remove_at<B: Bits>(
    bits: &mut B,
    cells: &mut Cells<B>,
    i: usize,
    children: &[usize],
) -> Result<(), NoMemory>
    requires cells { AreCells (B.meanings bits.old) cells.old }
    requires place { i < length cells.old.present }
    requires children { AllByRecursion (λ j. j < length cells.old.present) children.now }
    ensures changes { OnOk result
        (Becomes (B.meanings bits.old) (B.meanings bits.new) cells.old cells.new
        (λ v s. removed_at (Some i) children.now s)) }
    ensures grows { Grows (B.meanings bits.old) (B.meanings bits.new) }
{
    let gone = removable(bits, cells, i, children)?;
    clear(bits, cells, i, &gone)
}

/// A file, a link or an empty folder goes.
pub(crate) fn remove<B: Bits>(
    bits: &mut B,
    table: &Table,
    p: &Path,
    cells: &mut Cells<B>,
) -> Result<(), NoMemory>
    requires { Fits (B.meanings bits.old) table.now cells.old }
    ensures changes { OnOk result
        (Becomes (B.meanings bits.old) (B.meanings bits.new) cells.old cells.new
        (λ v s. removed_at (place_in table.now.paths p.now) (children_in table.now.paths p.now) s)) }
    ensures grows { Grows (B.meanings bits.old) (B.meanings bits.new) }
{
    match table.position(p) {
        Some(i) => remove_at(bits, cells, i, table.children(p)),
        None => fail(bits, cells),
    }
}

/// Whether a file is at the one place, and the other path is free.
fn copyable<B: Bits>(
    bits: &mut B,
    table: &Table,
    i: usize,
    q: &Path,
    cells: &Cells<B>,
) -> Result<B::Bit, NoMemory>
    requires cells { AreCells (B.meanings bits.old) cells.now }
    requires place { i < length cells.now.present }
    requires places { length cells.now.present ≡ length table.now.paths }
    ensures gives { IfOk result
        (IsBit (B.meanings bits.new)
        (λ v. is_file (Some i) (cell_at (B.meanings bits.old) v cells.now) && free_at table.now q.now
        (cell_at (B.meanings bits.old) v cells.now))) }
    ensures grows { Grows (B.meanings bits.old) (B.meanings bits.new) }
{
    let file = file_at(bits, cells, Some(i))?;
    let free = free_at(bits, table, q, cells)?;
    bits.and(&file, &free)
}

/// A file with the content that is at the place.
fn same_file<B: Bits>(bits: &mut B, cells: &Cells<B>, i: usize) -> Result<OneCell<B>, NoMemory>
    requires cells { AreCells (B.meanings bits.old) cells.now }
    requires place { i < length cells.now.present }
    ensures gives { IfOk result (IsOne (B.meanings bits.new) (λ v. file_cell (cell_at (B.meanings bits.old) v cells.now i).content)) }
    ensures grows { Grows (B.meanings bits.old) (B.meanings bits.new) }
{
    let present = bits.constant(true)?;
    let other = bits.constant(false)?;
    let content = bits.pick(&present, cells.content.at(i), cells.content.at(i))?;
    Ok(OneCell {
        present,
        folder: other,
        link: other,
        content,
    })
}

#[tactic(auto, using(crate::proofs::Frames::cells_stay))]
fn copy_from<B: Bits>(
    bits: &mut B,
    table: &Table,
    i: usize,
    q: &Path,
    cells: &mut Cells<B>,
) -> Result<(), NoMemory>
    requires cells { AreCells (B.meanings bits.old) cells.old }
    requires place { i < length cells.old.present }
    requires places { length cells.old.present ≡ length table.now.paths }
    ensures changes { OnOk result
        (Becomes (B.meanings bits.old) (B.meanings bits.new) cells.old cells.new
        (λ v s. copied_at (Some i) (place_in table.now.paths q.now) (free_at table.now q.now s.cell) s)) }
    ensures grows { Grows (B.meanings bits.old) (B.meanings bits.new) }
{
    let ok = copyable(bits, table, i, q, cells)?;
    let cell = same_file(bits, cells, i)?;
    let place = table.position(q);
    put(bits, cells, place, &ok, cell)
}

/// The file at the one path comes to the other.
pub(crate) fn copy<B: Bits>(
    bits: &mut B,
    table: &Table,
    p: &Path,
    q: &Path,
    cells: &mut Cells<B>,
) -> Result<(), NoMemory>
    requires { Fits (B.meanings bits.old) table.now cells.old }
    ensures changes { OnOk result
        (Becomes (B.meanings bits.old) (B.meanings bits.new) cells.old cells.new
        (λ v s. copied_at (place_in table.now.paths p.now) (place_in table.now.paths q.now)
        (free_at table.now q.now s.cell) s)) }
    ensures grows { Grows (B.meanings bits.old) (B.meanings bits.new) }
{
    match table.position(p) {
        Some(i) => copy_from(bits, table, i, q, cells),
        None => fail(bits, cells),
    }
}

/// An entry comes to the path, where that is free.
pub(crate) fn add_entry<B: Bits>(
    bits: &mut B,
    table: &Table,
    p: &Path,
    entry: Entry,
    cells: &mut Cells<B>,
) -> Result<(), NoMemory>
    requires { Fits (B.meanings bits.old) table.now cells.old }
    ensures changes { OnOk result
        (Becomes (B.meanings bits.old) (B.meanings bits.new) cells.old cells.new
        (λ v s. put_in (place_in table.now.paths p.now) (free_at table.now p.now s.cell)
        (record { present = true; folder = entry.folder; link = entry.link; content = entry.content }) s)) }
    ensures grows { Grows (B.meanings bits.old) (B.meanings bits.new) }
{
    let cell = new_cell(bits, entry.folder, entry.link, entry.content)?;
    make(bits, table, p, cell, cells)
}

/// What a new entry is, the content or target by its number.
#[derive(Clone, Copy)]
pub(crate) struct Entry {
    pub folder: bool,
    pub link: bool,
    pub content: u64,
}

pub(crate) fn folder() -> Entry
    ensures { result ≡ record { folder = true; link = false; content = 0 } }
{
    Entry {
        folder: true,
        link: false,
        content: 0,
    }
}

pub(crate) fn file(table: &Table, content: &Text) -> Entry
    ensures { result ≡ record { folder = false; link = false; content = number_in table.now.contents content.now } }
{
    Entry {
        folder: false,
        link: false,
        content: number(table, content),
    }
}

pub(crate) fn link(table: &Table, target: &Text) -> Entry
    ensures { result ≡ record { folder = false; link = true; content = number_in table.now.contents target.now } }
{
    Entry {
        folder: false,
        link: true,
        content: number(table, target),
    }
}
