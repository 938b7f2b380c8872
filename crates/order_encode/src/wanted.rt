//! Whether cells tell a wanted entry, as a wire.

ghost use Rattle.std.specs.Prelude.{◌≡◌, ◌==◌, ◌&&◌, ◌<◌, not, length, Some, slice_get, IfOk};
ghost use Rattle.fs_interpreter.specs.Meanings.{Grows, IsBit};
ghost use Rattle.fs_interpreter.specs.Places.{place_in};
ghost use Rattle.fs_interpreter.specs.States.{AreCells, cell_at};
ghost use Rattle.order_encode.specs.Told.{is_file_of, entry_told, wanted_told};

use fs_interpreter::{Bits, Cells, Table};
use rh_base::{NoMemory, Text};
use wanted_entry::Wanted;

/// Whether what stands at the place, if anything does, is a file.
fn is_file<B: Bits>(bits: &mut B, cells: &Cells<B>, i: usize) -> Result<B::Bit, NoMemory>
    requires cells { AreCells (B.meanings bits.old) cells.now }
    requires place { i < length cells.now.present }
    ensures gives { IfOk result
        (IsBit (B.meanings bits.new)
        (λ v. not (cell_at (B.meanings bits.old) v cells.now i).folder && not
        (cell_at (B.meanings bits.old) v cells.now i).link)) }
    ensures grows { Grows (B.meanings bits.old) (B.meanings bits.new) }
{
    let folder = bits.not(cells.folder.at(i))?;
    let link = bits.not(cells.link.at(i))?;
    bits.and(&folder, &link)
}

/// Whether the content at the place has this number.
fn has_number<B: Bits>(bits: &mut B, cells: &Cells<B>, i: usize, n: u64) -> Result<B::Bit, NoMemory>
    requires cells { AreCells (B.meanings bits.old) cells.now }
    requires place { i < length cells.now.present }
    ensures gives { IfOk result (IsBit (B.meanings bits.new) (λ v. (cell_at (B.meanings bits.old) v cells.now i).content == n)) }
    ensures grows { Grows (B.meanings bits.old) (B.meanings bits.new) }
{
    let code = bits.code(n)?;
    bits.same(cells.content.at(i), &code)
}

/// Whether a file with the content of this number stands at the place.
fn is_file_with<B: Bits>(
    bits: &mut B,
    cells: &Cells<B>,
    i: usize,
    n: u64,
) -> Result<B::Bit, NoMemory>
    requires cells { AreCells (B.meanings bits.old) cells.now }
    requires place { i < length cells.now.present }
    ensures gives { IfOk result (IsBit (B.meanings bits.new) (λ v. is_file_of (Some n) (cell_at (B.meanings bits.old) v cells.now i))) }
    ensures grows { Grows (B.meanings bits.old) (B.meanings bits.new) }
{
    let file = is_file(bits, cells, i)?;
    let same = has_number(bits, cells, i, n)?;
    let both = bits.and(&file, &same)?;
    bits.and(cells.present.at(i), &both)
}

/// Whether a file with this content stands at the place.
fn is_file_of<B: Bits>(
    bits: &mut B,
    table: &Table,
    cells: &Cells<B>,
    i: usize,
    content: &Text,
) -> Result<B::Bit, NoMemory>
    requires cells { AreCells (B.meanings bits.old) cells.now }
    requires place { i < length cells.now.present }
    ensures gives { IfOk result
        (IsBit (B.meanings bits.new)
        (λ v. entry_told table.now.contents (Some content.now) (cell_at (B.meanings bits.old) v cells.now i))) }
    ensures grows { Grows (B.meanings bits.old) (B.meanings bits.new) }
{
    let Some(n) = table.number(content) else {
        return bits.constant(false);
    };
    is_file_with(bits, cells, i, n)
}

/// Whether the wanted entry stands at the place.
fn is_wanted_at<B: Bits>(
    bits: &mut B,
    table: &Table,
    cells: &Cells<B>,
    i: usize,
    wanted: &Wanted,
) -> Result<B::Bit, NoMemory>
    requires cells { AreCells (B.meanings bits.old) cells.now }
    requires place { i < length cells.now.present }
    ensures gives { IfOk result
        (IsBit (B.meanings bits.new)
        (λ v. entry_told table.now.contents wanted.now.content (cell_at (B.meanings bits.old) v cells.now i))) }
    ensures grows { Grows (B.meanings bits.old) (B.meanings bits.new) }
{
    match &wanted.content {
        Some(content) => is_file_of(bits, table, cells, i, content),
        None => Ok(*cells.present.at(i)),
    }
}

/// Whether the wanted entry is there. A path that the table hasn't is free, and the root has no entry.
pub(crate) fn has_wanted<B: Bits>(
    bits: &mut B,
    table: &Table,
    cells: &Cells<B>,
    wanted: &Wanted,
) -> Result<B::Bit, NoMemory>
    requires cells { AreCells (B.meanings bits.old) cells.now }
    requires places { length cells.now.present ≡ length table.now.paths }
    ensures gives { IfOk result
        (IsBit (B.meanings bits.new)
        (λ v. wanted_told table.now wanted.now (cell_at (B.meanings bits.old) v cells.now))) }
    ensures grows { Grows (B.meanings bits.old) (B.meanings bits.new) }
{
    match table.place(&wanted.path) {
        Some(i) => is_wanted_at(bits, table, cells, i as usize, wanted),
        None => bits.constant(false),
    }
}
