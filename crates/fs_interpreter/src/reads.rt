//! What cells tell, as bits.

ghost use Rattle.std.specs.Prelude.{◌<◌, ◌||◌, length, Some, IfOk, IfSome};
ghost use Rattle.std.specs.List.{AllByRecursion};
ghost use Rattle.fs_interpreter.specs.Meanings.{Grows, IsBit};
ghost use Rattle.fs_interpreter.specs.States.{AreCells, cell_at, CanReadAt};
ghost use Rattle.fs_interpreter.specs.Steps.{file_at, link_at, dir_at, none_at, any_present, empty_at};

use crate::bits::Bits;
use crate::cells::Cells;
use rh_base::NoMemory;

/// Whether one of the two holds.
#[tactic(auto, using(crate::proofs::Frames::or_is))]
pub(crate) fn or<B: Bits>(bits: &mut B, a: &B::Bit, b: &B::Bit) -> Result<B::Bit, NoMemory>
    requires a { (B.meanings bits.old).owns a.now }
    requires b { (B.meanings bits.old).owns b.now }
    ensures gives { IfOk result
        (IsBit (B.meanings bits.new) (λ v. (B.meanings bits.old).bit v a.now || (B.meanings bits.old).bit v b.now)) }
    ensures grows { Grows (B.meanings bits.old) (B.meanings bits.new) }
{
    let no_a = bits.not(a)?;
    let no_b = bits.not(b)?;
    let neither = bits.and(&no_a, &no_b)?;
    bits.not(&neither)
}

/// A bit that tells this.
#[tactic(auto, using(crate::proofs::Frames::cells_stay))]
pub(crate) fn truth<B: Bits>(bits: &mut B, cells: &Cells<B>, b: bool) -> Result<B::Bit, NoMemory>
    requires { AreCells (B.meanings bits.old) cells.now }
    ensures gives { IfOk result (IsBit (B.meanings bits.new) (λ v. b)) }
    ensures grows { Grows (B.meanings bits.old) (B.meanings bits.new) }
    ensures cells { AreCells (B.meanings bits.new) cells.now }
{
    bits.constant(b)
}

/// Whether there is a folder at the place; the root is one.
#[tactic(auto, using(crate::proofs::Frames::cells_stay))]
pub(crate) fn dir_at<B: Bits>(
    bits: &mut B,
    cells: &Cells<B>,
    place: Option<usize>,
) -> Result<B::Bit, NoMemory>
    requires { CanReadAt (B.meanings bits.old) cells.now place }
    ensures gives { IfOk result (IsBit (B.meanings bits.new) (λ v. dir_at place (cell_at (B.meanings bits.old) v cells.now))) }
    ensures grows { Grows (B.meanings bits.old) (B.meanings bits.new) }
    ensures cells { AreCells (B.meanings bits.new) cells.now }
{
    match place {
        Some(i) => bits.and(cells.present.at(i), cells.folder.at(i)),
        None => bits.constant(true),
    }
}

/// Whether there is a file.
fn is_file<B: Bits>(bits: &mut B, cells: &Cells<B>, i: usize) -> Result<B::Bit, NoMemory>
    requires cells { AreCells (B.meanings bits.old) cells.now }
    requires i { i < length cells.now.present }
    ensures gives { IfOk result (IsBit (B.meanings bits.new) (λ v. file_at (Some i) (cell_at (B.meanings bits.old) v cells.now))) }
    ensures grows { Grows (B.meanings bits.old) (B.meanings bits.new) }
{
    let no_folder = bits.not(cells.folder.at(i))?;
    let no_link = bits.not(cells.link.at(i))?;
    let neither = bits.and(&no_folder, &no_link)?;
    bits.and(cells.present.at(i), &neither)
}

pub(crate) fn file_at<B: Bits>(
    bits: &mut B,
    cells: &Cells<B>,
    place: Option<usize>,
) -> Result<B::Bit, NoMemory>
    requires { CanReadAt (B.meanings bits.old) cells.now place }
    ensures gives { IfOk result (IsBit (B.meanings bits.new) (λ v. file_at place (cell_at (B.meanings bits.old) v cells.now))) }
    ensures grows { Grows (B.meanings bits.old) (B.meanings bits.new) }
    ensures cells { AreCells (B.meanings bits.new) cells.now }
{
    match place {
        Some(i) => is_file(bits, cells, i),
        None => bits.constant(false),
    }
}

/// Whether there is a link.
fn is_link<B: Bits>(bits: &mut B, cells: &Cells<B>, i: usize) -> Result<B::Bit, NoMemory>
    requires cells { AreCells (B.meanings bits.old) cells.now }
    requires i { i < length cells.now.present }
    ensures gives { IfOk result (IsBit (B.meanings bits.new) (λ v. link_at (Some i) (cell_at (B.meanings bits.old) v cells.now))) }
    ensures grows { Grows (B.meanings bits.old) (B.meanings bits.new) }
{
    let no_folder = bits.not(cells.folder.at(i))?;
    let link = bits.and(&no_folder, cells.link.at(i))?;
    bits.and(cells.present.at(i), &link)
}

pub(crate) fn link_at<B: Bits>(
    bits: &mut B,
    cells: &Cells<B>,
    place: Option<usize>,
) -> Result<B::Bit, NoMemory>
    requires { CanReadAt (B.meanings bits.old) cells.now place }
    ensures gives { IfOk result (IsBit (B.meanings bits.new) (λ v. link_at place (cell_at (B.meanings bits.old) v cells.now))) }
    ensures grows { Grows (B.meanings bits.old) (B.meanings bits.new) }
    ensures cells { AreCells (B.meanings bits.new) cells.now }
{
    match place {
        Some(i) => is_link(bits, cells, i),
        None => bits.constant(false),
    }
}

/// Whether nothing is there; the root isn't such a place.
pub(crate) fn none_at<B: Bits>(
    bits: &mut B,
    cells: &Cells<B>,
    place: Option<usize>,
) -> Result<B::Bit, NoMemory>
    requires { CanReadAt (B.meanings bits.old) cells.now place }
    ensures gives { IfOk result (IsBit (B.meanings bits.new) (λ v. none_at place (cell_at (B.meanings bits.old) v cells.now))) }
    ensures grows { Grows (B.meanings bits.old) (B.meanings bits.new) }
    ensures cells { AreCells (B.meanings bits.new) cells.now }
{
    match place {
        Some(i) => bits.not(cells.present.at(i)),
        None => bits.constant(false),
    }
}

/// Whether an entry is at one of the places.
pub(crate) fn any_present<B: Bits>(
    bits: &mut B,
    cells: &Cells<B>,
    places: &[usize],
) -> Result<B::Bit, NoMemory>
    requires cells { AreCells (B.meanings bits.old) cells.now }
    requires places { AllByRecursion (λ i. i < length cells.now.present) places.now }
    ensures gives { IfOk result (IsBit (B.meanings bits.new) (λ v. any_present places.now (cell_at (B.meanings bits.old) v cells.now))) }
    ensures grows { Grows (B.meanings bits.old) (B.meanings bits.new) }
{
    let mut any = bits.constant(false)?;
    for i in places {
        any = or(bits, &any, cells.present.at(*i))?;
    }
    Ok(any)
}

/// Whether there is a folder that is the parent of no entry.
pub(crate) fn empty_at<B: Bits>(
    bits: &mut B,
    cells: &Cells<B>,
    place: Option<usize>,
    children: &[usize],
) -> Result<B::Bit, NoMemory>
    requires cells { AreCells (B.meanings bits.old) cells.now }
    requires place { IfSome place (λ i. i < length cells.now.present) }
    requires children { AllByRecursion (λ i. i < length cells.now.present) children.now }
    ensures gives { IfOk result
        (IsBit (B.meanings bits.new) (λ v. empty_at place children.now (cell_at (B.meanings bits.old) v cells.now))) }
    ensures grows { Grows (B.meanings bits.old) (B.meanings bits.new) }
    ensures cells { AreCells (B.meanings bits.new) cells.now }
{
    let any = any_present(bits, cells, children)?;
    let none = bits.not(&any)?;
    let dir = dir_at(bits, cells, place)?;
    bits.and(&dir, &none)
}
