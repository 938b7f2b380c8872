//! Cells kept aside while a branch of a program runs, and the choice between the two results.
//!
//! Both branches run from the same cells. States are merged where either may have written, and nowhere else, as single
//! assignment has a choice only for what was assigned (Cytron and others 1991); so all other places keep their wires.

ghost use Rattle.std.specs.Prelude.{◌≡◌, ◌<◌, length, IfOk, OnOk, if◌then◌else◌};
ghost use Rattle.std.specs.List.{AllByRecursion};
ghost use Rattle.fs_interpreter.specs.Meanings.{Valuation, Grows};
ghost use Rattle.fs_interpreter.specs.States.{AreCells, cell_at, state_of};
ghost use Rattle.fs_interpreter.specs.Changed.{IsOne, Becomes, one_told};
ghost use Rattle.fs_interpreter.specs.Steps.{with_cell};
ghost use Rattle.fs_interpreter.specs.Asides.{kept_told, read_at, put_back, put_where, AreOwn, IsAside, IsRead};

use crate::bits::Bits;
use crate::cells::{Cells, OneCell};
use rh_base::NoMemory;
use std::alloc::Global;

/// The bits of one place.
#[derive(Drop)]
pub(crate) struct Kept<B: Bits> {
    pub place: usize,
    pub cell: OneCell<B>,
}

/// The bits of some places, and the error bit.
#[derive(Drop)]
pub(crate) struct Aside<B: Bits> {
    pub cells: Vec<Kept<B>>,
    pub error: B::Bit,
}

/// The bits of a place once more; where nothing depends on the condition, a choice adds nothing to a circuit.
fn copy_cell<B: Bits>(bits: &mut B, cells: &Cells<B>, i: usize) -> Result<OneCell<B>, NoMemory>
    requires cells { AreCells (B.meanings bits.old) cells.now }
    requires place { i < length cells.now.present }
    ensures gives { IfOk result (IsOne (B.meanings bits.new) (λ v. cell_at (B.meanings bits.old) v cells.now i)) }
    ensures grows { Grows (B.meanings bits.old) (B.meanings bits.new) }
{
    let content = bits.pick(&cells.error, cells.content.at(i), cells.content.at(i))?;
    Ok(OneCell {
        present: *cells.present.at(i),
        folder: *cells.folder.at(i),
        link: *cells.link.at(i),
        content,
    })
}

fn copy_all<B: Bits>(
    alloc: Global,
    bits: &mut B,
    cells: &Cells<B>,
    places: &[usize],
) -> Result<Vec<Kept<B>>, NoMemory>
    requires cells { AreCells (B.meanings bits.old) cells.now }
    requires places { AllByRecursion (λ i. i < length cells.now.present) places.now }
    ensures own { IfOk result (λ ks. AreOwn (B.meanings bits.new) (length cells.now.present) ks.items) }
    ensures told { IfOk result (λ ks. (v : Valuation)
        → kept_told (B.meanings bits.new) v ks.items ≡ read_at places.now (cell_at (B.meanings bits.old) v cells.now)) }
    ensures grows { Grows (B.meanings bits.old) (B.meanings bits.new) }
{
    let mut kept = Vec::new(alloc);
    for i in places {
        let cell = copy_cell(bits, cells, *i)?;
        kept.push(Kept { place: *i, cell })?;
    }
    Ok(kept)
}

/// What stands at the places is kept aside.
pub(crate) fn keep<B: Bits>(
    alloc: Global,
    bits: &mut B,
    cells: &Cells<B>,
    places: &[usize],
) -> Result<Aside<B>, NoMemory>
    requires cells { AreCells (B.meanings bits.old) cells.now }
    requires places { AllByRecursion (λ i. i < length cells.now.present) places.now }
    ensures own { IfOk result (IsAside (B.meanings bits.new) (length cells.now.present)) }
    ensures read { IfOk result (IsRead (B.meanings bits.new) places.now (λ v. state_of (B.meanings bits.old) v cells.now)) }
    ensures grows { Grows (B.meanings bits.old) (B.meanings bits.new) }
{
    let kept = copy_all(alloc, bits, cells, places)?;
    Ok(Aside {
        cells: kept,
        error: cells.error,
    })
}

/// What was kept aside stands at its places again. The bits are those of `bits`.
pub(crate) fn restore<B: Bits>(bits: &B, cells: &mut Cells<B>, aside: Aside<B>)
    requires cells { AreCells (B.meanings bits.now) cells.old }
    requires aside { IsAside (B.meanings bits.now) (length cells.old.present) aside }
    ensures { Becomes (B.meanings bits.now) (B.meanings bits.now) cells.old cells.new
        (λ v s. record {
          cell = put_back (kept_told (B.meanings bits.now) v aside.cells.items) s.cell;
          error = (B.meanings bits.now).bit v aside.error;
        }) }
{
    let Aside {
        cells: mut kept,
        error,
    } = aside;
    while let Some(one) = kept.pop() {
        cells.put(one.place, one.cell);
    }
    cells.error = error;
}

/// The one cell where the condition holds, else what stands at the place.
fn chosen<B: Bits>(
    bits: &mut B,
    c: &B::Bit,
    one: &OneCell<B>,
    cells: &Cells<B>,
    i: usize,
) -> Result<OneCell<B>, NoMemory>
    requires cells { AreCells (B.meanings bits.old) cells.now }
    requires place { i < length cells.now.present }
    requires one { IsOne (B.meanings bits.old) (λ v. one_told (B.meanings bits.old) v one.now) one.now }
    requires c { (B.meanings bits.old).owns c.now }
    ensures gives { IfOk result
        (IsOne (B.meanings bits.new)
        (λ v. if (B.meanings bits.old).bit v c.now then one_told (B.meanings bits.old) v one.now else cell_at
        (B.meanings bits.old) v cells.now i)) }
    ensures grows { Grows (B.meanings bits.old) (B.meanings bits.new) }
{
    let present = bits.mux(c, &one.present, cells.present.at(i))?;
    let folder = bits.mux(c, &one.folder, cells.folder.at(i))?;
    let link = bits.mux(c, &one.link, cells.link.at(i))?;
    let content = bits.pick(c, &one.content, cells.content.at(i))?;
    Ok(OneCell {
        present,
        folder,
        link,
        content,
    })
}

fn choose_one<B: Bits>(
    bits: &mut B,
    c: &B::Bit,
    kept: &Kept<B>,
    cells: &mut Cells<B>,
) -> Result<(), NoMemory>
    requires cells { AreCells (B.meanings bits.old) cells.old }
    requires place { kept.now.place < length cells.old.present }
    requires one { IsOne (B.meanings bits.old) (λ v. one_told (B.meanings bits.old) v kept.now.cell) kept.now.cell }
    requires c { (B.meanings bits.old).owns c.now }
    ensures changes { OnOk result
        (Becomes (B.meanings bits.old) (B.meanings bits.new) cells.old cells.new
        (λ v s. record {
          cell = with_cell kept.now.place
              (if (B.meanings bits.old).bit v c.now then one_told
              (B.meanings bits.old) v kept.now.cell else s.cell kept.now.place) s.cell;
          error = s.error;
        })) }
    ensures grows { Grows (B.meanings bits.old) (B.meanings bits.new) }
{
    let cell = chosen(bits, c, &kept.cell, cells, kept.place)?;
    cells.put(kept.place, cell);
    Ok(())
}

fn choose_all<B: Bits>(
    bits: &mut B,
    c: &B::Bit,
    kept: &[Kept<B>],
    cells: &mut Cells<B>,
) -> Result<(), NoMemory>
    requires cells { AreCells (B.meanings bits.old) cells.old }
    requires kept { AreOwn (B.meanings bits.old) (length cells.old.present) kept.now }
    requires c { (B.meanings bits.old).owns c.now }
    ensures changes { OnOk result
        (Becomes (B.meanings bits.old) (B.meanings bits.new) cells.old cells.new
        (λ v s. record {
          cell = put_where ((B.meanings bits.old).bit v c.now) (kept_told (B.meanings bits.old) v kept.now) s.cell;
          error = s.error;
        })) }
    ensures grows { Grows (B.meanings bits.old) (B.meanings bits.new) }
{
    for one in kept {
        choose_one(bits, c, one, cells)?;
    }
    Ok(())
}

/// What was kept aside where the condition holds, else what stands there.
pub(crate) fn choose<B: Bits>(
    bits: &mut B,
    c: &B::Bit,
    aside: &Aside<B>,
    cells: &mut Cells<B>,
) -> Result<(), NoMemory>
    requires cells { AreCells (B.meanings bits.old) cells.old }
    requires aside { IsAside (B.meanings bits.old) (length cells.old.present) aside.now }
    requires c { (B.meanings bits.old).owns c.now }
    ensures changes { OnOk result
        (Becomes (B.meanings bits.old) (B.meanings bits.new) cells.old cells.new
        (λ v s. record {
          cell = put_where ((B.meanings bits.old).bit v c.now)
              (kept_told (B.meanings bits.old) v aside.now.cells.items) s.cell;
          error = if (B.meanings bits.old).bit v c.now then (B.meanings bits.old).bit v aside.now.error else s.error;
        })) }
    ensures grows { Grows (B.meanings bits.old) (B.meanings bits.new) }
{
    let error = bits.mux(c, &aside.error, &cells.error)?;
    choose_all(bits, c, &aside.cells, cells)?;
    cells.error = error;
    Ok(())
}
