//! Lists of bits and codes, place by place, over whatever they are made of.

ghost use Rattle.std.specs.Prelude.{◌≡◌, ◌<◌, true, length, if◌then◌else◌, IfOk, IfSome};
ghost use Rattle.fs_interpreter.specs.Meanings.{Grows, IsBit};
ghost use Rattle.fs_interpreter.specs.States.{AreCells, cell_at};
ghost use Rattle.fs_interpreter.specs.Steps.{dir_at};
ghost use Rattle.sym_run.specs.Alike.{same_truth};
ghost use Rattle.sym_run.specs.Bitwise.{AreOwnBits, AreOwnCodes, AreBits, AreCodes, bit_at, code_at};

use fs_interpreter::{Bits, Cells};
use rh_base::{NoMemory, Seq};
use std::alloc::Global;

/// The one bits where the condition holds, else the others.
pub(crate) fn choose_bits<B: Bits>(
    alloc: Global,
    bits: &mut B,
    when: &B::Bit,
    a: &Seq<B::Bit>,
    b: &Seq<B::Bit>,
) -> Result<Seq<B::Bit>, NoMemory>
    requires when { (B.meanings bits.old).owns when.now }
    requires a { AreOwnBits (B.meanings bits.old) a.now }
    requires b { AreOwnBits (B.meanings bits.old) b.now }
    requires long { length a.now ≡ length b.now }
    ensures long { IfOk result (λ chosen. length chosen ≡ length a.now) }
    ensures chosen { IfOk result
        (AreBits (B.meanings bits.new)
        (λ v i. if (B.meanings bits.old).bit v when.now then bit_at (B.meanings bits.old) v a.now i else bit_at
        (B.meanings bits.old) v b.now i)) }
    ensures grows { Grows (B.meanings bits.old) (B.meanings bits.new) }
{
    let mut chosen = Seq::new(alloc);
    for i in 0..a.len() {
        let bit = bits.mux(when, a.at(i), b.at(i))?;
        chosen.push(bit)?;
    }
    Ok(chosen)
}

/// The one codes where the condition holds, else the others.
pub(crate) fn choose_codes<B: Bits>(
    alloc: Global,
    bits: &mut B,
    when: &B::Bit,
    a: &Seq<B::Code>,
    b: &Seq<B::Code>,
) -> Result<Seq<B::Code>, NoMemory>
    requires when { (B.meanings bits.old).owns when.now }
    requires a { AreOwnCodes (B.meanings bits.old) a.now }
    requires b { AreOwnCodes (B.meanings bits.old) b.now }
    requires long { length a.now ≡ length b.now }
    ensures long { IfOk result (λ chosen. length chosen ≡ length a.now) }
    ensures chosen { IfOk result
        (AreCodes (B.meanings bits.new)
        (λ v i. if (B.meanings bits.old).bit v when.now then code_at (B.meanings bits.old) v a.now i else code_at
        (B.meanings bits.old) v b.now i)) }
    ensures grows { Grows (B.meanings bits.old) (B.meanings bits.new) }
{
    let mut chosen = Seq::new(alloc);
    for i in 0..a.len() {
        let code = bits.pick(when, a.at(i), b.at(i))?;
        chosen.push(code)?;
    }
    Ok(chosen)
}

/// Whether there is a folder at the place; the root is one.
pub(crate) fn dir_at<B: Bits>(
    bits: &mut B,
    cells: &Cells<B>,
    place: Option<u64>,
) -> Result<B::Bit, NoMemory>
    requires cells { AreCells (B.meanings bits.old) cells.now }
    requires place { IfSome place (λ i. i < length cells.now.present) }
    ensures gives { IfOk result (IsBit (B.meanings bits.new) (λ v. dir_at place (cell_at (B.meanings bits.old) v cells.now))) }
    ensures grows { Grows (B.meanings bits.old) (B.meanings bits.new) }
{
    match place {
        Some(i) => bits.and(cells.present.at(i as usize), cells.folder.at(i as usize)),
        None => bits.constant(true),
    }
}

/// Whether the two bits mean the same.
pub(crate) fn same_bit<B: Bits>(bits: &mut B, a: &B::Bit, b: &B::Bit) -> Result<B::Bit, NoMemory>
    requires a { (B.meanings bits.old).owns a.now }
    requires b { (B.meanings bits.old).owns b.now }
    ensures gives { IfOk result
        (IsBit (B.meanings bits.new)
        (λ v. same_truth ((B.meanings bits.old).bit v a.now) ((B.meanings bits.old).bit v b.now))) }
    ensures grows { Grows (B.meanings bits.old) (B.meanings bits.new) }
{
    let other = bits.not(b)?;
    bits.mux(a, b, &other)
}

/// Whether the condition fails or the bit holds.
pub(crate) fn where_holds<B: Bits>(
    bits: &mut B,
    when: &B::Bit,
    a: &B::Bit,
) -> Result<B::Bit, NoMemory>
    requires when { (B.meanings bits.old).owns when.now }
    requires a { (B.meanings bits.old).owns a.now }
    ensures gives { IfOk result
        (IsBit (B.meanings bits.new)
        (λ v. if (B.meanings bits.old).bit v when.now then (B.meanings bits.old).bit v a.now else true)) }
    ensures grows { Grows (B.meanings bits.old) (B.meanings bits.new) }
{
    let sure = bits.constant(true)?;
    bits.mux(when, a, &sure)
}

/// Whether the condition holds or the bit does.
pub(crate) fn unless_holds<B: Bits>(
    bits: &mut B,
    when: &B::Bit,
    a: &B::Bit,
) -> Result<B::Bit, NoMemory>
    requires when { (B.meanings bits.old).owns when.now }
    requires a { (B.meanings bits.old).owns a.now }
    ensures gives { IfOk result
        (IsBit (B.meanings bits.new)
        (λ v. if (B.meanings bits.old).bit v when.now then true else (B.meanings bits.old).bit v a.now)) }
    ensures grows { Grows (B.meanings bits.old) (B.meanings bits.new) }
{
    let sure = bits.constant(true)?;
    bits.mux(when, &sure, a)
}
