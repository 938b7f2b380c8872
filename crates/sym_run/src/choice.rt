//! The choice between cells.

ghost use Rattle.std.specs.Prelude.{◌≡◌, ◌<◌, length, if◌then◌else◌, IfOk};
ghost use Rattle.bool_circuit.specs.Gates.{wire_value};
ghost use Rattle.fs_interpreter.specs.Meanings.{Valuation, Grows};
ghost use Rattle.fs_interpreter.specs.States.{AreCells, state_of};
ghost use Rattle.sym_run.specs.Wires.{circuit_meanings};

use crate::bitwise::{choose_bits, choose_codes};
use crate::sym::Sym;
use bool_circuit::Wire;
use fs_interpreter::{Bits, Cells};
use path_domain::Domain;
use rh_base::NoMemory;
use std::alloc::Global;

fn choose_cells<B: Bits>(
    alloc: Global,
    bits: &mut B,
    when: &B::Bit,
    a: &Cells<B>,
    b: &Cells<B>,
) -> Result<Cells<B>, NoMemory>
    requires when { (B.meanings bits.old).owns when.now }
    requires a { AreCells (B.meanings bits.old) a.now }
    requires b { AreCells (B.meanings bits.old) b.now }
    requires long { length a.now.present ≡ length b.now.present }
    ensures cells { IfOk result (AreCells (B.meanings bits.new)) }
    ensures long { IfOk result (λ cells. length cells.present ≡ length a.now.present) }
    ensures told { IfOk result (λ cells. (v : Valuation)
        → state_of (B.meanings bits.new) v cells ≡
        (if (B.meanings bits.old).bit v when.now then state_of (B.meanings bits.old) v a.now else state_of
        (B.meanings bits.old) v b.now)) }
    ensures grows { Grows (B.meanings bits.old) (B.meanings bits.new) }
{
    let present = choose_bits(alloc, bits, when, &a.present, &b.present)?;
    let folder = choose_bits(alloc, bits, when, &a.folder, &b.folder)?;
    let link = choose_bits(alloc, bits, when, &a.link, &b.link)?;
    let content = choose_codes(alloc, bits, when, &a.content, &b.content)?;
    let error = bits.mux(when, &a.error, &b.error)?;
    Ok(Cells {
        present,
        folder,
        link,
        content,
        error,
    })
}

/// The one cells where the condition holds, else the others. Where both have the same wires, these stay.
pub fn choose(
    alloc: Global,
    sym: &mut Sym,
    domain: &Domain,
    when: Wire,
    a: &Cells<Sym>,
    b: &Cells<Sym>,
) -> Result<Cells<Sym>, NoMemory>
    requires when { when.0 < length sym.old }
    requires a { AreCells (circuit_meanings sym.old) a.now }
    requires b { AreCells (circuit_meanings sym.old) b.now }
    requires a_places { length a.now.present ≡ length domain.now.table.paths }
    requires b_places { length b.now.present ≡ length domain.now.table.paths }
    ensures cells { IfOk result (AreCells (circuit_meanings sym.new)) }
    ensures places { IfOk result (λ cells. length cells.present ≡ length domain.now.table.paths) }
    ensures told { IfOk result (λ cells. (v : Valuation)
        → state_of (circuit_meanings sym.new) v cells ≡
        (if wire_value sym.old v when.0 then state_of (circuit_meanings sym.old) v a.now else state_of
        (circuit_meanings sym.old) v b.now)) }
    ensures grows { Grows (circuit_meanings sym.old) (circuit_meanings sym.new) }
{
    let _count = domain.table.path_count();
    choose_cells(alloc, sym, &when, a, b)
}
