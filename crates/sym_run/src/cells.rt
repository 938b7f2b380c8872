//! Cells whose bits are inputs.

ghost use Rattle.std.specs.Prelude.{◌≡◌, ◌+◌, ◌*◌, ◌<◌, false, length, IfOk, OnOk};
ghost use Rattle.bool_circuit.specs.Gates.{Grows, input_count, wire_value};
ghost use Rattle.fs_interpreter.specs.Meanings.{Valuation};
ghost use Rattle.sym_run.specs.Inputs.{AreInputCells};

use crate::inputs::{new_inputs, new_rows};
use crate::sym::Sym;
use bool_circuit::Wire;
use fs_interpreter::Cells;
use rh_base::NoMemory;
use std::alloc::Global;

/// Cells at so many places, whose bits and codes are new inputs.
pub(crate) fn input_cells(
    alloc: Global,
    sym: &mut Sym,
    n: u64,
    width: u64,
) -> Result<Cells<Sym>, NoMemory>
    ensures cells { IfOk result (AreInputCells sym.new (input_count sym.old) n width) }
    ensures count { OnOk result (input_count sym.new ≡ input_count sym.old + n + n + n + n * width) }
    ensures grows { Grows sym.old sym.new }
{
    let present = new_inputs(alloc, sym, n)?;
    let folder = new_inputs(alloc, sym, n)?;
    let link = new_inputs(alloc, sym, n)?;
    let content = new_rows(alloc, sym, n, width)?;
    let error = no_error(sym)?;
    Ok(Cells {
        present,
        folder,
        link,
        content,
        error,
    })
}

/// A wire that is never true.
fn no_error(sym: &mut Sym) -> Result<Wire, NoMemory>
    ensures wire { IfOk result (λ w. w.0 < length sym.new) }
    ensures value { IfOk result (λ w. (v : Valuation) → wire_value sym.new v w.0 ≡ false) }
    ensures inputs { input_count sym.new ≡ input_count sym.old }
    ensures grows { Grows sym.old sym.new }
{
    sym.circuit.constant(false)
}
