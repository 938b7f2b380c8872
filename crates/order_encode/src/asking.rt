//! The inputs of a question.

ghost use Rattle.std.specs.Prelude.{IfOk};
ghost use Rattle.fs_semantics.specs.FileTree.{Tree};
ghost use Rattle.fs_interpreter.specs.Meanings.{Valuation, Grows};
ghost use Rattle.fs_interpreter.specs.Standing.{Stands};
ghost use Rattle.fs_interpreter.specs.States.{state_of};
ghost use Rattle.sym_run.specs.Trees.{IsTreeOver};
ghost use Rattle.sym_run.specs.Wires.{circuit_meanings};
ghost use Rattle.order_encode.specs.Asking.{AreTrees, IsAsking};

use bool_circuit::Wire;
use fs_interpreter::Cells;
use path_domain::Domain;
use rh_base::{NoMemory, Seq};
use std::alloc::Global;
use sym_run::{Sym, any_tree, new_code, new_codes, width_for};

/// Cells for a tree over the domain and whether they stand for one, a code for each place of an order, and the code of one
/// place.
#[derive(Drop)]
pub(crate) struct Asking {
    pub cells: Cells<Sym>,
    pub well: Wire,
    pub codes: Seq<Seq<Wire>>,
    pub place: Seq<Wire>,
}

/// A circuit with inputs for a tree over the domain: cells, and whether they stand for one. They can stand for each.
pub(crate) fn tree_inputs(
    alloc: Global,
    domain: &Domain,
) -> Result<(Sym, Cells<Sym>, Wire), NoMemory>
    ensures trees { IfOk result (λ r. AreTrees r.0 domain.now r.1 r.2) }
    ensures every { IfOk result (λ r. (t : Tree) → IsTreeOver domain.now t → (v : Valuation)
        × Stands domain.now.table (state_of (circuit_meanings r.0) v r.1) t) }
{
    let mut sym = Sym::new(alloc)?;
    let (cells, well) = any_tree(alloc, &mut sym, domain)?;
    Ok((sym, cells, well))
}

/// New inputs for a tree over the domain, for an order of n nodes, and for a place in it.
pub(crate) fn order_inputs(
    alloc: Global,
    sym: &mut Sym,
    domain: &Domain,
    n: u32,
) -> Result<Asking, NoMemory>
    ensures asking { IfOk result (IsAsking sym.new domain.now n) }
    ensures grows { Grows (circuit_meanings sym.old) (circuit_meanings sym.new) }
{
    let width = width_for(u64::from(n));
    let place = new_code(alloc, sym, width)?;
    let codes = new_codes(alloc, sym, u64::from(n), width)?;
    let (cells, well) = any_tree(alloc, sym, domain)?;
    Ok(Asking {
        cells,
        well,
        codes,
        place,
    })
}
