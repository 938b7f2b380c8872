//! The question whether two orders, each of programs of its own, end differently: a miter (Brand 1993), as equivalence is
//! checked of circuits.

ghost use Rattle.std.specs.Prelude.{◌≡◌, ◌↔◌, ◌<◌, true, map, length, IfOk};
ghost use Rattle.std.specs.List.{AllByRecursion};
ghost use Rattle.bool_circuit.specs.Gates.{wire_value};
ghost use Rattle.cnf.specs.Formulas.{IsSatisfiable};
ghost use Rattle.fs_semantics.specs.FileTree.{Tree};
ghost use Rattle.fs_lang.specs.Meaning.{program_of, programs_in};
ghost use Rattle.fs_interpreter.specs.Meanings.{Valuation, Grows};
ghost use Rattle.fs_interpreter.specs.Places.{CoversSteps};
ghost use Rattle.fs_interpreter.specs.Standing.{Stands};
ghost use Rattle.fs_interpreter.specs.States.{AreCells, state_of};
ghost use Rattle.sym_run.specs.Wires.{circuit_meanings};
ghost use Rattle.order_encode.specs.Asking.{AreTrees};
ghost use Rattle.order_encode.specs.Asked.{CanShow};
ghost use Rattle.order_encode.specs.Goals.{TellsTree};
ghost use Rattle.order_encode.specs.Parting.{EndDifferently, HaveParting, ShowsParting};
ghost use Rattle.order_encode.specs.declared.witness.Witness.{Witness};

use crate::asking::tree_inputs;
use crate::asks::{Asks, Goal};
use crate::known::{run_known, unlike};
use crate::plan::Schedule;
use crate::question::{Question, pose};
use bool_circuit::Wire;
use fs_interpreter::{Bits, Cells, states};
use fs_lang::Program;
use path_domain::Domain;
use rh_base::{NoMemory, Seq};
use std::alloc::Global;
use sym_run::Sym;

/// Whether the orders end differently from the tree for which the cells stand.
fn parts(
    alloc: Global,
    sym: &mut Sym,
    left: &Schedule<'_>,
    right: &Schedule<'_>,
    start: &Cells<Sym>,
) -> Result<Wire, NoMemory>
    requires domain { left.now.domain ≡ right.now.domain }
    requires cells { AreCells (circuit_meanings sym.old) start.now }
    requires places { length start.now.present ≡ length left.now.domain.table.paths }
    ensures wire { IfOk result (λ w. w.0 < length sym.new) }
    ensures exact { IfOk result (λ w. (v : Valuation) (t : Tree)
        → Stands left.now.domain.table (state_of (circuit_meanings sym.old) v start.now) t
        → (wire_value sym.new v w.0 ≡ true) ↔ EndDifferently (map program_of left.now.programs) left.now.order
        (map program_of right.now.programs) right.now.order t) }
    ensures grows { Grows (circuit_meanings sym.old) (circuit_meanings sym.new) }
{
    let one = run_known(alloc, sym, left, start)?;
    let second = run_known(alloc, sym, right, start)?;
    unlike(sym, left.domain, &one, &second)
}

/// Whether the inputs tell a tree over the domain from which the orders end differently.
fn goal_of_parting(
    alloc: Global,
    sym: &mut Sym,
    left: &Schedule<'_>,
    right: &Schedule<'_>,
    start: &Cells<Sym>,
    well: Wire,
) -> Result<Wire, NoMemory>
    requires domain { left.now.domain ≡ right.now.domain }
    requires trees { AreTrees sym.old left.now.domain start.now well }
    ensures wire { IfOk result (λ w. w.0 < length sym.new) }
    ensures exact { IfOk result (λ w. (v : Valuation) → (wire_value sym.new v w.0 ≡ true)
        ↔ TellsTree left.now.domain sym.old start.now
        (EndDifferently (map program_of left.now.programs) left.now.order (map program_of right.now.programs) right.now.order) v) }
    ensures grows { Grows (circuit_meanings sym.old) (circuit_meanings sym.new) }
{
    let apart = parts(alloc, sym, left, right, start)?;
    sym.and(&well, &apart)
}

/// Whether two orders, each of programs of its own, have different outcomes from a tree over the domain. Where the two are one
/// list of the same programs, so are the wires, and nothing is left to be solved.
pub fn ask_parting(
    alloc: Global,
    left: &[Program],
    order: Seq<u32>,
    right: &[Program],
    other: &[u32],
    domain: &Domain,
) -> Result<Question, NoMemory>
    requires nodes { AllByRecursion (λ k. k < length left.now) order }
    requires others { AllByRecursion (λ k. k < length right.now) other.now }
    requires left { CoversSteps domain.now.table (programs_in left.now) }
    requires right { CoversSteps domain.now.table (programs_in right.now) }
    ensures exact { IfOk result (λ q. IsSatisfiable q.formula
        ↔ HaveParting (map program_of left.now) order (map program_of right.now) other.now domain.now) }
    ensures models { IfOk result (λ q. (w : Witness) → CanShow q w
        → ShowsParting (map program_of left.now) order (map program_of right.now) other.now domain.now w) }
{
    states();
    let (mut sym, cells, well) = tree_inputs(alloc, domain)?;
    let one = Schedule {
        domain,
        programs: left,
        order: order.as_slice(),
    };
    let second = Schedule {
        domain,
        programs: right,
        order: other,
    };
    let wire = goal_of_parting(alloc, &mut sym, &one, &second, &cells, well)?;
    let goal = Goal {
        wire,
        firsts: Vec::new(alloc),
    };
    pose(alloc, sym, cells, Asks::Ends { order }, goal, domain)
}
