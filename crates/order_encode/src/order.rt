//! The question of order.
//!
//! Two allowed orders are joined by exchanges of neighbours (`orders`), so it is enough to ask about one exchange: the inputs
//! tell one order and a place, and not two orders. The place is a number of inputs, and a node stands at each place by what its
//! code tells; so no clause says that just one does.

ghost use Rattle.std.specs.Prelude.{◌≡◌, ◌↔◌, ◌<◌, true, map, length, IfOk};
ghost use Rattle.bool_circuit.specs.Gates.{wire_value};
ghost use Rattle.cnf.specs.Formulas.{IsSatisfiable};
ghost use Rattle.fs_lang.specs.Meaning.{program_of, programs_in};
ghost use Rattle.fs_interpreter.specs.Meanings.{Valuation, Grows};
ghost use Rattle.fs_interpreter.specs.Places.{CoversSteps};
ghost use Rattle.order_places.specs.Places.{exchanged};
ghost use Rattle.sym_run.specs.Wires.{circuit_meanings};
ghost use Rattle.order_circuit.specs.Codes.{node, nodes};
ghost use Rattle.orders.specs.Relation.{Comes};
ghost use Rattle.order_encode.specs.Asked.{CanShow};
ghost use Rattle.order_encode.specs.Asking.{AsksOfOrders, IsAsking};
ghost use Rattle.order_encode.specs.Goals.{EndApart, TellsTree};
ghost use Rattle.order_encode.specs.Witnesses.{HaveDifferentOutcomes, ShowsDifference};
ghost use Rattle.order_encode.specs.declared.witness.Witness.{Witness};

use crate::asking::{Asking, order_inputs};
use crate::asks::{Asks, Goal};
use crate::goal::goal;
use crate::plan::Plan;
use crate::question::{Question, pose};
use bool_circuit::Wire;
use fs_interpreter::states;
use fs_lang::Program;
use fs_semantics::neighbours;
use order_places::{allowed_orders, exchanges};
use orders::Order;
use path_domain::Domain;
use rh_base::NoMemory;
use std::alloc::Global;
use sym_run::Sym;

/// A solver may first try the last place that has a next one: nothing stands behind those two that could undo a difference. No
/// greater number tells such a place, so that it is enough to try the bits that are set in this one.
fn try_last_place(place: &[Wire], n: u32, firsts: &mut Vec<Wire>) -> Result<(), NoMemory> {
    let mut number = n.saturating_sub(2);
    'bits: for bit in place.iter().rev() {
        if number % 2 == 1 {
            firsts.push(*bit)?;
        }
        number = number / 2;
    }
    Ok(())
}

/// What is asked of the inputs, and the place that a solver may try first.
fn goal_of_order(
    alloc: Global,
    sym: &mut Sym,
    plan: &Plan<'_>,
    asking: &Asking,
) -> Result<Goal, NoMemory>
    requires asking { IsAsking sym.old plan.now.domain plan.now.order.count asking.now }
    ensures wire { IfOk result (λ g. g.wire.0 < length sym.new) }
    ensures exact { IfOk result (λ g. (v : Valuation) → (wire_value sym.new v g.wire.0 ≡ true)
        ↔ TellsTree plan.now.domain sym.old asking.now.cells
        (EndApart (map program_of plan.now.programs) plan.now.order (node sym.old v asking.now.place)
        (nodes sym.old v asking.now.codes)
        (exchanged (node sym.old v asking.now.place) (nodes sym.old v asking.now.codes))) v) }
    ensures grows { Grows (circuit_meanings sym.old) (circuit_meanings sym.new) }
{
    let mut asked = goal(alloc, sym, plan, asking)?;
    try_last_place(asking.place.as_slice(), plan.count(), &mut asked.firsts)?;
    Ok(asked)
}

/// New inputs of a question of order, and what is asked of them.
fn asked_order(alloc: Global, sym: &mut Sym, plan: &Plan<'_>) -> Result<(Asking, Goal), NoMemory>
    ensures wire { IfOk result (λ r. r.1.wire.0 < length sym.new) }
    ensures asks { IfOk result (λ r. AsksOfOrders (map program_of plan.now.programs) plan.now.order plan.now.domain sym.new r.0 r.1.wire) }
{
    let asking = order_inputs(alloc, sym, plan.domain, plan.count())?;
    let asked = goal_of_order(alloc, sym, plan, &asking)?;
    Ok((asking, asked))
}

/// Whether two allowed orders have different outcomes from a tree over the domain. The inputs tell one order and a place in
/// it; the other order is the one with the nodes at that place and the next exchanged.
pub fn ask_order(
    alloc: Global,
    programs: &[Program],
    order: &Order,
    domain: &Domain,
) -> Result<Question, NoMemory>
    requires nodes { length programs.now ≡ order.now.count }
    requires covers { CoversSteps domain.now.table (programs_in programs.now) }
    ensures exact { IfOk result (λ q. IsSatisfiable q.formula
        ↔ HaveDifferentOutcomes (map program_of programs.now) (Comes order.now) domain.now) }
    ensures models { IfOk result (λ q. (w : Witness) → CanShow q w
        → ShowsDifference (map program_of programs.now) (Comes order.now) domain.now w) }
{
    states();
    allowed_orders();
    exchanges();
    neighbours();
    let _nodes = order.count();
    let plan = Plan {
        domain,
        programs,
        order,
    };
    let mut sym = Sym::new(alloc)?;
    let (inputs, asked) = asked_order(alloc, &mut sym, &plan)?;
    let Asking {
        cells,
        codes,
        place,
        ..
    } = inputs;
    pose(
        alloc,
        sym,
        cells,
        Asks::Orders { codes, place },
        asked,
        domain,
    )
}
