//! What the question of order asks of its inputs, as one wire.

ghost use Rattle.std.specs.Prelude.{◌≡◌, ◌↔◌, ◌<◌, true, map, length, IfOk};
ghost use Rattle.bool_circuit.specs.Gates.{wire_value};
ghost use Rattle.fs_lang.specs.Meaning.{program_of};
ghost use Rattle.fs_interpreter.specs.Meanings.{Valuation, Grows};
ghost use Rattle.order_places.specs.Places.{exchanged};
ghost use Rattle.sym_run.specs.Wires.{AreWires, circuit_meanings};
ghost use Rattle.order_circuit.specs.Codes.{AreRows, node, nodes};
ghost use Rattle.order_encode.specs.Goals.{AreAllowed, EndApart, TellsTree};
ghost use Rattle.order_encode.specs.Asking.{IsAsking};

use crate::asking::Asking;
use crate::asks::Goal;
use crate::ends::end_apart;
use crate::plan::Plan;
use bool_circuit::Wire;
use fs_interpreter::Bits;
use order_circuit::{exchanged_codes, in_order};
use orders::Order;
use rh_base::{NoMemory, Seq};
use std::alloc::Global;
use sym_run::{Sym, is_below};

/// Whether both orders are allowed, and the place has a next one.
fn allowed(
    alloc: Global,
    sym: &mut Sym,
    order: &Order,
    left: &[Seq<Wire>],
    right: &[Seq<Wire>],
    place: &Seq<Wire>,
) -> Result<Wire, NoMemory>
    requires left { AreRows sym.old left.now }
    requires right { AreRows sym.old right.now }
    requires place { AreWires sym.old place.now }
    ensures wire { IfOk result (λ w. w.0 < length sym.new) }
    ensures exact { IfOk result (λ w. (v : Valuation) → (wire_value sym.new v w.0 ≡ true)
        ↔ AreAllowed order.now (node sym.old v place.now) (nodes sym.old v left.now) (nodes sym.old v right.now)) }
    ensures grows { Grows (circuit_meanings sym.old) (circuit_meanings sym.new) }
{
    let first = in_order(alloc, sym, order, left)?;
    let second = in_order(alloc, sym, order, right)?;
    let both = sym.and(&first, &second)?;
    let last = u64::from(order.count()).saturating_sub(1);
    let placed = is_below(sym, place, last)?;
    sym.and(&both, &placed)
}

/// Whether the inputs tell a tree over the domain, an allowed order and a place, and with the nodes at the place and the next
/// exchanged the order is allowed too and ends differently.
pub(crate) fn goal(
    alloc: Global,
    sym: &mut Sym,
    plan: &Plan<'_>,
    asking: &Asking,
) -> Result<Goal, NoMemory>
    requires asking { IsAsking sym.old plan.now.domain plan.now.order.count asking.now }
    ensures wire { IfOk result (λ g. g.wire.0 < length sym.new) }
    ensures exact { IfOk result (λ g. (v : Valuation) → (wire_value sym.new v g.wire.0 ≡ true)
        ↔ TellsTree plan.now.domain sym.old asking.now.cells
        (EndApart (map program_of plan.now.programs) plan.now.order (node sym.old v asking.now.place)
        (nodes sym.old v asking.now.codes)
        (exchanged (node sym.old v asking.now.place) (nodes sym.old v asking.now.codes))) v) }
    ensures grows { Grows (circuit_meanings sym.old) (circuit_meanings sym.new) }
{
    let left = asking.codes.as_slice();
    let right = exchanged_codes(alloc, sym, left, &asking.place)?;
    let fine = allowed(
        alloc,
        sym,
        plan.order,
        left,
        right.as_slice(),
        &asking.place,
    )?;
    let both = sym.and(&asking.well, &fine)?;
    let differ = end_apart(alloc, sym, plan, left, &asking.place, &asking.cells)?;
    let wire = sym.and(&both, &differ.wire)?;
    Ok(Goal {
        wire,
        firsts: differ.firsts,
    })
}
