//! Whether the order that codes tell is allowed: place by place, with a wire for each node that tells whether it is taken. A
//! node may come where it isn't and all that come before it are.

ghost use Rattle.std.specs.Prelude.{◌≡◌, ◌==◌, ◌<◌, true, false, not, ◌&&◌, ◌||◌, length, if◌then◌else◌, IfOk};
ghost use Rattle.fs_interpreter.specs.Meanings.{Grows, IsBit};
ghost use Rattle.orders.specs.Relation.{comes};
ghost use Rattle.order_places.specs.Places.{all_taken, is_ready, with_taken, is_in_order};
ghost use Rattle.sym_run.specs.Bitwise.{AreOwnBits, BitsSoFar, bit_at};
ghost use Rattle.sym_run.specs.Wires.{AreWires, circuit_meanings};
ghost use Rattle.order_circuit.specs.Codes.{AreRows, node, nodes, all_stand};

use crate::picks::tells;
use bool_circuit::Wire;
use fs_interpreter::Bits;
use orders::Order;
use rh_base::{NoMemory, Seq};
use std::alloc::Global;
use sym_run::{Sym, is_below};

/// Whether all of it holds, and more where it is needed.
fn and_needed(sym: &mut Sym, all: &Wire, needed: bool, more: &Wire) -> Result<Wire, NoMemory>
    requires all { all.now.0 < length sym.old }
    requires more { more.now.0 < length sym.old }
    ensures gives { IfOk result
        (IsBit (circuit_meanings sym.new)
        (λ v. (circuit_meanings sym.old).bit v all.now && (not needed || (circuit_meanings sym.old).bit v more.now))) }
    ensures grows { Grows (circuit_meanings sym.old) (circuit_meanings sym.new) }
{
    if needed { sym.and(all, more) } else { Ok(*all) }
}

/// Whether all that comes before the node is taken.
fn all_taken(sym: &mut Sym, order: &Order, taken: &Seq<Wire>, i: u32) -> Result<Wire, NoMemory>
    requires taken { AreOwnBits (circuit_meanings sym.old) taken.now }
    requires long { length taken.now ≡ order.now.count }
    requires i { i < order.now.count }
    ensures gives { IfOk result
        (IsBit (circuit_meanings sym.new)
        (λ v. all_taken (comes order.now) (bit_at (circuit_meanings sym.old) v taken.now) i order.now.count)) }
    ensures grows { Grows (circuit_meanings sym.old) (circuit_meanings sym.new) }
{
    let mut all = sym.constant(true)?;
    for a in 0..order.count() {
        let earlier = order.before(a, i);
        all = and_needed(sym, &all, earlier, taken.at(a as usize))?;
    }
    Ok(all)
}

/// Whether the code tells another node, or the node may come next.
fn may_stand(
    sym: &mut Sym,
    order: &Order,
    taken: &Seq<Wire>,
    code: &Seq<Wire>,
    i: u32,
) -> Result<Wire, NoMemory>
    requires taken { AreOwnBits (circuit_meanings sym.old) taken.now }
    requires long { length taken.now ≡ order.now.count }
    requires code { AreWires sym.old code.now }
    requires i { i < order.now.count }
    ensures gives { IfOk result
        (IsBit (circuit_meanings sym.new)
        (λ v. if i == node sym.old v code.now then not (bit_at (circuit_meanings sym.old) v taken.now i) && all_taken
        (comes order.now) (bit_at (circuit_meanings sym.old) v taken.now) i order.now.count else true)) }
    ensures grows { Grows (circuit_meanings sym.old) (circuit_meanings sym.new) }
{
    let told = all_taken(sym, order, taken, i)?;
    let fresh = sym.not(taken.at(i as usize))?;
    let ready = sym.and(&fresh, &told)?;
    let here = tells(sym, u64::from(i), code)?;
    let sure = sym.constant(true)?;
    sym.mux(&here, &ready, &sure)
}

/// Whether each node that the code may tell may come next where it tells it.
fn all_stand(
    sym: &mut Sym,
    order: &Order,
    taken: &Seq<Wire>,
    code: &Seq<Wire>,
) -> Result<Wire, NoMemory>
    requires taken { AreOwnBits (circuit_meanings sym.old) taken.now }
    requires long { length taken.now ≡ order.now.count }
    requires code { AreWires sym.old code.now }
    ensures gives { IfOk result
        (IsBit (circuit_meanings sym.new)
        (λ v. all_stand (comes order.now) order.now.count (bit_at (circuit_meanings sym.old) v taken.now)
        (node sym.old v code.now) order.now.count)) }
    ensures grows { Grows (circuit_meanings sym.old) (circuit_meanings sym.new) }
{
    let mut all = sym.constant(true)?;
    for i in 0..order.count() {
        let one = may_stand(sym, order, taken, code, i)?;
        all = sym.and(&all, &one)?;
    }
    Ok(all)
}

/// Whether the node that the code tells may come next.
fn may_come(
    sym: &mut Sym,
    order: &Order,
    taken: &Seq<Wire>,
    code: &Seq<Wire>,
) -> Result<Wire, NoMemory>
    requires taken { AreOwnBits (circuit_meanings sym.old) taken.now }
    requires long { length taken.now ≡ order.now.count }
    requires code { AreWires sym.old code.now }
    ensures gives { IfOk result
        (IsBit (circuit_meanings sym.new)
        (λ v. is_ready (comes order.now) order.now.count (bit_at (circuit_meanings sym.old) v taken.now)
        (node sym.old v code.now))) }
    ensures grows { Grows (circuit_meanings sym.old) (circuit_meanings sym.new) }
{
    let all = all_stand(sym, order, taken, code)?;
    let below = is_below(sym, code, u64::from(order.count()))?;
    sym.and(&below, &all)
}

/// The nodes that are taken then.
fn with_taken(
    alloc: Global,
    sym: &mut Sym,
    taken: &Seq<Wire>,
    code: &Seq<Wire>,
) -> Result<Seq<Wire>, NoMemory>
    requires taken { AreOwnBits (circuit_meanings sym.old) taken.now }
    requires code { AreWires sym.old code.now }
    ensures gives { IfOk result
        (BitsSoFar (circuit_meanings sym.new)
        (λ v. with_taken (bit_at (circuit_meanings sym.old) v taken.now) (node sym.old v code.now))
        (length taken.now)) }
    ensures grows { Grows (circuit_meanings sym.old) (circuit_meanings sym.new) }
{
    let mut more = Seq::new(alloc);
    for i in 0..taken.len() {
        let here = tells(sym, i as u64, code)?;
        let one = sym.mux(taken.at(i), taken.at(i), &here)?;
        more.push(one)?;
    }
    Ok(more)
}

/// No node is taken.
fn none_taken(alloc: Global, sym: &mut Sym, n: u32) -> Result<Seq<Wire>, NoMemory>
    ensures gives { IfOk result (BitsSoFar (circuit_meanings sym.new) (λ v i. false) n) }
    ensures grows { Grows (circuit_meanings sym.old) (circuit_meanings sym.new) }
{
    let mut taken = Seq::new(alloc);
    for _turn in 0..n {
        let one = sym.constant(false)?;
        taken.push(one)?;
    }
    Ok(taken)
}

/// Whether each node of the order that the codes tell may come next in its turn.
pub fn in_order(
    alloc: Global,
    sym: &mut Sym,
    order: &Order,
    codes: &[Seq<Wire>],
) -> Result<Wire, NoMemory>
    requires codes { AreRows sym.old codes.now }
    ensures gives { IfOk result
        (IsBit (circuit_meanings sym.new)
        (λ v. is_in_order (comes order.now) order.now.count (nodes sym.old v codes.now))) }
    ensures grows { Grows (circuit_meanings sym.old) (circuit_meanings sym.new) }
{
    let mut taken = none_taken(alloc, sym, order.count())?;
    let mut all = sym.constant(true)?;
    for code in codes {
        let may = may_come(sym, order, &taken, code)?;
        all = sym.and(&all, &may)?;
        taken = with_taken(alloc, sym, &taken, code)?;
    }
    Ok(all)
}
