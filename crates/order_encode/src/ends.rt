//! Whether two orders that part at a place end differently.
//!
//! What stands ahead of the place is run once, the two programs there the one way and the other, and what stands behind on
//! either. A solver would have to find out again, step by step, that what is alike behind the fork stays alike. So a difference
//! of the two programs right behind the fork is asked besides: it follows from a difference at the end, so the question is the
//! same.

ghost use Rattle.std.specs.Prelude.{◌≡◌, ◌≢◌, ◌↔◌, ◌<◌, ◌∷◌, true, false, map, length, slice_index_or, IfOk};
ghost use Rattle.bool_circuit.specs.Gates.{wire_value};
ghost use Rattle.fs_semantics.specs.FileTree.{Tree};
ghost use Rattle.fs_semantics.specs.Programs.{Outcome, Id, and_then, run};
ghost use Rattle.fs_semantics.specs.Orders.{outcome};
ghost use Rattle.fs_lang.specs.Meaning.{program_of};
ghost use Rattle.fs_interpreter.specs.Meanings.{Valuation, Grows};
ghost use Rattle.fs_interpreter.specs.Standing.{Stands, StandsFor};
ghost use Rattle.fs_interpreter.specs.States.{AreCells, state_of};
ghost use Rattle.order_places.specs.Places.{exchanged};
ghost use Rattle.sym_run.specs.Wires.{AreWires, circuit_meanings};
ghost use Rattle.order_circuit.specs.Codes.{AreRows, node, nodes, part_of};
ghost use Rattle.order_encode.specs.Forks.{IsFork};
ghost use Rattle.order_encode.specs.Goals.{AreAllowed, AreFreeNodes, EndApartThen};

use crate::asks::Goal;
use crate::fork::{Fork, some_pair_differs};
use crate::known::unlike;
use crate::plan::Plan;
use bool_circuit::Wire;
use fs_interpreter::{Bits, Cells};
use order_circuit::{Part, code_at, run_part, run_place};
use order_places::{allowed_orders, places};
use rh_base::{NoMemory, Seq};
use std::alloc::Global;
use sym_run::Sym;

/// Runs the programs of a plan in the part of an order.
fn run_plan(
    alloc: Global,
    sym: &mut Sym,
    plan: &Plan<'_>,
    part: &Part<'_>,
    start: &Cells<Sym>,
) -> Result<Cells<Sym>, NoMemory>
    requires codes { AreRows sym.old part.now.codes.now }
    requires place { AreWires sym.old part.now.place.now }
    requires cells { AreCells (circuit_meanings sym.old) start.now }
    requires places { length start.now.present ≡ length plan.now.domain.table.paths }
    ensures cells { IfOk result (AreCells (circuit_meanings sym.new)) }
    ensures places { IfOk result (λ made. length made.present ≡ length plan.now.domain.table.paths) }
    ensures stands { IfOk result (λ made. (v : Valuation) (o : Outcome)
        → StandsFor plan.now.domain.table (state_of (circuit_meanings sym.old) v start.now) o
        → StandsFor plan.now.domain.table (state_of (circuit_meanings sym.new) v made)
        (and_then o (outcome (map program_of plan.now.programs)
        (part_of part.now.ahead (node sym.old v part.now.place.now) (nodes sym.old v part.now.codes.now))))) }
    ensures grows { Grows (circuit_meanings sym.old) (circuit_meanings sym.new) }
{
    run_part(alloc, sym, plan.domain, plan.programs, part, start)
}

/// Runs the two programs that the codes tell.
fn run_fork(
    alloc: Global,
    sym: &mut Sym,
    plan: &Plan<'_>,
    fork: &Fork<'_>,
) -> Result<Cells<Sym>, NoMemory>
    requires fork { IsFork sym.old plan.now.domain.table fork.now }
    ensures cells { IfOk result (AreCells (circuit_meanings sym.new)) }
    ensures places { IfOk result (λ made. length made.present ≡ length plan.now.domain.table.paths) }
    ensures stands { IfOk result (λ made. (v : Valuation) (o : Outcome)
        → StandsFor plan.now.domain.table (state_of (circuit_meanings sym.old) v fork.now.cells.now) o
        → StandsFor plan.now.domain.table (state_of (circuit_meanings sym.new) v made)
        (and_then (and_then o
        (run (slice_index_or (map program_of plan.now.programs) (node sym.old v fork.now.first.now) Id)))
        (run (slice_index_or (map program_of plan.now.programs) (node sym.old v fork.now.second.now) Id)))) }
    ensures grows { Grows (circuit_meanings sym.old) (circuit_meanings sym.new) }
{
    let domain = plan.domain;
    let programs = plan.programs;
    let one = run_place(alloc, sym, domain, programs, fork.first, fork.cells)?;
    run_place(alloc, sym, domain, programs, fork.second, &one)
}

/// Runs the two programs that the codes tell, and then what stands from the place on.
fn run_on(
    alloc: Global,
    sym: &mut Sym,
    plan: &Plan<'_>,
    fork: &Fork<'_>,
    rest: &Part<'_>,
) -> Result<Cells<Sym>, NoMemory>
    requires fork { IsFork sym.old plan.now.domain.table fork.now }
    requires rest { AreRows sym.old rest.now.codes.now }
    requires place { AreWires sym.old rest.now.place.now }
    ensures cells { IfOk result (AreCells (circuit_meanings sym.new)) }
    ensures places { IfOk result (λ made. length made.present ≡ length plan.now.domain.table.paths) }
    ensures stands { IfOk result (λ made. (v : Valuation) (o : Outcome)
        → StandsFor plan.now.domain.table (state_of (circuit_meanings sym.old) v fork.now.cells.now) o
        → StandsFor plan.now.domain.table (state_of (circuit_meanings sym.new) v made)
        (and_then o (outcome (map program_of plan.now.programs)
        (node sym.old v fork.now.first.now ∷ node sym.old v fork.now.second.now
        ∷ part_of rest.now.ahead (node sym.old v rest.now.place.now) (nodes sym.old v rest.now.codes.now))))) }
    ensures grows { Grows (circuit_meanings sym.old) (circuit_meanings sym.new) }
{
    let two = run_fork(alloc, sym, plan, fork)?;
    run_plan(alloc, sym, plan, rest, &two)
}

/// Whether the runs of the two programs that the codes tell, the one way and the other, and then of what stands from the place
/// on, end differently.
fn end_apart_behind(
    alloc: Global,
    sym: &mut Sym,
    plan: &Plan<'_>,
    fork: &Fork<'_>,
    rest: &Part<'_>,
) -> Result<Wire, NoMemory>
    requires fork { IsFork sym.old plan.now.domain.table fork.now }
    requires rest { AreRows sym.old rest.now.codes.now }
    requires place { AreWires sym.old rest.now.place.now }
    ensures wire { IfOk result (λ w. w.0 < length sym.new) }
    ensures exact { IfOk result (λ w. (v : Valuation) (o : Outcome)
        → StandsFor plan.now.domain.table (state_of (circuit_meanings sym.old) v fork.now.cells.now) o
        → (wire_value sym.new v w.0 ≡ true)
        ↔ EndApartThen (map program_of plan.now.programs) o (node sym.old v fork.now.first.now)
        (node sym.old v fork.now.second.now)
        (part_of rest.now.ahead (node sym.old v rest.now.place.now) (nodes sym.old v rest.now.codes.now))) }
    ensures grows { Grows (circuit_meanings sym.old) (circuit_meanings sym.new) }
{
    let turned = Fork {
        first: fork.second,
        second: fork.first,
        cells: fork.cells,
    };
    let one = run_on(alloc, sym, plan, fork, rest)?;
    let other = run_on(alloc, sym, plan, &turned, rest)?;
    unlike(sym, plan.domain, &one, &other)
}

/// Whether the orders end differently in which the two programs that the codes tell come the one way and the other behind the
/// fork, ahead of what stands from the place on.
fn end_apart_from(
    alloc: Global,
    sym: &mut Sym,
    plan: &Plan<'_>,
    fork: &Fork<'_>,
    rest: &Part<'_>,
) -> Result<Goal, NoMemory>
    requires fork { IsFork sym.old plan.now.domain.table fork.now }
    requires rest { AreRows sym.old rest.now.codes.now }
    requires place { AreWires sym.old rest.now.place.now }
    ensures wire { IfOk result (λ g. g.wire.0 < length sym.new) }
    ensures exact { IfOk result (λ g. (v : Valuation) (o : Outcome)
        → StandsFor plan.now.domain.table (state_of (circuit_meanings sym.old) v fork.now.cells.now) o
        → AreFreeNodes plan.now.order (node sym.old v fork.now.first.now) (node sym.old v fork.now.second.now)
        → (wire_value sym.new v g.wire.0 ≡ true)
        ↔ EndApartThen (map program_of plan.now.programs) o (node sym.old v fork.now.first.now)
        (node sym.old v fork.now.second.now)
        (part_of rest.now.ahead (node sym.old v rest.now.place.now) (nodes sym.old v rest.now.codes.now))) }
    ensures grows { Grows (circuit_meanings sym.old) (circuit_meanings sym.new) }
{
    let near = some_pair_differs(alloc, sym, plan, fork)?;
    let apart = end_apart_behind(alloc, sym, plan, fork, rest)?;
    let wire = sym.and(&near.wire, &apart)?;
    Ok(Goal {
        wire,
        firsts: near.firsts,
    })
}

/// Where an order has no two places its nodes don't end apart.
fn none_apart(alloc: Global, sym: &mut Sym) -> Result<Goal, NoMemory>
    ensures wire { IfOk result (λ g. g.wire.0 < length sym.new) }
    ensures value { IfOk result (λ g. (v : Valuation) → wire_value sym.new v g.wire.0 ≡ false) }
    ensures grows { Grows (circuit_meanings sym.old) (circuit_meanings sym.new) }
{
    let wire = sym.constant(false)?;
    Ok(Goal {
        wire,
        firsts: Vec::new(alloc),
    })
}

/// Whether the order that the codes tell, and the same with the nodes at the place and the next exchanged, end differently from
/// the tree for which the cells stand.
pub(crate) fn end_apart(
    alloc: Global,
    sym: &mut Sym,
    plan: &Plan<'_>,
    codes: &[Seq<Wire>],
    place: &Seq<Wire>,
    start: &Cells<Sym>,
) -> Result<Goal, NoMemory>
    requires long { length codes.now ≡ plan.now.order.count }
    requires codes { AreRows sym.old codes.now }
    requires place { AreWires sym.old place.now }
    requires cells { AreCells (circuit_meanings sym.old) start.now }
    requires places { length start.now.present ≡ length plan.now.domain.table.paths }
    ensures wire { IfOk result (λ g. g.wire.0 < length sym.new) }
    ensures exact { IfOk result (λ g. (v : Valuation) (t : Tree)
        → Stands plan.now.domain.table (state_of (circuit_meanings sym.old) v start.now) t
        → AreAllowed plan.now.order (node sym.old v place.now) (nodes sym.old v codes.now)
        (exchanged (node sym.old v place.now) (nodes sym.old v codes.now))
        → (wire_value sym.new v g.wire.0 ≡ true)
        ↔ (outcome (map program_of plan.now.programs) (nodes sym.old v codes.now) t
        ≢ outcome (map program_of plan.now.programs)
        (exchanged (node sym.old v place.now) (nodes sym.old v codes.now)) t)) }
    ensures grows { Grows (circuit_meanings sym.old) (circuit_meanings sym.new) }
{
    allowed_orders();
    places();
    let _nodes = plan.count();
    if codes.len() < 2 {
        return none_apart(alloc, sym);
    }
    let (front, _) = codes.split_at(codes.len() - 2);
    let (_, seconds) = codes.split_at(1);
    let (_, rest) = codes.split_at(2);
    let ahead = Part {
        codes: front,
        place,
        ahead: true,
    };
    let cells = run_plan(alloc, sym, plan, &ahead, start)?;
    let first = code_at(sym, codes, place)?;
    let second = code_at(sym, seconds, place)?;
    let fork = Fork {
        first: &first,
        second: &second,
        cells: &cells,
    };
    let behind = Part {
        codes: rest,
        place,
        ahead: false,
    };
    end_apart_from(alloc, sym, plan, &fork, &behind)
}
