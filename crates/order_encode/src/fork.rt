//! Whether two programs end apart right behind the place where two orders part: a disjunction over the free pairs. The wires of
//! the pairs are named, so that a solver tries one pair after the other and refutes each with what it learned of those before.

ghost use Rattle.std.specs.Prelude.{◌≡◌, ◌↔◌, ◌==◌, ◌&&◌, ◌<◌, ℕ, true, map, length, IfOk, OnOk};
ghost use Rattle.bool_circuit.specs.Gates.{wire_value};
ghost use Rattle.fs_semantics.specs.Programs.{Outcome};
ghost use Rattle.fs_semantics.specs.Orders.{IsFree};
ghost use Rattle.fs_lang.specs.Meaning.{program_of};
ghost use Rattle.fs_interpreter.specs.Meanings.{Valuation, Grows};
ghost use Rattle.fs_interpreter.specs.Standing.{StandsFor};
ghost use Rattle.fs_interpreter.specs.States.{AreCells, state_of};
ghost use Rattle.orders.specs.Relation.{Comes};
ghost use Rattle.sym_run.specs.Wires.{AreWires, circuit_meanings};
ghost use Rattle.order_circuit.specs.Codes.{node};
ghost use Rattle.order_encode.specs.Forks.{IsFork};
ghost use Rattle.order_encode.specs.Goals.{are_these, AreFreeNodes, EndApartAt};

use crate::asks::Goal;
use crate::known::{run_known, unlike};
use crate::plan::{Pair, Plan, Schedule};
use bool_circuit::Wire;
use fs_interpreter::{Bits, Cells};
use order_circuit::tells;
use rh_base::{NoMemory, Seq};
use std::alloc::Global;
use sym_run::Sym;

/// The place where two orders part: the codes of the two nodes there, and what the cells are when it is reached.
#[derive(Drop)]
pub(crate) struct Fork<'a> {
    pub first: &'a Seq<Wire>,
    pub second: &'a Seq<Wire>,
    pub cells: &'a Cells<Sym>,
}

/// Whether the first code tells the one node and the second the other.
fn tells_both(sym: &mut Sym, nodes: Pair, fork: &Fork<'_>) -> Result<Wire, NoMemory>
    requires first { AreWires sym.old fork.now.first.now }
    requires second { AreWires sym.old fork.now.second.now }
    ensures wire { IfOk result (λ w. w.0 < length sym.new) }
    ensures value { IfOk result (λ w. (v : Valuation) → wire_value sym.new v w.0
        ≡ ((nodes.one == node sym.old v fork.now.first.now) && (nodes.other == node sym.old v fork.now.second.now))) }
    ensures grows { Grows (circuit_meanings sym.old) (circuit_meanings sym.new) }
{
    let one = tells(sym, u64::from(nodes.one), fork.first)?;
    let other = tells(sym, u64::from(nodes.other), fork.second)?;
    sym.and(&one, &other)
}

/// Whether the codes tell these two nodes, the one way or the other.
fn tells_pair(sym: &mut Sym, nodes: Pair, fork: &Fork<'_>) -> Result<Wire, NoMemory>
    requires first { AreWires sym.old fork.now.first.now }
    requires second { AreWires sym.old fork.now.second.now }
    ensures wire { IfOk result (λ w. w.0 < length sym.new) }
    ensures value { IfOk result (λ w. (v : Valuation) → wire_value sym.new v w.0
        ≡ are_these nodes.one nodes.other (node sym.old v fork.now.first.now) (node sym.old v fork.now.second.now)) }
    ensures grows { Grows (circuit_meanings sym.old) (circuit_meanings sym.new) }
{
    let turned = Pair {
        one: nodes.other,
        other: nodes.one,
    };
    let forward = tells_both(sym, nodes, fork)?;
    let backward = tells_both(sym, turned, fork)?;
    sym.mux(&forward, &forward, &backward)
}

/// Whether the two programs end apart from the cells, the one way and the other.
pub(crate) fn differ(
    alloc: Global,
    sym: &mut Sym,
    plan: &Plan<'_>,
    nodes: Pair,
    start: &Cells<Sym>,
) -> Result<Wire, NoMemory>
    requires one { nodes.one < plan.now.order.count }
    requires other { nodes.other < plan.now.order.count }
    requires cells { AreCells (circuit_meanings sym.old) start.now }
    requires places { length start.now.present ≡ length plan.now.domain.table.paths }
    ensures wire { IfOk result (λ w. w.0 < length sym.new) }
    ensures exact { IfOk result (λ w. (v : Valuation) (o : Outcome)
        → StandsFor plan.now.domain.table (state_of (circuit_meanings sym.old) v start.now) o
        → (wire_value sym.new v w.0 ≡ true) ↔ EndApartAt (map program_of plan.now.programs) o nodes.one nodes.other) }
    ensures grows { Grows (circuit_meanings sym.old) (circuit_meanings sym.new) }
{
    let domain = plan.domain;
    let programs = plan.programs;
    let forward = Schedule {
        domain,
        programs,
        order: &[nodes.one, nodes.other],
    };
    let backward = Schedule {
        domain,
        programs,
        order: &[nodes.other, nodes.one],
    };
    let one = run_known(alloc, sym, &forward, start)?;
    let other = run_known(alloc, sym, &backward, start)?;
    unlike(sym, domain, &one, &other)
}

/// Whether the codes tell these two nodes, whose programs end apart.
fn pair_differs(
    alloc: Global,
    sym: &mut Sym,
    plan: &Plan<'_>,
    nodes: Pair,
    fork: &Fork<'_>,
) -> Result<Wire, NoMemory>
    requires one { nodes.one < plan.now.order.count }
    requires other { nodes.other < plan.now.order.count }
    requires fork { IsFork sym.old plan.now.domain.table fork.now }
    ensures wire { IfOk result (λ w. w.0 < length sym.new) }
    ensures exact { IfOk result (λ w. (v : Valuation) (o : Outcome)
        → StandsFor plan.now.domain.table (state_of (circuit_meanings sym.old) v fork.now.cells.now) o
        → (wire_value sym.new v w.0 ≡ true)
        ↔ ((are_these nodes.one nodes.other (node sym.old v fork.now.first.now) (node sym.old v fork.now.second.now) ≡ true)
        × EndApartAt (map program_of plan.now.programs) o nodes.one nodes.other)) }
    ensures grows { Grows (circuit_meanings sym.old) (circuit_meanings sym.new) }
{
    let told = tells_pair(sym, nodes, fork)?;
    let apart = differ(alloc, sym, plan, nodes, fork.cells)?;
    sym.and(&told, &apart)
}

/// Whether it is so already, or the codes tell these two nodes, neither of which comes before the other, and whose programs
/// end apart. The wire for the pair is one of those that a solver may try first.
fn with_pair(
    alloc: Global,
    sym: &mut Sym,
    plan: &Plan<'_>,
    nodes: Pair,
    fork: &Fork<'_>,
    goal: &mut Goal,
) -> Result<(), NoMemory>
    requires one { nodes.one < plan.now.order.count }
    requires other { nodes.other < plan.now.order.count }
    requires fork { IsFork sym.old plan.now.domain.table fork.now }
    requires goal { goal.old.wire.0 < length sym.old }
    ensures wire { OnOk result (goal.new.wire.0 < length sym.new) }
    ensures stays { OnOk result ((v : Valuation) → wire_value sym.old v goal.old.wire.0 ≡ true
        → wire_value sym.new v goal.new.wire.0 ≡ true) }
    ensures found { OnOk result ((v : Valuation) (o : Outcome)
        → StandsFor plan.now.domain.table (state_of (circuit_meanings sym.old) v fork.now.cells.now) o
        → IsFree (Comes plan.now.order) nodes.one nodes.other
        → are_these nodes.one nodes.other (node sym.old v fork.now.first.now) (node sym.old v fork.now.second.now) ≡ true
        → EndApartAt (map program_of plan.now.programs) o nodes.one nodes.other
        → wire_value sym.new v goal.new.wire.0 ≡ true) }
    ensures grows { Grows (circuit_meanings sym.old) (circuit_meanings sym.new) }
{
    if !plan.free(nodes) {
        return Ok(());
    }
    let one = pair_differs(alloc, sym, plan, nodes, fork)?;
    goal.firsts.push(one)?;
    let any = goal.wire;
    goal.wire = sym.mux(&any, &any, &one)?;
    Ok(())
}

/// Whether it is so already, or the codes tell this node and a later one, and their programs end apart.
fn with_row(
    alloc: Global,
    sym: &mut Sym,
    plan: &Plan<'_>,
    i: u32,
    fork: &Fork<'_>,
    goal: &mut Goal,
) -> Result<(), NoMemory>
    requires i { i < plan.now.order.count }
    requires fork { IsFork sym.old plan.now.domain.table fork.now }
    requires goal { goal.old.wire.0 < length sym.old }
    ensures wire { OnOk result (goal.new.wire.0 < length sym.new) }
    ensures stays { OnOk result ((v : Valuation) → wire_value sym.old v goal.old.wire.0 ≡ true
        → wire_value sym.new v goal.new.wire.0 ≡ true) }
    ensures found { OnOk result ((v : Valuation) (o : Outcome)
        → StandsFor plan.now.domain.table (state_of (circuit_meanings sym.old) v fork.now.cells.now) o
        → (k : ℕ) → i < k → k < plan.now.order.count → IsFree (Comes plan.now.order) i k
        → are_these i k (node sym.old v fork.now.first.now) (node sym.old v fork.now.second.now) ≡ true
        → EndApartAt (map program_of plan.now.programs) o i k → wire_value sym.new v goal.new.wire.0 ≡ true) }
    ensures grows { Grows (circuit_meanings sym.old) (circuit_meanings sym.new) }
{
    let n = plan.count();
    for k in i + 1..n {
        with_pair(alloc, sym, plan, Pair { one: i, other: k }, fork, goal)?;
    }
    Ok(())
}

/// Where the nodes that the codes tell are free, and their programs end apart from the cells, the one way and the other, this
/// is true.
pub(crate) fn some_pair_differs(
    alloc: Global,
    sym: &mut Sym,
    plan: &Plan<'_>,
    fork: &Fork<'_>,
) -> Result<Goal, NoMemory>
    requires fork { IsFork sym.old plan.now.domain.table fork.now }
    ensures wire { IfOk result (λ g. g.wire.0 < length sym.new) }
    ensures found { IfOk result (λ g. (v : Valuation) (o : Outcome)
        → StandsFor plan.now.domain.table (state_of (circuit_meanings sym.old) v fork.now.cells.now) o
        → AreFreeNodes plan.now.order (node sym.old v fork.now.first.now) (node sym.old v fork.now.second.now)
        → EndApartAt (map program_of plan.now.programs) o (node sym.old v fork.now.first.now)
        (node sym.old v fork.now.second.now)
        → wire_value sym.new v g.wire.0 ≡ true) }
    ensures grows { Grows (circuit_meanings sym.old) (circuit_meanings sym.new) }
{
    let wire = sym.constant(false)?;
    let mut goal = Goal {
        wire,
        firsts: Vec::new(alloc),
    };
    for i in 0..plan.count() {
        with_row(alloc, sym, plan, i, fork, &mut goal)?;
    }
    Ok(goal)
}
