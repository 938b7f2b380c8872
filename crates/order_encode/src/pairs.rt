//! The question of pairs: do two programs, neither of which comes before the other, end apart from one tree?
//!
//! It has no inputs for an order or a place, and no run ahead of the two, so it is far smaller than the question of order, and
//! it is asked first; where it has no model no order matters. One pair is tried at a time: named are, for each pair, the wires
//! that some pair up to this one ends apart. Such a wire holds with each later one; so once it is decided no other pair is
//! tried beside it, and where it is refuted the next one is that of the next pair. All are asked from the same cells, since
//! what is learned of one serves the next only where they share these. What other ways took stands in bench/NOTES.md.

ghost use Rattle.std.specs.Prelude.{◌≡◌, ◌↔◌, ◌⊎◌, ◌<◌, true, map, length, Some, IfOk, OnOk};
ghost use Rattle.bool_circuit.specs.Gates.{wire_value};
ghost use Rattle.cnf.specs.Formulas.{IsSatisfiable};
ghost use Rattle.fs_semantics.specs.Programs.{Outcome};
ghost use Rattle.fs_semantics.specs.Orders.{IsFree};
ghost use Rattle.fs_lang.specs.Meaning.{program_of, programs_in};
ghost use Rattle.fs_interpreter.specs.Meanings.{Valuation, Grows};
ghost use Rattle.fs_interpreter.specs.Places.{CoversSteps};
ghost use Rattle.fs_interpreter.specs.Standing.{StandsFor};
ghost use Rattle.fs_interpreter.specs.States.{AreCells, state_of};
ghost use Rattle.orders.specs.Relation.{Comes};
ghost use Rattle.sym_run.specs.Wires.{circuit_meanings};
ghost use Rattle.order_encode.specs.Asking.{AreTrees};
ghost use Rattle.order_encode.specs.Goals.{EndApartAt, ApartBehind, ApartBelow, TellsTree};
ghost use Rattle.order_encode.specs.Witnesses.{HasApartPair};

use crate::asking::tree_inputs;
use crate::asks::Goal;
use crate::fork::differ;
use crate::plan::{Pair, Plan};
use bool_circuit::Wire;
use cnf::{Cnf, Lit, from_circuit_with};
use fs_interpreter::{Bits, Cells};
use fs_lang::Program;
use orders::Order;
use path_domain::Domain;
use rh_base::{NoMemory, Seq};
use std::alloc::Global;
use sym_run::Sym;

/// Whether it is so already, or neither of the two nodes comes before the other, and their programs end apart. It is one of the
/// wires that a solver may try first: where no earlier pair ends apart it is this pair's, and it holds with each later one.
fn or_apart(
    alloc: Global,
    sym: &mut Sym,
    plan: &Plan<'_>,
    nodes: Pair,
    start: &Cells<Sym>,
    goal: &mut Goal,
) -> Result<(), NoMemory>
    requires one { nodes.one < plan.now.order.count }
    requires other { nodes.other < plan.now.order.count }
    requires cells { AreCells (circuit_meanings sym.old) start.now }
    requires places { length start.now.present ≡ length plan.now.domain.table.paths }
    requires goal { goal.old.wire.0 < length sym.old }
    ensures wire { OnOk result (goal.new.wire.0 < length sym.new) }
    ensures exact { OnOk result ((v : Valuation) (o : Outcome)
        → StandsFor plan.now.domain.table (state_of (circuit_meanings sym.old) v start.now) o
        → (wire_value sym.new v goal.new.wire.0 ≡ true)
        ↔ ((wire_value sym.old v goal.old.wire.0 ≡ true)
        ⊎ (IsFree (Comes plan.now.order) nodes.one nodes.other
        × EndApartAt (map program_of plan.now.programs) o nodes.one nodes.other))) }
    ensures grows { Grows (circuit_meanings sym.old) (circuit_meanings sym.new) }
{
    if !plan.free(nodes) {
        return Ok(());
    }
    let one = differ(alloc, sym, plan, nodes, start)?;
    let any = goal.wire;
    let more = sym.mux(&any, &any, &one)?;
    goal.firsts.push(more)?;
    goal.wire = more;
    Ok(())
}

/// Whether it is so already, or this node and a later one end apart.
fn or_row_apart(
    alloc: Global,
    sym: &mut Sym,
    plan: &Plan<'_>,
    i: u32,
    start: &Cells<Sym>,
    goal: &mut Goal,
) -> Result<(), NoMemory>
    requires i { i < plan.now.order.count }
    requires cells { AreCells (circuit_meanings sym.old) start.now }
    requires places { length start.now.present ≡ length plan.now.domain.table.paths }
    requires goal { goal.old.wire.0 < length sym.old }
    ensures wire { OnOk result (goal.new.wire.0 < length sym.new) }
    ensures exact { OnOk result ((v : Valuation) (o : Outcome)
        → StandsFor plan.now.domain.table (state_of (circuit_meanings sym.old) v start.now) o
        → (wire_value sym.new v goal.new.wire.0 ≡ true)
        ↔ ((wire_value sym.old v goal.old.wire.0 ≡ true)
        ⊎ ApartBehind (map program_of plan.now.programs) plan.now.order o i plan.now.order.count)) }
    ensures grows { Grows (circuit_meanings sym.old) (circuit_meanings sym.new) }
{
    let n = plan.count();
    for k in i + 1..n {
        or_apart(alloc, sym, plan, Pair { one: i, other: k }, start, goal)?;
    }
    Ok(())
}

/// Whether two programs, neither of which comes before the other, end apart from the cells.
fn some_apart(
    alloc: Global,
    sym: &mut Sym,
    plan: &Plan<'_>,
    start: &Cells<Sym>,
) -> Result<Goal, NoMemory>
    requires cells { AreCells (circuit_meanings sym.old) start.now }
    requires places { length start.now.present ≡ length plan.now.domain.table.paths }
    ensures wire { IfOk result (λ g. g.wire.0 < length sym.new) }
    ensures exact { IfOk result (λ g. (v : Valuation) (o : Outcome)
        → StandsFor plan.now.domain.table (state_of (circuit_meanings sym.old) v start.now) o
        → (wire_value sym.new v g.wire.0 ≡ true)
        ↔ ApartBelow (map program_of plan.now.programs) plan.now.order o plan.now.order.count) }
    ensures grows { Grows (circuit_meanings sym.old) (circuit_meanings sym.new) }
{
    let wire = sym.constant(false)?;
    let mut goal = Goal {
        wire,
        firsts: Vec::new(alloc),
    };
    for i in 0..plan.count() {
        or_row_apart(alloc, sym, plan, i, start, &mut goal)?;
    }
    Ok(goal)
}

/// Whether the inputs tell a tree over the domain from which two programs, neither of which comes before the other, end apart.
fn goal_of_pairs(
    alloc: Global,
    sym: &mut Sym,
    plan: &Plan<'_>,
    start: &Cells<Sym>,
    well: Wire,
) -> Result<Goal, NoMemory>
    requires trees { AreTrees sym.old plan.now.domain start.now well }
    ensures wire { IfOk result (λ g. g.wire.0 < length sym.new) }
    ensures exact { IfOk result (λ g. (v : Valuation) → (wire_value sym.new v g.wire.0 ≡ true)
        ↔ TellsTree plan.now.domain sym.old start.now
        (λ t. ApartBelow (map program_of plan.now.programs) plan.now.order (Some t) plan.now.order.count) v) }
    ensures grows { Grows (circuit_meanings sym.old) (circuit_meanings sym.new) }
{
    let apart = some_apart(alloc, sym, plan, start)?;
    let wire = sym.and(&well, &apart.wire)?;
    Ok(Goal {
        wire,
        firsts: apart.firsts,
    })
}

/// Whether two programs, neither of which comes before the other, end differently the one way and the other from a tree over the
/// domain: a formula, and literals of it that a solver may try first, on which only depends how long it takes. Where the formula
/// has no model no order of these programs matters. Where it has one, an order still may not: the tree need not be one that
/// the programs ahead of the two leave.
pub fn ask_pairs(
    alloc: Global,
    programs: &[Program],
    order: &Order,
    domain: &Domain,
) -> Result<(Cnf, Seq<Lit>), NoMemory>
    requires nodes { length programs.now ≡ order.now.count }
    requires covers { CoversSteps domain.now.table (programs_in programs.now) }
    ensures { IfOk result (λ r. IsSatisfiable r.0 ↔ HasApartPair (map program_of programs.now) (Comes order.now) domain.now) }
{
    let (mut sym, cells, well) = tree_inputs(alloc, domain)?;
    let plan = Plan {
        domain,
        programs,
        order,
    };
    let asked = goal_of_pairs(alloc, &mut sym, &plan, &cells, well)?;
    from_circuit_with(alloc, sym.circuit(), asked.wire, &asked.firsts)
}
