//! A formula with what is needed to read its models. It keeps its circuit, so that a model is read as the tree for which the
//! cells stand, and not as variables.

ghost use Rattle.std.specs.Prelude.{◌≡◌, ◌<◌, true, length, IfOk};
ghost use Rattle.bool_circuit.specs.Gates.{wire_value};
ghost use Rattle.cnf.specs.Encoding.{StatesGoal};
ghost use Rattle.fs_interpreter.specs.Meanings.{Valuation};
ghost use Rattle.fs_interpreter.specs.States.{AreCells};
ghost use Rattle.sym_run.specs.Wires.{circuit_meanings};
ghost use Rattle.order_encode.specs.Asked.{AreWithin, IsReadable};

use crate::asks::{Asks, Goal};
use crate::table::boxed_domain;
use cnf::{Cnf, Lit, from_circuit_with};
use fs_interpreter::Cells;
use path_domain::Domain;
use rh_base::{Boxed, NoMemory, Seq};
use std::alloc::Global;
use std::marker::Model;
use sym_run::Sym;

/// The circuit that a formula states, the cells of its tree, and what is asked.
#[derive(Drop)]
pub(crate) struct Posed {
    pub sym: Sym,
    pub cells: Cells<Sym>,
    pub asks: Asks,
}

/// A formula with the circuit that it states, so that its models can be read.
#[derive(Drop)]
pub struct Question {
    pub(crate) posed: Boxed<Posed>,
    pub(crate) domain: Boxed<Domain>,
    cnf: Boxed<Cnf>,
    firsts: Seq<Lit>,
}

impl Model for Question {
    ghost use Rattle.std.specs.Prelude.{List};
    ghost use Rattle.order_encode.specs.Asked.{Asked, IsAsked};
    ghost use Rattle.bool_circuit.specs.declared.gate.Gate.{Gate};

    ghost Value = { Asked (List Gate) };

    ghost view = { λ q. record {
      gates = q.posed.sym;
      table = q.domain.table;
      cells = q.posed.cells;
      asks = q.posed.asks;
      formula = q.cnf;
    } };

    ghost invariant = { λ q. IsAsked (record {
      gates = q.posed.sym;
      table = q.domain.table;
      cells = q.posed.cells;
      asks = q.posed.asks;
      formula = q.cnf;
    }) };
}

impl Question {
    /// The formula.
    pub fn cnf(&self) -> &Cnf
        ensures { result.now ≡ self.now.formula }
    {
        self.cnf.get()
    }

    /// Literals of the formula that a solver may try first: only how long it takes depends on them.
    pub fn firsts(&self) -> &[Lit] {
        self.firsts.as_slice()
    }

    /// The formula, without what is needed to read its models.
    pub fn into_cnf(self) -> Cnf
        ensures { result ≡ self.formula }
    {
        let Question { cnf, .. } = self;
        cnf.into_inner()
    }
}

/// Whether the goal can be true. Each valuation that makes it true tells a tree, and small numbers.
pub(crate) fn pose(
    alloc: Global,
    sym: Sym,
    cells: Cells<Sym>,
    asks: Asks,
    goal: Goal,
    domain: &Domain,
) -> Result<Question, NoMemory>
    requires goal { goal.wire.0 < length sym }
    requires cells { AreCells (circuit_meanings sym) cells }
    requires places { length cells.present ≡ length domain.now.table.paths }
    requires codes { AreWithin (length sym) asks }
    requires readable { (v : Valuation) → wire_value sym v goal.wire.0 ≡ true → IsReadable sym domain.now.table cells asks v }
    ensures states { IfOk result (λ q. StatesGoal sym goal.wire.0 q.formula) }
    ensures holds { IfOk result
        (λ q. q ≡ record { gates = sym; table = domain.now.table; cells = cells; asks = asks; formula = q.formula }) }
{
    let posed = Boxed::new(alloc, Posed { sym, cells, asks })?;
    let circuit = posed.get().sym.circuit();
    let (formula, firsts) = from_circuit_with(alloc, circuit, goal.wire, &goal.firsts)?;
    let cnf = Boxed::new(alloc, formula)?;
    let domain = boxed_domain(alloc, domain)?;
    Ok(Question {
        posed,
        domain,
        cnf,
        firsts,
    })
}
