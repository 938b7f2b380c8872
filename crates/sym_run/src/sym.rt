//! The wires of a circuit, as bits.

ghost use Rattle.std.specs.Prelude.{◌≡◌, ◌+◌, ◌<◌, length, IfOk, OnOk};
ghost use Rattle.bool_circuit.specs.Gates.{Grows, input_count, wire_value};
ghost use Rattle.fs_semantics.specs.Programs.{Outcome, and_then, run};
ghost use Rattle.fs_lang.specs.Meaning.{program_of};
ghost use Rattle.fs_interpreter.specs.Meanings.{Valuation, Grows as MeaningsGrow};
ghost use Rattle.fs_interpreter.specs.Places.{Covers};
ghost use Rattle.fs_interpreter.specs.Standing.{StandsFor};
ghost use Rattle.fs_interpreter.specs.States.{AreCells, state_of};
ghost use Rattle.sym_run.specs.Wires.{circuit_meanings};

use crate::codes::{code_wires, pick_wires, same_wires};
use bool_circuit::{Circuit, Wire};
use fs_interpreter::{Bits, Cells, run_with};
use fs_lang::Program;
use path_domain::Domain;
use rh_base::{NoMemory, Seq};
use std::alloc::Global;
use std::marker::Model;

/// Bits that are wires of a circuit, and codes that are binary numbers of such wires. Contracts see the gates.
#[derive(Drop)]
pub struct Sym {
    pub(crate) circuit: Circuit,
    pub(crate) alloc: Global,
}

impl Model for Sym {
    ghost use Rattle.std.specs.Prelude.{List};
    ghost use Rattle.bool_circuit.specs.declared.gate.Gate.{Gate};

    ghost Value = { List Gate };

    ghost view = { λ s. s.circuit };
}

impl Sym {
    ghost use Rattle.std.specs.Prelude.{[], OnErr};

    /// No wires yet.
    pub fn new(alloc: Global) -> Result<Sym, NoMemory>
        ensures { IfOk result (λ s. s ≡ []) }
    {
        let circuit = Circuit::new(alloc)?;
        Ok(Sym { circuit, alloc })
    }

    /// The circuit with all gates so far.
    pub fn circuit(&self) -> &Circuit
        ensures { result.now ≡ self.now }
    {
        &self.circuit
    }

    /// Adds an input.
    pub fn input(&mut self) -> Result<Wire, NoMemory>
        ensures wire { IfOk result (λ w. w.0 < length self.new) }
        ensures value { IfOk result (λ w. (v : Valuation) → wire_value self.new v w.0 ≡ v (input_count self.old)) }
        ensures inputs { OnOk result (input_count self.new ≡ input_count self.old + 1) }
        ensures grows { Grows self.old self.new }
        ensures err { OnErr result (self.new ≡ self.old) }
    {
        self.circuit.input()
    }
}

impl Bits for Sym {
    type Bit = Wire;

    type Code = Seq<Wire>;

    ghost meanings = { circuit_meanings };

    #[tactic(auto, using(crate::proofs::CircuitLaws::circuit_grows))]
    fn constant(&mut self, b: bool) -> Result<Wire, NoMemory> {
        self.circuit.constant(b)
    }

    #[tactic(auto, using(crate::proofs::CircuitLaws::circuit_grows))]
    fn not(&mut self, a: &Wire) -> Result<Wire, NoMemory> {
        self.circuit.not(*a)
    }

    #[tactic(auto, using(crate::proofs::CircuitLaws::circuit_grows))]
    fn and(&mut self, a: &Wire, b: &Wire) -> Result<Wire, NoMemory> {
        self.circuit.and(*a, *b)
    }

    #[tactic(auto, using(crate::proofs::CircuitLaws::circuit_grows))]
    fn mux(&mut self, c: &Wire, a: &Wire, b: &Wire) -> Result<Wire, NoMemory> {
        self.circuit.mux(*c, *a, *b)
    }

    #[tactic(auto, using(crate::proofs::CircuitLaws::circuit_grows))]
    fn code(&mut self, n: u64) -> Result<Seq<Wire>, NoMemory> {
        code_wires(self.alloc, &mut self.circuit, n)
    }

    #[tactic(auto, using(crate::proofs::CircuitLaws::circuit_grows))]
    fn pick(&mut self, c: &Wire, a: &Seq<Wire>, b: &Seq<Wire>) -> Result<Seq<Wire>, NoMemory> {
        pick_wires(
            self.alloc,
            &mut self.circuit,
            *c,
            a.as_slice(),
            b.as_slice(),
        )
    }

    #[tactic(auto, using(crate::proofs::CircuitLaws::circuit_grows))]
    fn same(&mut self, a: &Seq<Wire>, b: &Seq<Wire>) -> Result<Wire, NoMemory> {
        same_wires(&mut self.circuit, a.as_slice(), b.as_slice())
    }
}

/// Runs a program on cells over a domain. The cells of a path that the program can't change stay the same wires.
pub fn sym_apply(
    alloc: Global,
    sym: &mut Sym,
    domain: &Domain,
    program: &Program,
    state: &mut Cells<Sym>,
) -> Result<(), NoMemory>
    requires cells { AreCells (circuit_meanings sym.old) state.old }
    requires places { length state.old.present ≡ length domain.now.table.paths }
    requires covers { Covers domain.now.table (program_of program.now) }
    ensures stands { OnOk result ((v : Valuation) (o : Outcome)
        → StandsFor domain.now.table (state_of (circuit_meanings sym.old) v state.old) o
        → StandsFor domain.now.table (state_of (circuit_meanings sym.new) v state.new)
        (and_then o (run (program_of program.now)))) }
    ensures cells { OnOk result (AreCells (circuit_meanings sym.new) state.new) }
    ensures places { OnOk result (length state.new.present ≡ length domain.now.table.paths) }
    ensures grows { MeaningsGrow (circuit_meanings sym.old) (circuit_meanings sym.new) }
{
    run_with(alloc, sym, &domain.table, program, state)
}
