//! Circuits: gates are asked for, equal ones are shared, and what folds is folded. Sharing is structural hashing (Kuehlmann and others
//! 2002): a hash table has the gate if it was asked for before. Folding is constant propagation, and the local rules of and-inverter
//! graphs (idempotence, contradiction, subsumption: Brummayer and Biere 2006), looked for three `And` gates down. A choice folds what
//! its condition tells of its branches: in a second run over what a first one left most wires are constants then, and no question is
//! left about them. To look further down folds no more.

ghost use Rattle.std.specs.Prelude.{All, ◌≡◌, ◌≢◌, ◌↔◌, ℕ, ◌+◌, ◌^◌, ◌<◌, ◌≤◌, Bool, true, false, ◌&&◌, ◌||◌, not, if◌then◌else◌, [], length, slice_get, IfOk, OnOk, OnErr, IfSome, IfNone, Some, IsTrue};
ghost use Rattle.std.specs.Bool.{OnTrue};
ghost use Rattle.bool_circuit.specs.Placed.{IsPlaced};
ghost use Rattle.bool_circuit.specs.Gates.{truth_at, gate_value, OperandsBelow, PlaceBelow};

use crate::gate::{Gate, Wire};
use indexmap::IndexSet;
use rh_base::NoMemory;
use std::alloc::Global;
use std::marker::Model;

/// So many `And` gates, one above the other, are looked through for what folds. That there is a file at a path takes two.
const LEVELS: u32 = 3;

/// A list of gates, each of which stands once. A wire is the place of its gate.
#[derive(Drop)]
pub struct Circuit {
    gates: IndexSet<Gate>,
    inputs: u64,
}

impl Model for Circuit {
    ghost use Rattle.std.specs.Prelude.{◌≡◌, List};
    ghost use Rattle.bool_circuit.specs.declared.gate.Gate.{Gate};
    ghost use Rattle.bool_circuit.specs.Gates.{input_count};
    ghost use Rattle.bool_circuit.specs.Sharing.{IsSharing};

    ghost Value = { List Gate };

    ghost view = { λ c. c.gates.keys };

    ghost invariant = { λ c. IsSharing c.gates.keys × (c.inputs ≡ input_count c.gates.keys) };
}

/// The place of a gate, which is put last where it didn't stand there.
fn place(gates: &mut IndexSet<Gate>, g: Gate) -> Result<u64, NoMemory>
    ensures stands { IfOk result (λ w. slice_get gates.new.keys w ≡ Some g) }
    ensures placed { OnOk result (IsPlaced gates.old.keys g gates.new.keys) }
    ensures small { length gates.new.keys < 2 ^ 63 }
    ensures err { OnErr result (gates.new.keys ≡ gates.old.keys) }
{
    let placed = gates.insert_full(g);
    let _count = gates.len();
    let (index, _) = placed?;
    Ok(index as u64)
}

/// The place of a gate, if it stands there.
fn find(gates: &IndexSet<Gate>, g: Gate) -> Option<Wire>
    ensures found { IfSome result (λ w. slice_get gates.now.keys w.0 ≡ Some g) }
    ensures absent { IfNone result ((k : ℕ) → slice_get gates.now.keys k ≢ Some g) }
{
    match gates.get_index_of(&g) {
        Some(index) => Some(Wire(index as u64)),
        None => None,
    }
}

/// What a gate says, from the values of the inputs and of the wires ahead of it.
fn told_value(gate: Gate, inputs: &[bool], wires: &[bool]) -> bool
    requires operands { OperandsBelow (length wires.now) gate }
    requires place { PlaceBelow (length inputs.now) gate }
    ensures { result ≡ gate_value (truth_at inputs.now) (truth_at wires.now) gate }
{
    match gate {
        Gate::Input(i) => inputs[i as usize],
        Gate::Constant(b) => b,
        Gate::Not(a) => !wires[a.0 as usize],
        Gate::And(a, b) => {
            let left = wires[a.0 as usize];
            let right = wires[b.0 as usize];
            left && right
        }
        Gate::Mux(c, a, b) => {
            let choice = wires[c.0 as usize];
            let left = wires[a.0 as usize];
            let right = wires[b.0 as usize];
            if choice { left } else { right }
        }
    }
}

impl Circuit {
    ghost use Rattle.bool_circuit.specs.Gates.{IsCircuit, IsAndOver, input_count, wire_value, wire_values, gate_value, truth_at, OperandsBelow, PlaceBelow, Agree, Grows};
    ghost use Rattle.bool_circuit.specs.Sharing.{IsSharing, IsOperation};
    ghost use Rattle.bool_circuit.specs.Agreement.{same_truth};

    /// A circuit without gates.
    pub fn new(alloc: Global) -> Result<Circuit, NoMemory>
        ensures { IfOk result (λ c. c ≡ []) }
    {
        Ok(Circuit {
            gates: IndexSet::new(alloc),
            inputs: 0,
        })
    }

    /// The number of gates.
    pub fn wires(&self) -> u64
        ensures count { result ≡ length self.now }
        ensures circuit { IsCircuit self.now }
    {
        let _inputs = self.inputs;
        self.gates.len() as u64
    }

    /// The number of input gates.
    pub fn inputs(&self) -> u64
        ensures count { result ≡ input_count self.now }
        ensures circuit { IsCircuit self.now }
    {
        self.inputs
    }

    /// The gate that gives this wire its value.
    #[tactic(auto, using(crate::proofs::Growth::place_below, crate::proofs::Values::value_at))]
    pub fn gate(&self, w: Wire) -> Gate
        requires { w.0 < length self.now }
        ensures gate { slice_get self.now w.0 ≡ Some result }
        ensures value { (inputs : ℕ → Bool) → wire_value self.now inputs w.0 ≡ gate_value inputs (wire_value self.now inputs) result }
        ensures operands { OperandsBelow w.0 result }
        ensures place { PlaceBelow (input_count self.now) result }
    {
        match self.gates.get_index(w.0 as usize) {
            Some(g) => *g,
            None => unreachable!(),
        }
    }

    /// A new input.
    #[tactic(auto, using(crate::proofs::Growth::placed_input_sharing, crate::proofs::Growth::placed_grows, crate::proofs::Growth::placed_input_count, crate::proofs::Growth::value_in, crate::proofs::Growth::within))]
    pub fn input(&mut self) -> Result<Wire, NoMemory>
        ensures wire { IfOk result (λ w. w.0 < length self.new) }
        ensures gate { IfOk result (λ w. slice_get self.new w.0 ≡ Some (Gate.Input (input_count self.old))) }
        ensures value { IfOk result (λ w. (inputs : ℕ → Bool) → wire_value self.new inputs w.0 ≡ inputs (input_count self.old)) }
        ensures inputs { OnOk result (input_count self.new ≡ input_count self.old + 1) }
        ensures grows { Grows self.old self.new }
        ensures err { OnErr result (self.new ≡ self.old) }
    {
        let w = place(&mut self.gates, Gate::Input(self.inputs))?;
        self.inputs += 1;
        Ok(Wire(w))
    }

    /// A gate over wires that are there, which isn't an input.
    #[tactic(auto, using(crate::proofs::Growth::placed_sharing, crate::proofs::Growth::placed_grows, crate::proofs::Growth::placed_inputs, crate::proofs::Growth::value_in, crate::proofs::Growth::within))]
    fn add(&mut self, g: Gate) -> Result<Wire, NoMemory>
        requires operands { OperandsBelow (length self.old) g }
        requires operation { IsOperation g }
        ensures wire { IfOk result (λ w. w.0 < length self.new) }
        ensures value { IfOk result (λ w. (inputs : ℕ → Bool)
            → wire_value self.new inputs w.0 ≡ gate_value inputs (wire_value self.old inputs) g) }
        ensures inputs { input_count self.new ≡ input_count self.old }
        ensures grows { Grows self.old self.new }
        ensures err { OnErr result (self.new ≡ self.old) }
    {
        let w = place(&mut self.gates, g)?;
        Ok(Wire(w))
    }

    /// A wire that has this value, whatever the inputs are.
    pub fn constant(&mut self, b: bool) -> Result<Wire, NoMemory>
        ensures wire { IfOk result (λ w. w.0 < length self.new) }
        ensures value { IfOk result (λ w. (inputs : ℕ → Bool) → wire_value self.new inputs w.0 ≡ b) }
        ensures inputs { input_count self.new ≡ input_count self.old }
        ensures grows { Grows self.old self.new }
        ensures err { OnErr result (self.new ≡ self.old) }
    {
        self.add(Gate::Constant(b))
    }

    /// The value of a wire, if its gate is a constant.
    fn constant_at(&self, w: Wire) -> Option<bool>
        requires { w.0 < length self.now }
        ensures { IfSome result (λ b. (inputs : ℕ → Bool) → wire_value self.now inputs w.0 ≡ b) }
    {
        match self.gate(w) {
            Gate::Constant(b) => Some(b),
            _ => None,
        }
    }

    /// The opposite of a wire.
    pub fn not(&mut self, a: Wire) -> Result<Wire, NoMemory>
        requires { a.0 < length self.old }
        ensures wire { IfOk result (λ w. w.0 < length self.new) }
        ensures value { IfOk result (λ w. (inputs : ℕ → Bool) → wire_value self.new inputs w.0 ≡ not (wire_value self.old inputs a.0)) }
        ensures inputs { input_count self.new ≡ input_count self.old }
        ensures grows { Grows self.old self.new }
        ensures err { OnErr result (self.new ≡ self.old) }
    {
        match self.gate(a) {
            Gate::Not(b) => Ok(b),
            Gate::Constant(b) => self.constant(!b),
            _ => self.add(Gate::Not(a)),
        }
    }

    /// A wire that is there with the value of both, if one of them is enough.
    fn simpler_and(&self, a: Wire, b: Wire) -> Option<Wire>
        requires a { a.0 < length self.now }
        requires b { b.0 < length self.now }
        ensures wire { IfSome result (λ w. w.0 < length self.now) }
        ensures value { IfSome result (λ w. (inputs : ℕ → Bool)
            → wire_value self.now inputs w.0 ≡ (wire_value self.now inputs a.0 && wire_value self.now inputs b.0)) }
    {
        if a == b {
            return Some(a);
        }
        match self.constant_at(a) {
            Some(true) => return Some(b),
            Some(false) => return Some(a),
            None => {}
        }
        match self.constant_at(b) {
            Some(true) => Some(a),
            Some(false) => Some(b),
            None => self.implied_and(a, b),
        }
    }

    /// The one of two wires that is true only where the other is, if its gate tells that.
    fn implied_and(&self, a: Wire, b: Wire) -> Option<Wire>
        requires a { a.0 < length self.now }
        requires b { b.0 < length self.now }
        ensures wire { IfSome result (λ w. w.0 < length self.now) }
        ensures value { IfSome result (λ w. (inputs : ℕ → Bool)
            → wire_value self.now inputs w.0 ≡ (wire_value self.now inputs a.0 && wire_value self.now inputs b.0)) }
    {
        if self.known_where(a, b) == Some(true) {
            return Some(b);
        }
        if self.known_where(b, a) == Some(true) {
            return Some(a);
        }
        None
    }

    /// Whether the gate of the first wire is the opposite of the second.
    fn is_opposite(&self, a: Wire, b: Wire) -> bool
        requires { a.0 < length self.now }
        ensures { OnTrue result ((inputs : ℕ → Bool) → wire_value self.now inputs a.0 ≡ not (wire_value self.now inputs b.0)) }
    {
        match self.gate(a) {
            Gate::Not(w) => w == b,
            _ => false,
        }
    }

    /// Whether two wires are never true together, as far as their gates tell.
    fn exclude(&self, a: Wire, b: Wire) -> bool
        requires a { a.0 < length self.now }
        requires b { b.0 < length self.now }
        ensures { OnTrue result ((inputs : ℕ → Bool) → (wire_value self.now inputs a.0 && wire_value self.now inputs b.0) ≡ false) }
    {
        if self.known_where(a, b) == Some(false) {
            return true;
        }
        self.known_where(b, a) == Some(false)
    }

    /// Whether one of the wires is the opposite of the other by its gate.
    fn are_opposite(&self, a: Wire, b: Wire) -> bool
        requires a { a.0 < length self.now }
        requires b { b.0 < length self.now }
        ensures { OnTrue result ((inputs : ℕ → Bool) → wire_value self.now inputs a.0 ≡ not (wire_value self.now inputs b.0)) }
    {
        if self.is_opposite(a, b) {
            return true;
        }
        self.is_opposite(b, a)
    }

    /// The value of a wire where another one is true, if the two, or one and the opposite of the other, are one.
    fn known_beside(&self, w: Wire, c: Wire) -> Option<bool>
        requires w { w.0 < length self.now }
        requires c { c.0 < length self.now }
        ensures { IfSome result (λ b. (inputs : ℕ → Bool) → wire_value self.now inputs c.0 ≡ true → wire_value self.now inputs w.0 ≡ b) }
    {
        if w == c {
            return Some(true);
        }
        if self.are_opposite(w, c) {
            return Some(false);
        }
        None
    }

    /// The value of a wire where another one is true, as far as the gates of that one tell, so many levels down.
    fn known_within(&self, w: Wire, c: Wire, levels: u32) -> Option<bool>
        requires w { w.0 < length self.now }
        requires c { c.0 < length self.now }
        ensures { IfSome result (λ b. (inputs : ℕ → Bool) → wire_value self.now inputs c.0 ≡ true → wire_value self.now inputs w.0 ≡ b) }
    {
        let beside = self.known_beside(w, c);
        if levels == 0 || beside.is_some() {
            return beside;
        }
        match self.gate(c) {
            Gate::And(x, y) => match self.known_within(w, x, levels - 1) {
                Some(b) => Some(b),
                None => self.known_within(w, y, levels - 1),
            },
            _ => None,
        }
    }

    /// The value of a wire where another one is true, as far as the gates of that one tell.
    fn known_where(&self, w: Wire, c: Wire) -> Option<bool>
        requires w { w.0 < length self.now }
        requires c { c.0 < length self.now }
        ensures { IfSome result (λ b. (inputs : ℕ → Bool) → wire_value self.now inputs c.0 ≡ true → wire_value self.now inputs w.0 ≡ b) }
    {
        self.known_within(w, c, LEVELS)
    }

    /// The value of a wire where another one is false, as far as the gate of that one tells.
    fn known_unless(&self, w: Wire, c: Wire) -> Option<bool>
        requires w { w.0 < length self.now }
        requires c { c.0 < length self.now }
        ensures { IfSome result (λ b. (inputs : ℕ → Bool) → wire_value self.now inputs c.0 ≡ false → wire_value self.now inputs w.0 ≡ b) }
    {
        if w == c {
            return Some(false);
        }
        match self.gate(c) {
            Gate::Not(d) => self.known_where(w, d),
            _ => {
                if self.is_opposite(w, c) {
                    return Some(true);
                }
                None
            }
        }
    }

    /// A wire that has the value of the first where the second is true: a constant, if it is known there.
    fn folded_where(&mut self, w: Wire, c: Wire) -> Result<Wire, NoMemory>
        requires w { w.0 < length self.old }
        requires c { c.0 < length self.old }
        ensures wire { IfOk result (λ x. x.0 < length self.new) }
        ensures value { IfOk result (λ x. (inputs : ℕ → Bool) → wire_value self.old inputs c.0 ≡ true
            → wire_value self.new inputs x.0 ≡ wire_value self.old inputs w.0) }
        ensures inputs { input_count self.new ≡ input_count self.old }
        ensures grows { Grows self.old self.new }
    {
        match self.known_where(w, c) {
            Some(b) => self.constant(b),
            None => Ok(w),
        }
    }

    /// The same where the second is false.
    fn folded_unless(&mut self, w: Wire, c: Wire) -> Result<Wire, NoMemory>
        requires w { w.0 < length self.old }
        requires c { c.0 < length self.old }
        ensures wire { IfOk result (λ x. x.0 < length self.new) }
        ensures value { IfOk result (λ x. (inputs : ℕ → Bool) → wire_value self.old inputs c.0 ≡ false
            → wire_value self.new inputs x.0 ≡ wire_value self.old inputs w.0) }
        ensures inputs { input_count self.new ≡ input_count self.old }
        ensures grows { Grows self.old self.new }
    {
        match self.known_unless(w, c) {
            Some(b) => self.constant(b),
            None => Ok(w),
        }
    }

    /// A wire that is true where both are. Where an `And` gate over them stands already, in either order, it is that one.
    pub fn and(&mut self, a: Wire, b: Wire) -> Result<Wire, NoMemory>
        requires a { a.0 < length self.old }
        requires b { b.0 < length self.old }
        ensures wire { IfOk result (λ w. w.0 < length self.new) }
        ensures value { IfOk result (λ w. (inputs : ℕ → Bool)
            → wire_value self.new inputs w.0 ≡ (wire_value self.old inputs a.0 && wire_value self.old inputs b.0)) }
        ensures shared { IfOk result (λ w. (k : ℕ) → IsAndOver self.old a b k → (w.0 ≡ k) × (self.new ≡ self.old)) }
        ensures inputs { input_count self.new ≡ input_count self.old }
        ensures grows { Grows self.old self.new }
        ensures err { OnErr result (self.new ≡ self.old) }
    {
        if a.0 <= b.0 {
            self.and_in_order(a, b)
        } else {
            self.and_in_order(b, a)
        }
    }

    fn and_in_order(&mut self, low: Wire, high: Wire) -> Result<Wire, NoMemory>
        requires order { low.0 ≤ high.0 }
        requires high { high.0 < length self.old }
        ensures wire { IfOk result (λ w. w.0 < length self.new) }
        ensures value { IfOk result (λ w. (inputs : ℕ → Bool)
            → wire_value self.new inputs w.0 ≡
            (wire_value self.old inputs low.0 && wire_value self.old inputs high.0)) }
        ensures shared { IfOk result (λ w. (k : ℕ) → IsAndOver self.old low high k → (w.0 ≡ k) × (self.new ≡ self.old)) }
        ensures inputs { input_count self.new ≡ input_count self.old }
        ensures grows { Grows self.old self.new }
        ensures err { OnErr result (self.new ≡ self.old) }
    {
        match self.find_and(low, high) {
            Some(w) => Ok(w),
            None => self.new_and(low, high),
        }
    }

    #[tactic(auto, using(crate::proofs::Place::one_and, crate::proofs::Place::no_and, crate::proofs::Values::value_at))]
    /// The one `And` gate over these operands, which are in order.
    fn find_and(&self, low: Wire, high: Wire) -> Option<Wire>
        requires { low.0 ≤ high.0 }
        ensures wire { IfSome result (λ w. w.0 < length self.now) }
        ensures value { IfSome result (λ w. (inputs : ℕ → Bool)
            → wire_value self.now inputs w.0 ≡
            (wire_value self.now inputs low.0 && wire_value self.now inputs high.0)) }
        ensures one { IfSome result (λ w. (k : ℕ) → IsAndOver self.now low high k → w.0 ≡ k) }
        ensures absent { IfNone result ((k : ℕ) → IsAndOver self.now low high k → ⊥) }
    {
        find(&self.gates, Gate::And(low, high))
    }

    /// A gate for both, where there is none.
    fn new_and(&mut self, low: Wire, high: Wire) -> Result<Wire, NoMemory>
        requires order { low.0 ≤ high.0 }
        requires high { high.0 < length self.old }
        ensures wire { IfOk result (λ w. w.0 < length self.new) }
        ensures value { IfOk result (λ w. (inputs : ℕ → Bool)
            → wire_value self.new inputs w.0 ≡
            (wire_value self.old inputs low.0 && wire_value self.old inputs high.0)) }
        ensures inputs { input_count self.new ≡ input_count self.old }
        ensures grows { Grows self.old self.new }
        ensures err { OnErr result (self.new ≡ self.old) }
    {
        if let Some(w) = self.simpler_and(low, high) {
            return Ok(w);
        }
        if self.exclude(low, high) {
            return self.constant(false);
        }
        self.add(Gate::And(low, high))
    }

    fn or(&mut self, a: Wire, b: Wire) -> Result<Wire, NoMemory>
        requires a { a.0 < length self.old }
        requires b { b.0 < length self.old }
        ensures wire { IfOk result (λ w. w.0 < length self.new) }
        ensures value { IfOk result (λ w. (inputs : ℕ → Bool)
            → wire_value self.new inputs w.0 ≡ (wire_value self.old inputs a.0 || wire_value self.old inputs b.0)) }
        ensures inputs { input_count self.new ≡ input_count self.old }
        ensures grows { Grows self.old self.new }
    {
        let neither_a = self.not(a)?;
        let neither_b = self.not(b)?;
        let neither = self.and(neither_a, neither_b)?;
        self.not(neither)
    }

    /// The second wire where the first is true, else the third.
    pub fn mux(&mut self, c: Wire, a: Wire, b: Wire) -> Result<Wire, NoMemory>
        requires c { c.0 < length self.old }
        requires a { a.0 < length self.old }
        requires b { b.0 < length self.old }
        ensures wire { IfOk result (λ w. w.0 < length self.new) }
        ensures value { IfOk result (λ w. (inputs : ℕ → Bool)
            → wire_value self.new inputs w.0 ≡
            (if wire_value self.old inputs c.0 then wire_value self.old inputs a.0 else wire_value self.old inputs b.0)) }
        ensures inputs { input_count self.new ≡ input_count self.old }
        ensures grows { Grows self.old self.new }
    {
        if a == b {
            return Ok(a);
        }
        match self.constant_at(c) {
            Some(true) => Ok(a),
            Some(false) => Ok(b),
            None => {
                let left = self.folded_where(a, c)?;
                let right = self.folded_unless(b, c)?;
                self.open_mux(c, left, right)
            }
        }
    }

    /// The choice, by simpler gates where one of the two is a constant.
    fn open_mux(&mut self, c: Wire, a: Wire, b: Wire) -> Result<Wire, NoMemory>
        requires c { c.0 < length self.old }
        requires a { a.0 < length self.old }
        requires b { b.0 < length self.old }
        ensures wire { IfOk result (λ w. w.0 < length self.new) }
        ensures value { IfOk result (λ w. (inputs : ℕ → Bool)
            → wire_value self.new inputs w.0 ≡
            (if wire_value self.old inputs c.0 then wire_value self.old inputs a.0 else wire_value self.old inputs b.0)) }
        ensures inputs { input_count self.new ≡ input_count self.old }
        ensures grows { Grows self.old self.new }
    {
        match self.constant_at(a) {
            Some(true) => self.or(c, b),
            Some(false) => self.unless(c, b),
            None => match self.constant_at(b) {
                Some(true) => self.implied(c, a),
                Some(false) => self.and(c, a),
                None => self.add(Gate::Mux(c, a, b)),
            },
        }
    }

    /// Not the first, and the second.
    fn unless(&mut self, c: Wire, b: Wire) -> Result<Wire, NoMemory>
        requires c { c.0 < length self.old }
        requires b { b.0 < length self.old }
        ensures wire { IfOk result (λ w. w.0 < length self.new) }
        ensures value { IfOk result (λ w. (inputs : ℕ → Bool)
            → wire_value self.new inputs w.0 ≡
            (not (wire_value self.old inputs c.0) && wire_value self.old inputs b.0)) }
        ensures inputs { input_count self.new ≡ input_count self.old }
        ensures grows { Grows self.old self.new }
    {
        let other = self.not(c)?;
        self.and(other, b)
    }

    /// Not the first, or the second.
    fn implied(&mut self, c: Wire, a: Wire) -> Result<Wire, NoMemory>
        requires c { c.0 < length self.old }
        requires a { a.0 < length self.old }
        ensures wire { IfOk result (λ w. w.0 < length self.new) }
        ensures value { IfOk result (λ w. (inputs : ℕ → Bool)
            → wire_value self.new inputs w.0 ≡
            (not (wire_value self.old inputs c.0) || wire_value self.old inputs a.0)) }
        ensures inputs { input_count self.new ≡ input_count self.old }
        ensures grows { Grows self.old self.new }
    {
        let other = self.not(c)?;
        self.or(other, a)
    }

    /// Whether two wires have the same value.
    fn same(&mut self, a: Wire, b: Wire) -> Result<Wire, NoMemory>
        requires a { a.0 < length self.old }
        requires b { b.0 < length self.old }
        ensures wire { IfOk result (λ w. w.0 < length self.new) }
        ensures value { IfOk result (λ w. (inputs : ℕ → Bool)
            → wire_value self.new inputs w.0 ≡ same_truth (wire_value self.old inputs a.0)
            (wire_value self.old inputs b.0)) }
        ensures inputs { input_count self.new ≡ input_count self.old }
        ensures grows { Grows self.old self.new }
    {
        let other = self.not(b)?;
        self.mux(a, b, other)
    }

    /// Whether two lists of wires have the same values, place by place.
    pub fn equal(&mut self, a: &[Wire], b: &[Wire]) -> Result<Wire, NoMemory>
        requires length { length a.now ≡ length b.now }
        requires a { All (λ w. w.0 < length self.old) a.now }
        requires b { All (λ w. w.0 < length self.old) b.now }
        ensures wire { IfOk result (λ w. w.0 < length self.new) }
        ensures value { IfOk result (λ w. (inputs : ℕ → Bool) → IsTrue (wire_value self.new inputs w.0)
            ↔ Agree (wire_value self.old inputs) a.now b.now) }
        ensures inputs { input_count self.new ≡ input_count self.old }
        ensures grows { Grows self.old self.new }
    {
        let mut all = self.constant(true)?;
        for i in 0..a.len() {
            let same = self.same(a[i], b[i])?;
            all = self.and(all, same)?;
        }
        Ok(all)
    }

    /// Writes the value of each wire at its number.
    pub fn value(&self, inputs: &[bool], into: &mut [bool])
        requires inputs { length inputs.now ≡ input_count self.now }
        requires places { length into.old ≡ length self.now }
        ensures { into.new ≡ wire_values (truth_at inputs.now) self.now }
    {
        for k in 0..into.len() {
            let gate = self.gate(Wire(k as u64));
            let value = told_value(gate, inputs, &into[..k]);
            into[k] = value;
        }
    }
}
