//! The formula that the goal of a circuit can be true: the Tseitin transformation (Tseitin 1968). Each gate gets a literal, with
//! clauses that say it is equal to what the gate says, in both directions; and a unit clause says the goal. The formula has a model
//! exactly where some inputs make the goal true, and is as long as the circuit, where multiplying out might be exponential.
//!
//! Only gates on which the goal stands (its cone of influence) have clauses. A `Not` gate has no variable: its literal is the
//! opposite one. A choice (`Mux`, if-then-else) has two clauses beside its four, which say nothing new and help propagation; where its
//! branches are opposite they would be tautologies, and are left out.

ghost use Rattle.std.specs.Prelude.{◌≡◌, ◌↔◌, ◌+◌, ◌<◌, ◌≤◌, ℕ, Bool, true, ◌&&◌, if◌then◌else◌, [], ◌∷◌, ◌++◌, length, IfOk, OnOk};
ghost use Rattle.bool_circuit.specs.Gates.{truth_at, input_count, wire_value, PlaceBelow, OperandsBelow};
ghost use Rattle.cnf.specs.Literals.{opposite, same_lit, lit_true, HasVariable};
ghost use Rattle.cnf.specs.Clauses.{clause_of};
ghost use Rattle.cnf.specs.Formulas.{IsSatisfiable};
ghost use Rattle.cnf.specs.Encoding.{StatesGoal};
ghost use Rattle.cnf.specs.Defining.{lit_at, lits_value, AreNeeded, HaveVariables, NeededFrom, Encodes, Defines, yes, no, with_clauses, and_clauses, mux_clauses};

use crate::formula::Cnf;
use crate::lit::Lit;
use bool_circuit::{Circuit, Gate, Wire};
use rh_base::{NoMemory, Seq};
use std::alloc::Global;

/// Adds a clause of two literals.
fn add_two(cnf: &mut Cnf, a: Lit, b: Lit) -> Result<(), NoMemory>
    requires a { HasVariable cnf.old.vars a }
    requires b { HasVariable cnf.old.vars b }
    ensures { OnOk result (cnf.new ≡ record { vars = cnf.old.vars; clauses = cnf.old.clauses ++ clause_of (a ∷ b ∷ []) ∷ [] }) }
{
    cnf.add(&[a, b])
}

/// Adds a clause of three literals.
fn add_three(cnf: &mut Cnf, a: Lit, b: Lit, c: Lit) -> Result<(), NoMemory>
    requires a { HasVariable cnf.old.vars a }
    requires b { HasVariable cnf.old.vars b }
    requires c { HasVariable cnf.old.vars c }
    ensures { OnOk result (cnf.new ≡ record { vars = cnf.old.vars; clauses = cnf.old.clauses ++ clause_of (a ∷ b ∷ c ∷ []) ∷ [] }) }
{
    cnf.add(&[a, b, c])
}

/// Says that a variable is both.
fn write_and(cnf: &mut Cnf, x: u64, a: Lit, b: Lit) -> Result<(), NoMemory>
    requires low { 1 ≤ x }
    requires high { x ≤ cnf.old.vars }
    requires a { HasVariable cnf.old.vars a }
    requires b { HasVariable cnf.old.vars b }
    ensures { OnOk result (cnf.new ≡ record { vars = cnf.old.vars; clauses = with_clauses cnf.old.clauses (and_clauses x a b) }) }
{
    let yes = Lit {
        var: x,
        positive: true,
    };
    let no = Lit {
        var: x,
        positive: false,
    };
    add_two(cnf, no, a)?;
    add_two(cnf, no, b)?;
    add_three(cnf, yes, a.opposite(), b.opposite())
}

/// Whether two literals are opposite.
fn are_opposite(a: Lit, b: Lit) -> bool
    ensures { result ≡ same_lit a (opposite b) }
{
    a == b.opposite()
}

/// Says that a variable is a where c is true, and else b. Where a and b are opposite, the last two clauses would say nothing.
fn write_mux(cnf: &mut Cnf, x: u64, c: Lit, a: Lit, b: Lit) -> Result<(), NoMemory>
    requires low { 1 ≤ x }
    requires high { x ≤ cnf.old.vars }
    requires c { HasVariable cnf.old.vars c }
    requires a { HasVariable cnf.old.vars a }
    requires b { HasVariable cnf.old.vars b }
    ensures { OnOk result (cnf.new ≡ record { vars = cnf.old.vars; clauses = with_clauses cnf.old.clauses (mux_clauses x c a b) }) }
{
    let yes = Lit {
        var: x,
        positive: true,
    };
    let no = Lit {
        var: x,
        positive: false,
    };
    add_three(cnf, no, c.opposite(), a)?;
    add_three(cnf, no, c, b)?;
    add_three(cnf, yes, c.opposite(), a.opposite())?;
    add_three(cnf, yes, c, b.opposite())?;
    if are_opposite(a, b) {
        return Ok(());
    }
    add_three(cnf, no, a, b)?;
    add_three(cnf, yes, a.opposite(), b.opposite())
}

/// A literal with this value.
fn define_constant(cnf: &mut Cnf, b: bool) -> Result<Lit, NoMemory>
    ensures { IfOk result (λ x. Defines cnf.old cnf.new x (λ v. b)) }
{
    let x = cnf.add_variable()?;
    cnf.add(&[Lit {
        var: x,
        positive: b,
    }])?;
    Ok(Lit {
        var: x,
        positive: true,
    })
}

/// A literal for both.
fn define_and(cnf: &mut Cnf, a: Lit, b: Lit) -> Result<Lit, NoMemory>
    requires a { HasVariable cnf.old.vars a }
    requires b { HasVariable cnf.old.vars b }
    ensures { IfOk result (λ x. Defines cnf.old cnf.new x (λ v. lit_true v a && lit_true v b)) }
{
    let x = cnf.add_variable()?;
    write_and(cnf, x, a, b)?;
    Ok(Lit {
        var: x,
        positive: true,
    })
}

/// A literal for a where c is true, and else for b.
fn define_mux(cnf: &mut Cnf, c: Lit, a: Lit, b: Lit) -> Result<Lit, NoMemory>
    requires c { HasVariable cnf.old.vars c }
    requires a { HasVariable cnf.old.vars a }
    requires b { HasVariable cnf.old.vars b }
    ensures { IfOk result (λ x. Defines cnf.old cnf.new x (λ v. if lit_true v c then lit_true v a else lit_true v b)) }
{
    let x = cnf.add_variable()?;
    write_mux(cnf, x, c, a, b)?;
    Ok(Lit {
        var: x,
        positive: true,
    })
}

/// The literal of a wire.
#[tactic(auto, using(crate::proofs::Wires::lit_read))]
fn lit_at(lits: &[Lit], w: Wire) -> Lit
    requires { w.0 < length lits.now }
    ensures { result ≡ lit_at lits.now w.0 }
{
    lits[w.0 as usize]
}

/// A literal with the value of a gate, whose operands have literals.
fn encode_gate(cnf: &mut Cnf, gate: Gate, lits: &[Lit]) -> Result<Lit, NoMemory>
    requires operands { OperandsBelow (length lits.now) gate }
    requires place { PlaceBelow cnf.old.vars gate }
    requires variables { HaveVariables cnf.old.vars lits.now gate }
    ensures { IfOk result (λ x. Defines cnf.old cnf.new x (lits_value lits.now gate)) }
{
    let _vars = cnf.vars();
    match gate {
        Gate::Input(i) => Ok(Lit {
            var: i + 1,
            positive: true,
        }),
        Gate::Constant(b) => define_constant(cnf, b),
        Gate::Not(a) => Ok(lit_at(lits, a).opposite()),
        Gate::And(a, b) => define_and(cnf, lit_at(lits, a), lit_at(lits, b)),
        Gate::Mux(c, a, b) => { define_mux(cnf, lit_at(lits, c), lit_at(lits, a), lit_at(lits, b)) }
    }
}

/// The literal of the next wire: a wire that isn't needed has none that says anything.
fn encode_next(
    circuit: &Circuit,
    needed: &[bool],
    cnf: &mut Cnf,
    lits: &[Lit],
) -> Result<Lit, NoMemory>
    requires wire { length lits.now < length circuit.now }
    requires needed { length lits.now < length needed.now }
    requires closed { NeededFrom circuit.now needed.now 0 }
    requires so_far { Encodes circuit.now needed.now (length lits.now) lits.now cnf.old }
    ensures { IfOk result (λ x. Encodes circuit.now needed.now (length lits.now + 1) (lits.now ++ x ∷ []) cnf.new) }
{
    if !needed[lits.len()] {
        return Ok(Lit {
            var: 1,
            positive: true,
        });
    }
    let gate = circuit.gate(Wire(lits.len() as u64));
    let lit = encode_gate(cnf, gate, lits)?;
    Ok(lit)
}

/// The literals of these wires, of which the needed ones have their values.
fn encode(
    alloc: Global,
    circuit: &Circuit,
    needed: &[bool],
    cnf: &mut Cnf,
) -> Result<Vec<Lit>, NoMemory>
    requires start { cnf.old ≡ record { vars = input_count circuit.now; clauses = [] } }
    requires wires { length needed.now ≤ length circuit.now }
    requires closed { NeededFrom circuit.now needed.now 0 }
    ensures { IfOk result (λ lits. Encodes circuit.now needed.now (length needed.now) lits.items cnf.new) }
{
    let mut lits = Vec::new(alloc);
    for _turn in 0..needed.len() {
        let lit = encode_next(circuit, needed, cnf, &lits)?;
        lits.push(lit)?;
    }
    Ok(lits)
}

/// Marks the operands of a gate as needed.
fn mark(needed: &mut [bool], gate: Gate)
    requires { OperandsBelow (length needed.old) gate }
    ensures marked { AreNeeded needed.new gate }
    ensures more { (w : ℕ) → truth_at needed.old w ≡ true → truth_at needed.new w ≡ true }
    ensures above { (k w : ℕ) → OperandsBelow k gate → k ≤ w → truth_at needed.new w ≡ truth_at needed.old w }
{
    match gate {
        Gate::Input(_) | Gate::Constant(_) => {}
        Gate::Not(a) => needed[a.0 as usize] = true,
        Gate::And(a, b) => {
            needed[a.0 as usize] = true;
            needed[b.0 as usize] = true;
        }
        Gate::Mux(c, a, b) => {
            needed[c.0 as usize] = true;
            needed[a.0 as usize] = true;
            needed[b.0 as usize] = true;
        }
    }
}

/// Marks what a wire stands on, if it is needed.
#[tactic(auto, using(crate::proofs::Wires::needed_skip))]
fn mark_operands(circuit: &Circuit, needed: &mut [bool], w: usize)
    requires wire { w < length circuit.now }
    requires place { w < length needed.old }
    requires closed { NeededFrom circuit.now needed.old (w + 1) }
    ensures closed { NeededFrom circuit.now needed.new w }
    ensures more { (k : ℕ) → truth_at needed.old k ≡ true → truth_at needed.new k ≡ true }
{
    if needed[w] {
        mark(needed, circuit.gate(Wire(w as u64)));
    }
}

/// The wires up to the goal on which it stands.
fn needed_wires(alloc: Global, circuit: &Circuit, goal: Wire) -> Result<Vec<bool>, NoMemory>
    requires { goal.0 < length circuit.now }
    ensures long { IfOk result (λ needed. length needed.items ≡ goal.0 + 1) }
    ensures goal { IfOk result (λ needed. truth_at needed.items goal.0 ≡ true) }
    ensures closed { IfOk result (λ needed. NeededFrom circuit.now needed.items 0) }
{
    let _wires = circuit.wires();
    let goal = goal.0 as usize;
    let mut needed = vec![in alloc; false; goal + 1]?;
    needed[goal] = true;
    for w in (0..goal + 1).rev() {
        mark_operands(circuit, &mut needed, w);
    }
    Ok(needed)
}

/// The literal of a wire, if it or its opposite is needed.
fn named_one(circuit: &Circuit, needed: &[bool], lits: &[Lit], w: usize) -> Option<Lit>
    requires { length needed.now ≤ length circuit.now }
{
    if w >= needed.len() || needed.len() > lits.len() {
        return None;
    }
    if needed[w] {
        return Some(lits[w]);
    }
    match circuit.gate(Wire(w as u64)) {
        Gate::Not(a) => {
            let i = a.0 as usize;
            if needed[i] {
                return Some(lits[i].opposite());
            }
            None
        }
        _ => None,
    }
}

/// The literals of these wires, of those that are needed or whose opposites are.
fn named(
    alloc: Global,
    circuit: &Circuit,
    needed: &[bool],
    lits: &[Lit],
    wires: &[Wire],
) -> Result<Seq<Lit>, NoMemory>
    requires { length needed.now ≤ length circuit.now }
{
    let mut named = Seq::new(alloc);
    'wires: for wire in wires {
        if let Some(lit) = named_one(circuit, needed, lits, wire.0 as usize) {
            named.push(lit)?;
        }
    }
    Ok(named)
}

/// The formula that inputs make the goal true, and the literals of some wires in it, as far as the goal stands on them. A solver
/// may try these first: only how long it takes depends on them.
pub fn from_circuit_with(
    alloc: Global,
    circuit: &Circuit,
    goal: Wire,
    wires: &[Wire],
) -> Result<(Cnf, Seq<Lit>), NoMemory>
    requires { goal.0 < length circuit.now }
    ensures states { IfOk result (λ r. StatesGoal circuit.now goal.0 r.0) }
    ensures exact { IfOk result (λ r. IsSatisfiable r.0 ↔ ((inputs : ℕ → Bool) × (wire_value circuit.now inputs goal.0 ≡ true))) }
{
    let needed = needed_wires(alloc, circuit, goal)?;
    let mut cnf = Cnf::new(alloc, circuit.inputs())?;
    let lits = encode(alloc, circuit, &needed, &mut cnf)?;
    let lit = lit_at(&lits, goal);
    cnf.add(&[lit])?;
    let firsts = named(alloc, circuit, &needed, &lits, wires)?;
    Ok((cnf, firsts))
}

/// The formula that inputs make the goal true. Only the gates on which the goal stands have clauses.
pub fn from_circuit(alloc: Global, circuit: &Circuit, goal: Wire) -> Result<Cnf, NoMemory>
    requires { goal.0 < length circuit.now }
    ensures states { IfOk result (StatesGoal circuit.now goal.0) }
    ensures exact { IfOk result (λ f. IsSatisfiable f ↔ ((inputs : ℕ → Bool) × (wire_value circuit.now inputs goal.0 ≡ true))) }
{
    let (cnf, _) = from_circuit_with(alloc, circuit, goal, &[])?;
    Ok(cnf)
}
