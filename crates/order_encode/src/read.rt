//! What a model of a question shows: the circuit is evaluated at the inputs, with which the model begins, and its wires tell
//! the tree and the orders.

ghost use Rattle.std.specs.Prelude.{◌≡◌, ◌≤◌, ◌<◌, ◌^◌, ◌∷◌, ◌==◌, length, take, map, if◌then◌else◌, IfOk};
ghost use Rattle.std.specs.List.{AllByRecursion};
ghost use Rattle.bool_circuit.specs.Gates.{truth_at, wire_values, input_count, IsCircuit};
ghost use Rattle.cnf.specs.Formulas.{Satisfies, valuation_of};
ghost use Rattle.order_places.specs.Places.{exchanged};
ghost use Rattle.sym_run.specs.Wires.{number};
ghost use Rattle.order_encode.specs.Asked.{CanShow, IsReadAs, AreWithin, AreSmallBy};

use crate::asks::Asks;
use crate::question::Question;
use crate::witness::Witness;
use bool_circuit::{Circuit, Wire};
use fs_lang::Tree;
use rh_base::{NoMemory, Seq};
use std::alloc::Global;
use sym_run::number_of;

/// The nodes that the codes tell by these values.
fn order_by(alloc: Global, values: &[bool], codes: &[Seq<Wire>]) -> Result<Seq<u32>, NoMemory>
    requires wires { AllByRecursion (λ ws. AllByRecursion (λ w. w.0 < length values.now) ws) codes.now }
    requires small { AllByRecursion (λ k. k < 2 ^ 32) (map (number (truth_at values.now)) codes.now) }
    ensures { IfOk result (λ order. order ≡ map (number (truth_at values.now)) codes.now) }
{
    let mut order = Seq::new(alloc);
    for code in codes {
        order.push(number_of(values, code.as_slice()) as u32)?;
    }
    Ok(order)
}

/// The one at this place, and the other elsewhere.
fn chosen(k: u64, place: u64, a: u32, b: u32) -> u32
    ensures { result ≡ (if k == place then a else b) }
{
    if k == place { a } else { b }
}

/// The one that is held, or the next, comes at each place; the other is held on.
fn exchanged_behind(
    alloc: Global,
    first: u32,
    rest: &[u32],
    place: u64,
) -> Result<Seq<u32>, NoMemory>
    ensures { IfOk result (λ order. order ≡ exchanged place (first ∷ rest.now)) }
{
    let mut held = first;
    let mut order = Seq::new(alloc);
    for k in 0..rest.len() {
        let next = chosen(k as u64, place, rest[k], held);
        held = chosen(k as u64, place, held, rest[k]);
        order.push(next)?;
    }
    order.push(held)?;
    Ok(order)
}

/// The order with the nodes at the place and the next exchanged.
fn exchanged_order(alloc: Global, order: &[u32], place: u64) -> Result<Seq<u32>, NoMemory>
    ensures { IfOk result (λ other. other ≡ exchanged place order.now) }
{
    match order.split_first() {
        Some((first, rest)) => exchanged_behind(alloc, *first, rest, place),
        None => Ok(Seq::new(alloc)),
    }
}

/// The same order once more.
fn copy(alloc: Global, order: &[u32]) -> Result<Seq<u32>, NoMemory>
    ensures { IfOk result (λ same. same ≡ order.now) }
{
    Ok(Seq::from_vec(order.to_vec(alloc)?))
}

/// The tree with the orders that the codes tell by these values, or with the order that was asked about.
fn witness_by(alloc: Global, asks: &Asks, values: &[bool], tree: Tree) -> Result<Witness, NoMemory>
    requires wires { AreWithin (length values.now) asks.now }
    requires small { AreSmallBy (truth_at values.now) asks.now }
    ensures { IfOk result (IsReadAs (truth_at values.now) asks.now tree) }
{
    match asks {
        Asks::Orders { codes, place } => {
            let left = order_by(alloc, values, codes.as_slice())?;
            let place = number_of(values, place.as_slice());
            let right = exchanged_order(alloc, left.as_slice(), place)?;
            Ok(Witness::Orders { tree, left, right })
        }
        Asks::Twice { order } => {
            let order = copy(alloc, order.as_slice())?;
            Ok(Witness::Twice { tree, order })
        }
        Asks::Ends { order } => {
            let order = copy(alloc, order.as_slice())?;
            Ok(Witness::Ends { tree, order })
        }
    }
}

/// The inputs, with which a model begins.
fn inputs_of<'m>(circuit: &Circuit, model: &'m [bool]) -> &'m [bool]
    requires { input_count circuit.now ≤ length model.now }
    ensures inputs { result.now ≡ take (input_count circuit.now) model.now }
    ensures circuit { IsCircuit circuit.now }
{
    &model[..circuit.inputs() as usize]
}

/// The values of all wires.
fn values_of(alloc: Global, circuit: &Circuit, inputs: &[bool]) -> Result<Vec<bool>, NoMemory>
    requires { length inputs.now ≡ input_count circuit.now }
    ensures values { IfOk result (λ values. values.items ≡ wire_values (truth_at inputs.now) circuit.now) }
    ensures long { IfOk result (λ values. length values.items ≡ length circuit.now) }
{
    let mut values = vec![in alloc; false; circuit.wires() as usize]?;
    circuit.value(inputs, &mut values);
    Ok(values)
}

impl Question {
    /// What a model of the formula shows: a tree over the domain, with two orders or the order that was asked about.
    pub fn read(&self, alloc: Global, model: &[bool]) -> Result<Witness, NoMemory>
        requires long { length model.now ≡ self.now.formula.vars }
        requires model { Satisfies (valuation_of model.now) self.now.formula.clauses }
        ensures { IfOk result (CanShow self.now) }
    {
        let posed = self.posed.get();
        let inputs = inputs_of(posed.sym.circuit(), model);
        let tree = posed.sym.tree(self.domain.get(), &posed.cells, inputs)?;
        let values = values_of(alloc, posed.sym.circuit(), inputs)?;
        witness_by(alloc, &posed.asks, &values, tree)
    }
}
