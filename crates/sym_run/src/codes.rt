//! Binary numbers of wires, the highest bit first.

ghost use Rattle.std.specs.Prelude.{◌≡◌, ◌+◌, ◌*◌, ◌<◌, ◌==◌, ◌-◌, ◌++◌, ◌∷◌, [], ℕ, Bool, false, not, length, if◌then◌else◌, IfOk};
ghost use Rattle.bool_circuit.specs.Gates.{Grows, wire_value};
ghost use Rattle.sym_run.specs.Wires.{number, bit_number, AreWires};

use bool_circuit::{Circuit, Wire};
use rh_base::{NoMemory, Seq};
use std::alloc::Global;

/// The wires of a known number.
pub(crate) fn code_wires(
    alloc: Global,
    circuit: &mut Circuit,
    n: u64,
) -> Result<Seq<Wire>, NoMemory>
    ensures own { IfOk result (λ ws. AreWires circuit.new ws) }
    ensures value { IfOk result (λ ws. (inputs : ℕ → Bool) → number (wire_value circuit.new inputs) ws ≡ n) }
    ensures grows { Grows circuit.old circuit.new }
{
    if n == 0 {
        no_wires(alloc, circuit)
    } else {
        let front = code_wires(alloc, circuit, n / 2)?;
        let last = circuit.constant(n % 2 == 1)?;
        with_last(front, last)
    }
}

fn no_wires(alloc: Global, circuit: &mut Circuit) -> Result<Seq<Wire>, NoMemory>
    ensures none { IfOk result (λ ws. ws ≡ []) }
    ensures grows { Grows circuit.old circuit.new }
{
    let _zero = circuit.constant(false)?;
    Ok(Seq::new(alloc))
}

fn with_last(front: Seq<Wire>, last: Wire) -> Result<Seq<Wire>, NoMemory>
    ensures { IfOk result (λ ws. ws ≡ front ++ last ∷ []) }
{
    let mut wires = front;
    wires.push(last)?;
    Ok(wires)
}

/// The front and the last bit, which is `zero` where there is none. All are wires of the circuit.
pub(crate) fn apart<'w>(circuit: &Circuit, wires: &'w [Wire], zero: Wire) -> (&'w [Wire], Wire)
    requires zero { zero.0 < length circuit.now }
    requires own { AreWires circuit.now wires.now }
    ensures value { (values : ℕ → Bool) → values zero.0 ≡ false
        → number values wires.now ≡ 2 * number values result.0.now + bit_number (values result.1.0) }
    ensures front { AreWires circuit.now result.0.now }
    ensures last { result.1.0 < length circuit.now }
    ensures shorter { length result.0.now ≡ length wires.now - 1 }
{
    match wires.split_last() {
        Some((last, front)) => (front, *last),
        None => (wires, zero),
    }
}

/// The one number where the condition holds, else the other.
pub(crate) fn pick_wires(
    alloc: Global,
    circuit: &mut Circuit,
    c: Wire,
    a: &[Wire],
    b: &[Wire],
) -> Result<Seq<Wire>, NoMemory>
    requires c { c.0 < length circuit.old }
    requires a { AreWires circuit.old a.now }
    requires b { AreWires circuit.old b.now }
    ensures own { IfOk result (λ ws. AreWires circuit.new ws) }
    ensures value { IfOk result (λ ws. (inputs : ℕ → Bool)
        → number (wire_value circuit.new inputs) ws ≡
        (if wire_value circuit.old inputs c.0 then number (wire_value circuit.old inputs) a.now else number
        (wire_value circuit.old inputs) b.now)) }
    ensures grows { Grows circuit.old circuit.new }
{
    let zero = circuit.constant(false)?;
    pick_with(alloc, circuit, zero, c, a, b)
}

fn pick_with(
    alloc: Global,
    circuit: &mut Circuit,
    zero: Wire,
    c: Wire,
    a: &[Wire],
    b: &[Wire],
) -> Result<Seq<Wire>, NoMemory>
    requires zero { zero.0 < length circuit.old }
    requires off { (inputs : ℕ → Bool) → wire_value circuit.old inputs zero.0 ≡ false }
    requires c { c.0 < length circuit.old }
    requires a { AreWires circuit.old a.now }
    requires b { AreWires circuit.old b.now }
    ensures own { IfOk result (λ ws. AreWires circuit.new ws) }
    ensures value { IfOk result (λ ws. (inputs : ℕ → Bool)
        → number (wire_value circuit.new inputs) ws ≡
        (if wire_value circuit.old inputs c.0 then number (wire_value circuit.old inputs) a.now else number
        (wire_value circuit.old inputs) b.now)) }
    ensures grows { Grows circuit.old circuit.new }
{
    if a.is_empty() && b.is_empty() {
        return no_wires(alloc, circuit);
    }
    let (front_a, last_a) = apart(circuit, a, zero);
    let (front_b, last_b) = apart(circuit, b, zero);
    let front = pick_with(alloc, circuit, zero, c, front_a, front_b)?;
    let last = circuit.mux(c, last_a, last_b)?;
    with_last(front, last)
}

/// Whether the two are one number.
pub(crate) fn same_wires(circuit: &mut Circuit, a: &[Wire], b: &[Wire]) -> Result<Wire, NoMemory>
    requires a { AreWires circuit.old a.now }
    requires b { AreWires circuit.old b.now }
    ensures wire { IfOk result (λ w. w.0 < length circuit.new) }
    ensures value { IfOk result (λ w. (inputs : ℕ → Bool)
        → wire_value circuit.new inputs w.0 ≡
        (number (wire_value circuit.old inputs) a.now == number (wire_value circuit.old inputs) b.now)) }
    ensures grows { Grows circuit.old circuit.new }
{
    let zero = circuit.constant(false)?;
    same_with(circuit, zero, a, b)
}

fn same_with(circuit: &mut Circuit, zero: Wire, a: &[Wire], b: &[Wire]) -> Result<Wire, NoMemory>
    requires zero { zero.0 < length circuit.old }
    requires off { (inputs : ℕ → Bool) → wire_value circuit.old inputs zero.0 ≡ false }
    requires a { AreWires circuit.old a.now }
    requires b { AreWires circuit.old b.now }
    ensures wire { IfOk result (λ w. w.0 < length circuit.new) }
    ensures value { IfOk result (λ w. (inputs : ℕ → Bool)
        → wire_value circuit.new inputs w.0 ≡
        (number (wire_value circuit.old inputs) a.now == number (wire_value circuit.old inputs) b.now)) }
    ensures grows { Grows circuit.old circuit.new }
{
    if a.is_empty() && b.is_empty() {
        return circuit.constant(true);
    }
    let (front_a, last_a) = apart(circuit, a, zero);
    let (front_b, last_b) = apart(circuit, b, zero);
    let front = same_with(circuit, zero, front_a, front_b)?;
    let last = same_bit(circuit, last_a, last_b)?;
    circuit.and(front, last)
}

/// Whether the two wires have one value.
fn same_bit(circuit: &mut Circuit, a: Wire, b: Wire) -> Result<Wire, NoMemory>
    requires a { a.0 < length circuit.old }
    requires b { b.0 < length circuit.old }
    ensures wire { IfOk result (λ w. w.0 < length circuit.new) }
    ensures value { IfOk result (λ w. (inputs : ℕ → Bool)
        → wire_value circuit.new inputs w.0 ≡
        (if wire_value circuit.old inputs a.0 then wire_value circuit.old inputs b.0 else not
        (wire_value circuit.old inputs b.0))) }
    ensures grows { Grows circuit.old circuit.new }
{
    let other = circuit.not(b)?;
    circuit.mux(a, b, other)
}
