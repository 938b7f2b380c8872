//! Gates, and the wires that number them. `And` and `Not` alone would do (an and-inverter graph); a `Mux`, if-then-else, would take
//! three `And` gates.

/// The number of a wire, which is the place of its gate in the circuit.
#[derive(Clone, Copy, Debug, PartialEq, Eq, Hash)]
pub struct Wire(pub u64);

/// What gives a wire its value. An input carries its place among the inputs, counted from 0.
#[derive(Clone, Copy, Debug, PartialEq, Eq, Hash)]
pub enum Gate {
    Input(u64),
    Constant(bool),
    Not(Wire),
    And(Wire, Wire),
    /// The second wire where the first is true, else the third.
    Mux(Wire, Wire, Wire),
}
