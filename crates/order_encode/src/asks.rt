//! What is asked, and what makes the answer yes.

use bool_circuit::Wire;
use rh_base::Seq;

/// Whether two allowed orders end differently, with a code for each place of the one order and that of the place where the
/// other has two neighbours exchanged; or whether a second run in this order changes what the first one left; or whether
/// this order ends in a tree.
#[derive(Drop)]
pub(crate) enum Asks {
    Orders {
        codes: Seq<Seq<Wire>>,
        place: Seq<Wire>,
    },
    Twice {
        order: Seq<u32>,
    },
    Ends {
        order: Seq<u32>,
    },
}

/// What a solver is to make true, and the wires that it may try first: only how long it takes depends on these.
#[derive(Drop)]
pub(crate) struct Goal {
    pub wire: Wire,
    pub firsts: Vec<Wire>,
}
