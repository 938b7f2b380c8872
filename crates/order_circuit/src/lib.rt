//! Orders that codes tell, as wires: which node stands at a place, whether the order is allowed, the exchange of two
//! neighbours, and the run of programs in the order.
//!
//! A permutation in binary: for each place the number of the node that stands there, as inputs. A matrix with an input for each
//! node and place would have more of them, and clauses that one node stands at each place.
#![tactic(auto)]

mod allowed;
mod exchange;
mod parts;
mod picks;
mod runs;

pub use allowed::in_order;
pub use exchange::exchanged_codes;
pub use parts::{Part, code_at, run_part};
pub use picks::tells;
pub use runs::{copy_cells, run_place};
