//! What is told of programs and the order between them: whether they are deterministic, whether a second run changes anything,
//! and whether they succeed from some tree; or the proofs of that.
#![tactic(auto)]

mod lines;
mod named;
mod proofs;
mod report;
mod runs;
mod telling;

pub use lines::{begun, push_count, push_head, push_known, push_last, push_spent, spent_text};
pub use named::NamedPlan;
pub use report::{Form, Report, printed};
pub use runs::{difference_text, push_run};
pub use telling::told;
