//! What comes of a question: its formula is solved under a budget, a model is read, and a refutation is checked.
#![tactic(auto)]

mod answering;
mod refuting;

pub use answering::{Answer, answer_to};
pub use refuting::refuted;
