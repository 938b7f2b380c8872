//! Trimming of refutations: only the steps on which the empty clause rests are left, and numbered anew. That is what drat-trim, LRAT's
//! tools and TraceCheck's do with the traces of solvers, which keep each clause that was learned, used or not. From the last step
//! backwards each step that is marked marks what it names, so one pass finds all; a second one numbers the marked steps, and a third
//! writes them. All three are linear in the length of the log. What is answered was checked like any other log.
#![tactic(auto)]

mod formula;
mod marks;
mod steps;
mod trimming;

pub use trimming::trimmed;
