//! Tests of the solver.
#![tactic(auto)]

#[cfg(test)]
mod answers;
