//! Tests of circuits, formulas and proofs.
#![tactic(auto)]

#[cfg(test)]
mod tests;
