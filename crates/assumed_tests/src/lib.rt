//! Tests of assumptions.
#![tactic(auto)]

#[cfg(test)]
mod tests;
