//! Tests of verdicts, and of the question of order, on programs.
#![tactic(auto)]

#[cfg(test)]
mod tests;
