//! Tests of texts, lists, faults, and of what is read from and written to.
#![tactic(auto)]

#[cfg(test)]
mod tests;
