//! Tests of where runs fail, of the paths at which trees differ, and of smaller counterexamples.
#![tactic(auto)]

#[cfg(test)]
mod tests;
