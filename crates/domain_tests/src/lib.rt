//! Tests of footprints, of pairs that commute by their parts, of pruning, of the finite domain and the weight of programs.
#![tactic(auto)]

#[cfg(test)]
mod tests;
