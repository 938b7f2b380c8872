//! Tests of the texts of compiled catalogs.
#![tactic(auto)]

#[cfg(test)]
mod tests;
