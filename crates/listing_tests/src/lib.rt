//! Tests of the texts of listings.
#![tactic(auto)]

#[cfg(test)]
mod tests;
