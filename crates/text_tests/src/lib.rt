//! Tests of the texts of trees, programs and names: tables of rows, each a text and what is answered to it.
#![tactic(auto)]

#[cfg(test)]
mod tests;
