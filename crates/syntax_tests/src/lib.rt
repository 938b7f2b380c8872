//! Tests of the syntax: tables of rows, each a text and what is answered to it.
#![tactic(auto)]

#[cfg(test)]
mod tests;
