//! Tests of values, expressions, scopes, facts and class data: tables of rows, each a text and what is answered to it.
#![tactic(auto)]

#[cfg(test)]
mod tests;
