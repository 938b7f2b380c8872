//! Tests of the texts of orders: tables of rows, each a text and the order that it names, or the refusal.
#![tactic(auto)]

#[cfg(test)]
mod tests;
