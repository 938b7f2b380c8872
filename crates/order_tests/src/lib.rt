//! Tests of orders.
#![tactic(auto)]

#[cfg(test)]
mod relations;
