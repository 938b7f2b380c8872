//! Tests of models: tables of rows, each a resource and its program as it is printed, or its refusal.
#![tactic(auto)]

#[cfg(test)]
mod tests;
