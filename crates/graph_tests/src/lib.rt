//! Tests of graphs: tables of rows, each some resources and relations and the text of their graph or a refusal.
#![tactic(auto)]

#[cfg(test)]
mod tests;
