//! Tests of catalogs: tables of rows, each a manifest and the catalog that it means, or its first refusal.
#![tactic(auto)]

#[cfg(test)]
mod tests;
