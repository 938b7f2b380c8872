//! Tests of the catalogs that Puppet compiled, as they are verified.
#![tactic(auto)]

#[cfg(test)]
mod tests;
