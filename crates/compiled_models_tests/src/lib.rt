//! Tests of what the native resources of compiled catalogs do.
#![tactic(auto)]

mod places;
#[cfg(test)]
mod tests;

pub use places::native_places;
