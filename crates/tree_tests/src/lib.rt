//! Tests of paths, trees and programs.
#![tactic(auto)]

#[cfg(test)]
mod tests;
