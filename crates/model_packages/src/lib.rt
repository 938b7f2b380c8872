//! The models of packages.
#![tactic(auto)]

mod folders;
mod packages;

pub use packages::package_model;
