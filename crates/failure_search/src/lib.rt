//! Where a run of programs fails: the resource at which it ends in Error, the construct that gives it, and why.
//!
//! By bisection: Error stays Error, so a front of an order fails exactly where it has the shortest one that does. A package of
//! thousands of files takes a dozen runs.
#![tactic(auto)]

mod failure;
mod find;
mod fronts;
mod questions;
mod steps;

pub use failure::{Failed, Failure, Reason};
pub use find::find_failure;
