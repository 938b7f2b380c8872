//! The finite domain of programs: the paths and contents that are enough to tell how they end.
//!
//! A small model property, after Shambaugh, Weiss and Guha (2016). What stands at paths that no program names shows only in
//! whether a folder that is removed, or asked to be empty, has other children, so one fresh child in each stands for all of
//! them. Contents are put and copied and never looked into, so the constants and one fresh text for each path are enough.
//! `finite_domain` has the law.
#![tactic(auto)]

mod found;
mod fresh;
mod fronts;
mod listed;
mod making;
mod places;
mod segments;
mod sets;
mod stems;
mod walk;

pub use listed::Domain;
pub use making::{domain, named};
