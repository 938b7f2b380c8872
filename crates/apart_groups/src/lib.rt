//! Groups of programs that don't touch one another, as packages don't that have their own files and services.
//!
//! They are the components by touching pairs, joined further where the order leads around a circle of them, and sorted. Each is
//! asked about by itself (`verdict`), which keeps formulas small. What is found is tested, and the test alone is proved,
//! as in translation validation (Pnueli, Siegel and Singerman 1998): that they make an allowed order, and that no touching pair
//! is of two groups. How they were found matters to nobody then. Where the test fails all is one group.
#![tactic(auto)]

mod circles;
mod finding;
mod labels;
mod testing;

pub use finding::{groups_beside, groups_of};
