//! Programs that share steps and are apart in the rest commute.
//!
//! A sufficient test by the structure of both, as a compositional proof of commutativity would go: folders that both make sure of go
//! ahead, the steps that stand in both lists in the same order are shared, and what is left is apart by its footprint where these
//! folders stand. Of two sweeps of one folder, as packages that go have them, only the last one counts. Packages that list the same
//! files are such programs; a formula about each two of them would be one over all that they share. Where nothing is told, the
//! formula is asked (`determinism`).
#![tactic(auto)]

mod apart;
mod commuting;
mod folders;
mod gathering;
mod laws;
mod left;
mod parts;
mod same;
mod sharing;
mod splitting;
mod sweeping;

pub use commuting::commute_by_parts;
