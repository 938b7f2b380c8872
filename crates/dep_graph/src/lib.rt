//! The graph of a catalog: what comes before what.
//!
//! A container has two nodes, a start and an end, between which its members lie, so that a relation of a class is an edge and
//! not one for each member. The order of all nodes is the closure of the edges (`orders`); that of the plain resources is read
//! off it.
#![tactic(auto)]

mod answer;
mod building;
mod circle;
mod files;
mod joined;
mod links;
mod named;
mod pairs;
mod printing;
mod structure;
mod targets;
mod values;
mod whole;

pub use answer::Graph;
pub use building::graph;
pub use printing::graph_text;
