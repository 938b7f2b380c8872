//! A manifest and a listing of a size that is asked for, to measure the program by.
#![tactic(auto)]

mod listing;
mod manifest;
mod whole;

pub use whole::workload;
