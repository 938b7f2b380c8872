//! The programs of resources.
#![tactic(auto)]

mod models;
mod plain;
mod programs;

pub use models::model_at;
pub use plain::put;
pub use programs::{program_of, programs_of};
