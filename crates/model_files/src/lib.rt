//! The models of files.
#![tactic(auto)]

mod files;

pub use files::{are_free, file_model, file_row, file_state, one_step};
