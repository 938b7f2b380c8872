//! The models of groups and users.
#![tactic(auto)]

mod accounts;

pub use accounts::{group_model, user_model};
