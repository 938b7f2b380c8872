//! The models of cron jobs and of keys of ssh.
#![tactic(auto)]

mod entries;

pub use entries::{cron_model, key_model};
