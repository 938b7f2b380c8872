//! The models of services.
#![tactic(auto)]

mod services;

pub use services::service_model;
