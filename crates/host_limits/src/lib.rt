//! How large what is asked about may be: the usual limits, or those of a whole host.
#![tactic(auto)]

mod limits;

pub use limits::Limits;
