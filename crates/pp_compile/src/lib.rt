//! The catalog of a manifest.
#![tactic(auto)]

mod compiling;
mod defaults;
mod items;
mod laws;
mod looking;
mod running;
mod source;

pub use compiling::{compile, compile_with};
pub use items::main_code;
pub use laws::one_reading;
pub use running::{evaluate, rounds};
pub use source::manifest_of;
