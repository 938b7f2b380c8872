//! The text of a catalog, and values as JSON.
#![tactic(auto)]

mod printing;
mod values;

pub use printing::catalog_text;
pub use values::json_text;
