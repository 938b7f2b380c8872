//! The words of the command line.
#![tactic(auto)]

mod command;
mod laws;
mod numbers;
mod request;
mod size;
mod table;
mod words;

pub use laws::one_request;
pub use request::{ByRole, Request, Source, given, input_kind};
pub use size::Size;
pub use table::{ASSUMED_BYTES, Ask, COMPILED_BYTES, GIVEN_BYTES, InputKind, Role, usage_line};
pub use words::{WordsFault, read_request};
