//! Names as they are printed in lines.
#![tactic(auto)]

mod printing;

pub use printing::{one_line, printed};
