//! The texts of file trees and of programs: how they are written, and how trees are read.
#![tactic(auto)]

mod laws;
mod printing;
mod reading;
mod writing;

pub use laws::tree_texts;
pub use printing::{path_shown, program_text, quoted, test_shown};
pub use reading::tree_from_json;
pub use writing::tree_to_json;
