//! What resources do of which a behavior is assumed, and edits that others lose.
#![tactic(auto)]

mod behaviors;
mod edits;
mod laws;
mod lost;
mod marks;

pub use behaviors::program_of_behavior;
pub use edits::{Edit, Edits};
pub use laws::{edits_are_lost, marks_tell_edits, no_edit_outlives_its_file};
pub use lost::with_lost_edits;
pub use marks::edit_mark;
