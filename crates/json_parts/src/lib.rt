//! Parts of JSON texts: how texts, members and bytes are read and written, whatever the text is of.
#![tactic(auto)]

mod reading;
mod writing;

pub use reading::{has_version, text_of};
pub use writing::{append, put_member, text_json};
