//! The paths at which two file trees differ.
#![tactic(auto)]

mod comparing;
mod entries;
mod laws;
mod placing;

pub use comparing::differences;
pub use laws::difference_lists;
pub use placing::Difference;
