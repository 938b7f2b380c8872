//! The files that a request names: what stands under each name, or the first that is too long or can't be read.
#![tactic(auto)]

mod fetching;
mod files;
mod within;

pub use fetching::FilesFault;
pub use files::read_files;
