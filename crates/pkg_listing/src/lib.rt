//! The listing of packages: which files and folders each of them has.
#![tactic(auto)]

mod laws;
mod listing;
mod paths;
mod reading;
mod writing;

pub use laws::{listing_texts, package_paths};
pub use listing::{Listed, Listing, Package};
pub use paths::PathSet;
pub use reading::{Version, folders_of, listing_from_json, managed_path, path_of};
pub use writing::listing_to_json;
