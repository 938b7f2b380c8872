//! What every host has, as a text: given folders, and links.
#![tactic(auto)]

mod checking;
mod folders;
mod given;
mod laws;
mod reading;

pub use checking::link_paths;
pub use folders::folder_tree;
pub use given::Given;
pub use laws::given_texts;
pub use reading::given_from_json;
