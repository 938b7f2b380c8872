//! What statements need of expressions: tests, titles, references, attributes, names of classes, texts.
#![tactic(auto)]

mod attributes;
mod classes;
mod conditions;
mod references;
mod shown;
mod titles;

pub use attributes::{attributes_at, attributes_behind};
pub use classes::class_names;
pub use conditions::test_of;
pub use references::{named_refs, references_in};
pub use shown::failure;
pub use titles::titles_at;
