//! What bodies declare, and how the bodies of classes and of defined types begin: parameters, resources, collectors, the parents
//! of a class that are still to be declared, and what functions do that declare nothing.
#![tactic(auto)]

mod beginning;
mod collecting;
mod declaring;
mod functions;
mod laws;
mod parameters;
mod parents;
mod types;

pub use beginning::{begin_class, begin_defined, copy_resource};
pub use collecting::collector_of;
pub use declaring::{Declaration, declare_resources};
pub use functions::{fail_with, realize_all};
pub use laws::{classes_begin_and_end, parents_go_from_the_top};
pub use parents::{class_named, class_ref, is_declared, nearest_first, no_circle};
pub use types::named_type;
