//! The model of one resource.

use fs_lang::{Path, Program};
use rh_base::Seq;

/// What a resource is taken to do. Two resources have the same place just where they are of one type and have one
/// modelled name.
#[derive(Drop)]
pub struct Model {
    pub place: Path,
    pub steps: Seq<Program>,
}
