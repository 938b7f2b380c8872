//! A domain, with its paths and contents by number.

use fs_interpreter::Table;
use rh_base::Seq;

/// The paths of a domain, in order, with its contents, and the places of its fresh children.
#[derive(Drop)]
pub struct Domain {
    pub table: Table,
    pub fresh: Seq<u64>,
}
