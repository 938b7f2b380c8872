//! What a catalog holds.

use pp_value::{Pairs, Ref};
use rh_base::Seq;

/// A resource of a built-in type, one of a defined type, or a class.
#[derive(Clone, Copy, Debug, PartialEq, Eq)]
pub enum Sort {
    Plain,
    Defined,
    Class,
}

/// A declared resource. The holder is the place of the class or defined resource whose body declared it.
#[derive(Drop)]
pub struct Resource {
    pub id: Ref,
    pub sort: Sort,
    /// virtual, and not realized
    pub is_virtual: bool,
    pub at: u32,
    pub holder: Option<u32>,
    pub attrs: Pairs,
}

/// Each resource of the one side comes before each of the other.
#[derive(Drop)]
pub struct Relation {
    pub from: Seq<Ref>,
    pub to: Seq<Ref>,
    pub at: u32,
}
