//! One scope.

use pp_value::Pairs;
use rh_base::Text;

/// What a scope is of: the top, a node, a class of a name, or a defined resource.
#[derive(Drop)]
pub enum Sort {
    Top,
    Node,
    Class(Text),
    Defined,
}

/// A scope, with what is bound in it; a class that inherits has the place of its parent's scope among all.
#[derive(Drop)]
pub struct Scope {
    pub sort: Sort,
    pub parent: Option<usize>,
    pub bindings: Pairs,
}
