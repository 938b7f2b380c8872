//! What a statement runs in, and what a call is.

use catalog_semantics::Room;
use pp_definitions::Site;
use pp_syntax::{Expr, Func};

/// What the manifest defines, and how much room is left for open bodies and blocks.
#[derive(Clone, Copy)]
pub struct Frame<'s, 'm> {
    pub site: &'s Site<'m>,
    pub left: Room,
}

/// A call as it stands: its place, the function and its arguments.
#[derive(Clone, Copy)]
pub struct Call<'t> {
    pub at: u32,
    pub func: Func,
    pub args: &'t [Expr],
}
