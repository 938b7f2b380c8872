//! What the functions of a parser are lent.

use pp_syntax::Token;
use std::alloc::Global;

/// The tokens that are parsed, and what all rules of the grammar share. A rule is a function that is lent this, and takes the
/// index from which it reads.
#[derive(Clone, Copy, Drop)]
pub struct Parser<'t> {
    /// where what is read gets its memory
    pub alloc: Global,
    /// How deep brackets, and the blocks of statements, may be nested: less deep than this.
    pub limit: usize,
    pub tokens: &'t [Token<'t>],
}
