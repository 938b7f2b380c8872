//! What an expression lends of what is bound, so that it need not be copied.

use pp_value::Value;

/// What an expression lends.
pub enum Lent<'s> {
    /// It is no variable, and no member of one.
    Nothing,
    /// It is one that gives undef.
    Undef,
    Found(&'s Value),
}
