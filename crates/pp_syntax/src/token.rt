//! Tokens.

/// What a token is. The text of a keyword, a sign or a spelling that is left out tells which one it is.
#[derive(Clone, Copy, Debug, PartialEq, Eq)]
pub enum Kind {
    /// `ntp`, `apache::mod`, `::top`
    Word,
    /// `File`, `Apache::Mod`
    Ref,
    /// `$servers`
    Var,
    /// `10`, `0x1F`
    Int,
    /// `1.5`
    Float,
    /// a text in single quotes
    Sq,
    /// the `"` that opens a text
    DqOpen,
    /// what stands between `"`, variables and expressions
    DqText,
    /// `$servers` within double quotes
    DqVar,
    /// the `${` that opens an expression within double quotes
    Hole,
    /// the `}` that closes it
    HoleEnd,
    /// the `"` that closes a text
    DqClose,
    /// a `[` directly behind what it indexes
    Tight,
    /// any other `[`
    Loose,
    Keyword,
    /// any other sign
    Sign,
    /// a spelling of Puppet's that this language leaves out
    LeftOut,
}

/// A token, with the place of its first byte in the source.
#[derive(Clone, Copy, Debug)]
pub struct Token<'t> {
    pub kind: Kind,
    pub text: &'t str,
    pub at: u32,
}
